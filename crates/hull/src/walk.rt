ghost use Rattle.std.specs.Prelude.{◌≡◌, ◌<◌};
ghost use Rattle.hull.specs.Hulls.{ends, steepest_to, topmost};

use crate::hull::Hull;
use crate::point::Point;
use slope::steeper;

impl Hull {
    // The points that count, oldest first.
    pub fn ends(&self) -> &[Point]
        ensures { result.now ≡ ends self.now }
    {
        &self.points[..self.len]
    }

    // The steepest of `start` and the slopes from the hull's points, turned over, to `to`.
    pub fn steepest(&self, to: Point, start: (i64, i64)) -> (i64, i64)
        ensures { result ≡ steepest_to to start (ends self.now) }
    {
        self.ends()
            .iter()
            .fold(start, |best, p| steeper(best, p.reach(to)))
    }

    // The first of the hull's points that are highest against a slope. There is one: a caller has pushed a point.
    pub fn highest(&self, slope: (i64, i64)) -> Point
        requires { 0 < self.now.len }
        ensures { result ≡ topmost slope (ends self.now) }
    {
        let points = self.ends();
        points
            .iter()
            .fold(points[0], |best, p| best.or_higher(*p, slope))
    }
}
