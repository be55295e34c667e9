ghost use Rattle.std.specs.Prelude.{◌≡◌, ◌+◌, ◌<◌, ◌≤◌, [], ◌∷◌, ◌++◌, reverse};
ghost use Rattle.hull.specs.Hulls.{ends, covered, uncovered, pushed};

use crate::hull::Hull;
use crate::point::Point;

impl Hull {
    // No points.
    pub fn new() -> Hull
        ensures len { result.len ≡ 0 }
        ensures none { ends result ≡ [] }
    {
        let origin = Point { tick: 0, height: 0 };
        Hull {
            points: [origin; 256],
            len: 0,
        }
    }

    // Lets all points go.
    pub fn clear(&mut self)
        ensures len { self.new.len ≡ 0 }
        ensures none { ends self.new ≡ [] }
    {
        self.len = 0;
    }

    // Whether the last point lies on or under the piece from the one before it to `p`.
    fn last_is_covered(&self, p: Point) -> bool
        ensures { result ≡ covered (reverse (ends self.now)) p }
    {
        matches!(self.ends(), [.., before, last] if !last.is_above(*before, p))
    }

    // Drops what lies on or under the piece to `p`.
    fn drop_covered(&mut self, p: Point)
        ensures list { ends self.new ≡ uncovered (ends self.old) p }
        ensures fewer { self.new.len ≤ self.old.len }
    {
        while self.last_is_covered(p) {
            self.len -= 1;
        }
    }

    // Puts `p` last.
    fn append(&mut self, p: Point)
        requires { self.old.len < 256 }
        ensures list { ends self.new ≡ ends self.old ++ (p ∷ []) }
        ensures more { self.new.len ≡ self.old.len + 1 }
    {
        self.points[self.len] = p;
        self.len += 1;
    }

    // Takes a point into the hull: what lies on or under the piece to it goes, and it comes last. There is room: in a run,
    // whose ticks rise and lie within 255 of each other, at most 255 points come before a new one.
    pub fn push(&mut self, p: Point)
        requires { self.old.len < 256 }
        ensures list { ends self.new ≡ pushed (ends self.old) p }
        ensures room { self.new.len ≤ self.old.len + 1 }
        ensures some { 0 < self.new.len }
    {
        self.drop_covered(p);
        self.append(p);
    }
}
