ghost use Rattle.std.specs.Prelude.{◌≡◌, pos, ◌+ℤ◌, ◌-ℤ◌};
ghost use Rattle.hull.specs.Points.{rising, reaching, bends, lift, higher};

use slope::{flatter, times_less_times};

// One end of a reading: a tick and a height. A high end is kept turned over: its height negated.
#[derive(Clone, Copy)]
pub struct Point {
    pub tick: u32,
    pub height: i32,
}

impl Point {
    // The ticks to another point.
    fn ticks_to(self, to: Point) -> i64
        ensures { result ≡ pos to.tick -ℤ pos self.tick }
    {
        to.tick as i64 - self.tick as i64
    }

    // How much higher another point is.
    fn rise_to(self, to: Point) -> i64
        ensures { result ≡ to.height -ℤ self.height }
    {
        to.height as i64 - self.height as i64
    }

    // How much higher another point is than this one turned over.
    fn rise_turned_to(self, to: Point) -> i64
        ensures { result ≡ to.height +ℤ self.height }
    {
        to.height as i64 + self.height as i64
    }

    // The slope to another point.
    pub fn slope_to(self, to: Point) -> (i64, i64)
        ensures { result ≡ rising self to }
    {
        (self.rise_to(to), self.ticks_to(to))
    }

    // The slope from this point, turned over, to a point of the other hull.
    pub fn reach(self, to: Point) -> (i64, i64)
        ensures { result ≡ reaching self to }
    {
        (self.rise_turned_to(to), self.ticks_to(to))
    }

    // Whether this point lies above the piece from the one before it to the one after it.
    pub fn is_above(self, before: Point, after: Point) -> bool
        ensures { result ≡ bends before self after }
    {
        flatter(self.slope_to(after), before.slope_to(self))
    }

    // How high the line of a slope through this point is at tick 0, times the slope's over.
    pub fn lift(self, slope: (i64, i64)) -> i128
        ensures { result ≡ lift slope self }
    {
        times_less_times(slope.1, self.height as i64, slope.0, self.tick as i64)
    }

    // This point or another, whichever is higher against a slope; this one, where neither is.
    pub fn or_higher(self, other: Point, slope: (i64, i64)) -> Point
        ensures { result ≡ higher slope self other }
    {
        if self.lift(slope) < other.lift(slope) {
            other
        } else {
            self
        }
    }
}
