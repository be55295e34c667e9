ghost use Rattle.std.specs.Prelude.{◌≡◌};
ghost use Rattle.slope.specs.Slopes.{unbounded, meeting, nearest_of};

use crate::product::{minus_times, times};

// Two bounds hold the slopes between them: `least`, and `fall`, which is the greatest slope turned over (its rise negated).
// So both bounds tighten by growing steeper, and one comparison serves both.
#[derive(Clone, Copy)]
pub struct Bounds {
    pub least: (i64, i64),
    pub fall: (i64, i64),
}

impl Bounds {
    // Every slope is between them.
    pub fn open() -> Bounds
        ensures least { result.least ≡ unbounded }
        ensures fall { result.fall ≡ unbounded }
    {
        Bounds {
            least: (-1, 0),
            fall: (-1, 0),
        }
    }

    // Whether the bounds leave a slope between them.
    pub fn meet(self) -> bool
        ensures { result ≡ meeting self.least self.fall }
    {
        times(self.least.0, self.fall.1) <= minus_times(self.fall.0, self.least.1)
    }

    // The slope between the bounds that is nearest 0.
    pub fn nearest(self) -> (i64, i64)
        ensures { result ≡ nearest_of self.least self.fall }
    {
        if self.least.0 > 0 {
            self.least
        } else if self.fall.0 > 0 {
            (-self.fall.0, self.fall.1)
        } else {
            (0, 1)
        }
    }
}
