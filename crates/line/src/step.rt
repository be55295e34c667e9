ghost use Rattle.std.specs.Prelude.{◌≡◌, ◌+◌, ◌<◌, ◌≤◌};
ghost use Rattle.hull.specs.Hulls.{ends, pushed};

use crate::taken::Taken;
use hull::{Hull, Point};
use slope::Bounds;

// What a reading that fits brings: the low and the high end of its band, the high one turned over, and the bounds of the
// slope and the span with it taken.
#[derive(Clone, Copy)]
pub(crate) struct Step {
    pub(crate) low: Point,
    pub(crate) high: Point,
    pub(crate) bounds: Bounds,
    pub(crate) span: Taken,
}

impl Step {
    // Pushes the ends, each onto its own hull.
    pub(crate) fn push_onto(self, lows: &mut Hull, highs: &mut Hull)
        requires { (lows.old.len < 256) × (highs.old.len < 256) }
        ensures lows { ends lows.new ≡ pushed (ends lows.old) self.low }
        ensures highs { ends highs.new ≡ pushed (ends highs.old) self.high }
        ensures room { (lows.new.len ≤ lows.old.len + 1) × (highs.new.len ≤ highs.old.len + 1) × (0 < lows.new.len) }
    {
        lows.push(self.low);
        highs.push(self.high);
    }
}
