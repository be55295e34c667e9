ghost use Rattle.std.specs.Prelude.{◌≡◌, ◌+◌, ◌-◌, ◌%◌, ◌<◌, ◌≤◌, true, pos, neg_ℤ, ◌≤ℤ◌, ◌<ℤ◌};
ghost use Rattle.line.specs.Picks.{numbers_hold};
ghost use Rattle.line.specs.LineMeaning.{line_slope, line_pick, Chosen};

use crate::line::Line;
use crate::pick::Pick;
use slope::{height_before, reduced};

// The first tick from `first` on that is some number of overs before or at `tick`.
fn pivot(first: u32, tick: u32, over: u32) -> u32
    requires order { first ≤ tick }
    requires some { 0 < over }
    ensures { result ≡ first + (tick - first) % over }
{
    first + (tick - first) % over
}

impl Line {
    // The allowed slope nearest 0, in lowest terms.
    fn slope(&self) -> (i64, i64)
        ensures is { result ≡ line_slope self.now }
        ensures over { (pos 0 <ℤ result.1) × (result.1 ≤ℤ pos 255) }
        ensures rise { (neg_ℤ (pos 2000000) ≤ℤ result.0) × (result.0 ≤ℤ pos 2000000) }
    {
        reduced(self.bounds.nearest())
    }

    // What the state picks: of the allowed lines whose slope is nearest 0 the lowest, told at the first tick from the run's
    // first on at which its height is whole. Slope 0, height 0 and pivot 0 where nothing was taken.
    pub fn choose(&self) -> Pick
        ensures is { result ≡ line_pick self.now }
        ensures held { numbers_hold result ≡ true }
        ensures chosen { 0 < self.now.lows.len → Chosen self.now result }
    {
        let Some(span) = self.span else {
            return Pick::level();
        };
        let slope = self.slope();
        let anchor = self.lows.highest(slope);
        let over = slope.1 as u32;
        let overs = (anchor.tick - span.first) / over;
        Pick {
            pivot: pivot(span.first, anchor.tick, over),
            height: height_before(anchor.height, slope.0, overs) as i32,
            rise: slope.0 as i32,
            over,
        }
    }
}
