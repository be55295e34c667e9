ghost use Rattle.std.specs.Prelude.{◌≡◌, ◌+◌, ◌-◌, ◌*◌, ◌≤◌, nat_lt, is_some, pos, ◌<ℤ◌};
ghost use Rattle.slope.specs.Slopes.{slope_of};
ghost use Rattle.line.specs.Sound.{Sound};
ghost use Rattle.line.specs.Spans.{first_of, last_of};

use crate::taken::Taken;
use hull::Hull;
use slope::Bounds;

// A state of the line family: what the readings taken since the restart still allow. `lows` is the upper hull of their low
// ends, `highs` the lower hull of their high ends, kept turned over; the allowed slopes are those between `bounds`; `span` has
// the first and the last tick taken, and is there where a reading was.
#[derive(Clone, Copy)]
pub struct Line {
    pub(crate) lows: Hull,
    pub(crate) highs: Hull,
    pub(crate) bounds: Bounds,
    pub(crate) span: Option<Taken>,
    ghost told: { is_some span ≡ nat_lt 0 lows.len },
    ghost room: { (lows.len ≤ last_of span + 1 - first_of span) × (highs.len ≤ last_of span + 1 - first_of span) × (highs.len ≤ 256 * lows.len) },
    ghost range: { last_of span ≤ 268435455 },
    ghost positive: { pos 0 <ℤ (slope_of bounds.least bounds.fall).1 },
    ghost sound: { ∥ Sound lows highs bounds.least bounds.fall (first_of span) (last_of span) ∥₁ },
}
