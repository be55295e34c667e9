ghost use Rattle.std.specs.Prelude.{pos, neg_ℤ, ◌≤ℤ◌};

use family::Band;

// A state of the level family: the levels of the band are still allowed, and `last` is the last tick taken.
#[derive(Clone, Copy)]
pub struct Level {
    pub(crate) allowed: Band,
    pub(crate) last: Option<u32>,
    ghost bottom: { neg_ℤ (pos 1000000) ≤ℤ allowed.low },
    ghost order: { allowed.low ≤ℤ allowed.high },
    ghost top: { allowed.high ≤ℤ pos 1000000 },
}
