ghost use Rattle.std.specs.Prelude.{pos, neg_ℤ, ◌≤ℤ◌};

use family::Band;

// A state of the coarse family: the steps of the band are still allowed, and `last` is the last tick taken. A step stands for
// a level, 50 times the step.
#[derive(Clone, Copy)]
pub struct Coarse {
    pub(crate) allowed: Band,
    pub(crate) last: Option<u32>,
    ghost bottom: { neg_ℤ (pos 20000) ≤ℤ allowed.low },
    ghost order: { allowed.low ≤ℤ allowed.high },
    ghost top: { allowed.high ≤ℤ pos 20000 },
}
