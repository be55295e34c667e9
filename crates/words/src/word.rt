ghost use Rattle.std.specs.Prelude.{◌≤ℤ◌};
ghost use Rattle.words.specs.Kinds.{least, most};

use super::Kind;

// A word of a known kind that is in range, by its kind and the number that it holds.
#[derive(Clone, Copy)]
pub struct Word {
    pub kind: Kind,
    pub number: i32,
    ghost low: { least kind ≤ℤ number },
    ghost high: { number ≤ℤ most kind },
}
