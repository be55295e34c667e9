ghost use Rattle.std.specs.Prelude.{◌≡◌};
ghost use Rattle.family.specs.Refusing.{Passed, span_refusal, spans};

use words::{Reason, Refusal};

// The ticks from a first to a last: of a run, a record or a segment. The last may be before the first, and then there are none.
#[derive(Clone, Copy, PartialEq, Eq, Debug)]
pub struct Span {
    pub first: u32,
    pub last: u32,
}

impl Span {
    // The ticks from the first to the last.
    pub fn new(first: u32, last: u32) -> Span
        ensures first { result.first ≡ first }
        ensures last { result.last ≡ last }
    {
        Span { first, last }
    }

    // Whether the tick is from the first to the last.
    pub fn holds(self, tick: u32) -> bool
        ensures { result ≡ spans self.first self.last tick }
    {
        self.first <= tick && tick <= self.last
    }

    // Refuses by 7 a tick that is not from the first to the last.
    pub fn check(self, tick: u32) -> Result<(), Refusal>
        ensures { Passed (span_refusal self.first self.last tick) result }
    {
        if self.holds(tick) {
            Ok(())
        } else {
            Err(Refusal::new(Reason::NoSegment))
        }
    }
}
