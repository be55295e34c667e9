ghost use Rattle.std.specs.Prelude.{◌≡◌, length, replicate, Decides};
ghost use Rattle.family.specs.Readings.{reading};
ghost use Rattle.family.specs.Refusing.{Answered, Passed, Filled};
ghost use Rattle.family.specs.Meaning.{Meaning, Fits, TakeAnswer, refusal, scan_refusal, slot_refusal, words_refusal, value_refusal};
ghost use Rattle.family.specs.Laws.{Laws};

use super::Span;
use super::checks::{check_length, check_tick};
use words::{Reason, Refusal};

// A family of curves. A value of the implementing type is a state: what the family still allows after the readings taken
// since it was last restarted.
pub trait Family {
    // what the family means
    ghost meaning: { Meaning Self };

    // How many words a reading's row has. The three widths are at most 65,535, and 65,535 is the width of nothing.
    fn row_width() -> u16
        ensures { result ≡ meaning.row_width };

    // How many words a pick has.
    fn pick_width() -> u16
        ensures { result ≡ meaning.pick_width };

    // How many words a value row has.
    fn value_width() -> u16
        ensures { result ≡ meaning.value_width };

    // Looks a row over: refuses by 1 a wrong length, by 2 the first word of a wrong kind or range.
    fn scan(tick: u32, row: &[u32]) -> Result<(), Refusal>
        ensures { Passed (scan_refusal meaning (reading tick row.now)) result };

    // Allows every choice again.
    fn restart(&mut self)
        ensures { meaning.restarted self.new };

    // Whether the reading's tick is above the last one taken and some allowed choice serves it; refuses by 5, 1, 2, 3.
    fn fits(&self, tick: u32, row: &[u32]) -> Result<bool, Refusal>
        ensures { Answered (refusal meaning (reading tick row.now)) result (λ b. Decides b (Fits meaning self.now (reading tick row.now))) };

    // Takes a reading that fits; refuses by 5, 1, 2, 3, and by 4 one that does not fit. A refusal leaves the state as it was.
    fn take(&mut self, tick: u32, row: &[u32]) -> Result<(), Refusal>
        ensures { TakeAnswer meaning self.old (reading tick row.now) result self.new };

    // Writes the words of one allowed choice into the slot; refuses by 9 a slot of a wrong length, and leaves it alone.
    fn pick(&self, slot: &mut [u32]) -> Result<(), Refusal>
        ensures { Filled (slot_refusal meaning (length slot.old)) result slot.old (meaning.words self.now) slot.new };

    // Whether pick words are lawful for a run's first and last tick: refuses by 9 a wrong length, by 11 unlawful words.
    fn check(words: &[u32], span: Span) -> Result<(), Refusal>
        ensures { Passed (words_refusal meaning words.now span.first span.last) result };

    // Reads the value at a tick from pick words with the first and last tick of their run; refuses by 9, 5, 11, 7. A refusal leaves
    // every word of the row 0.
    fn value(words: &[u32], span: Span, tick: u32, row: &mut [u32]) -> Result<(), Refusal>
        ensures { Filled (value_refusal meaning words.now span.first span.last tick (length row.old)) result (replicate (length row.old) 0) (meaning.value words.now tick) row.new };

    // The checks of reading a value into a row of `len` words, in their order: 9, 5, 11, 7.
    fn check_value(words: &[u32], span: Span, tick: u32, len: usize) -> Result<(), Refusal>
        ensures { Passed (value_refusal meaning words.now span.first span.last tick len) result }
    {
        check_length(Self::value_width(), len, Reason::WordsLength)?;
        check_length(Self::pick_width(), words.len(), Reason::WordsLength)?;
        check_tick(tick)?;
        Self::check(words, span)?;
        span.check(tick)
    }

    // what every family keeps
    ghost laws: { Laws meaning };
}
