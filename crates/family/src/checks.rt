ghost use Rattle.std.specs.Prelude.{◌≡◌, length, replicate, Decides};
ghost use Rattle.words.specs.Words.{is_a, number_in};
ghost use Rattle.family.specs.Readings.{Above};
ghost use Rattle.family.specs.Refusing.{Answered, Passed, refuse_unless, refuse_word, right, tick_refusal, place_unless};

use words::{Kind, Reason, Refusal, is_tick};

// Refuses by 5 a tick that is out of range.
pub fn check_tick(tick: u32) -> Result<(), Refusal>
    ensures { Passed (tick_refusal tick) result }
{
    if is_tick(tick) {
        Ok(())
    } else {
        Err(Refusal::new(Reason::BadTick))
    }
}

// Refuses for the reason, 1 or 9, words that are not as many as the width; the width 65,535 is always wrong.
pub fn check_length(width: u16, len: usize, reason: Reason) -> Result<(), Refusal>
    ensures { Passed (refuse_unless (right width len) reason) result }
{
    if width < 65_535 && len == width as usize {
        Ok(())
    } else {
        Err(Refusal::new(reason))
    }
}

// The number that a word of the kind holds; refuses by 2, at the place, a word of another kind or out of range.
pub fn read_word(kind: Kind, word: u32, place: usize) -> Result<i32, Refusal>
    ensures { Answered (refuse_word (place_unless (is_a kind word) place)) result (λ n. n ≡ number_in kind word) }
{
    kind.read(word).ok_or(Refusal::at(Reason::BadWord, place))
}

// Whether the tick is above the last one taken, if any was.
pub fn is_above(last: Option<u32>, tick: u32) -> bool
    ensures { Decides result (Above last tick) }
{
    last.is_none_or(|before| before < tick)
}

// Makes every word of an answer row 0.
pub fn clear(row: &mut [u32])
    ensures { row.new ≡ replicate (length row.old) 0 }
{
    row.fill(0);
}
