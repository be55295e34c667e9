ghost use Rattle.std.specs.Prelude.{◌≡◌, pos, ◌+ℤ◌, ◌≤ℤ◌, Some};
ghost use Rattle.std.specs.Int.{int_div_euclid};
ghost use Rattle.family.specs.Readings.{reading};
ghost use Rattle.family.specs.Refusing.{Answered};
ghost use Rattle.family.specs.Meaning.{refusal, Next};
ghost use Rattle.level.specs.Levels.{Joined, level_meaning, middle};
ghost use Rattle.level.specs.Keeps.{level_laws};

use super::Level;
use family::{Band, Family, Span, clear, is_above, read_pick, write_pick};
use words::{Kind, Reason, Refusal, Word};

// Half of a sum, rounded down.
fn halved(sum: i32) -> i32
    ensures { result ≡ int_div_euclid sum (pos 2) }
{
    sum.div_euclid(2)
}

impl Level {
    // Every level, and nothing taken.
    pub fn new() -> Level
        ensures { level_meaning.restarted result }
    {
        Level {
            allowed: Band {
                low: -1_000_000,
                high: 1_000_000,
            },
            last: None,
        }
    }

    // The state with the levels of a band taken at a tick: none where the tick is not above the last one taken or no allowed
    // level is among them.
    fn joined(&self, tick: u32, band: Band) -> Option<Level>
        ensures { Joined self.now tick band result }
    {
        if !is_above(self.last, tick) {
            return None;
        }
        let allowed = self.allowed.shared(band)?;
        Some(Level {
            allowed,
            last: Some(tick),
        })
    }

    // The state after taking the reading: none where it does not fit.
    fn next(&self, tick: u32, row: &[u32]) -> Result<Option<Level>, Refusal>
        ensures { Answered (refusal level_meaning (reading tick row.now)) result (Next level_meaning self.now (reading tick row.now)) }
    {
        let band = Band::of_reading(tick, row)?;
        Ok(self.joined(tick, band))
    }

    // The level picked: the middle of those allowed, rounded down.
    fn middle(&self) -> i32
        ensures value { result ≡ middle self.now }
        ensures rounded { ((result +ℤ result) ≤ℤ (self.now.allowed.low +ℤ self.now.allowed.high)) × ((self.now.allowed.low +ℤ self.now.allowed.high) ≤ℤ ((result +ℤ result) +ℤ pos 1)) }
    {
        halved(self.allowed.low + self.allowed.high)
    }
}

impl Family for Level {
    ghost meaning = { level_meaning };

    ghost laws = { level_laws };

    fn row_width() -> u16 {
        2
    }

    fn pick_width() -> u16 {
        1
    }

    fn value_width() -> u16 {
        1
    }

    fn scan(_tick: u32, row: &[u32]) -> Result<(), Refusal> {
        let _ = Band::read(row)?;
        Ok(())
    }

    fn restart(&mut self) {
        *self = Level::new();
    }

    fn fits(&self, tick: u32, row: &[u32]) -> Result<bool, Refusal> {
        let next = self.next(tick, row)?;
        Ok(next.is_some())
    }

    fn take(&mut self, tick: u32, row: &[u32]) -> Result<(), Refusal> {
        *self = self
            .next(tick, row)?
            .ok_or(Refusal::new(Reason::Unfitting))?;
        Ok(())
    }

    fn pick(&self, slot: &mut [u32]) -> Result<(), Refusal> {
        write_pick(slot, Word::new(Kind::Level, self.middle()).unwrap())
    }

    fn check(words: &[u32], _span: Span) -> Result<(), Refusal> {
        let _ = read_pick(Kind::Level, words)?;
        Ok(())
    }

    fn value(words: &[u32], span: Span, tick: u32, row: &mut [u32]) -> Result<(), Refusal> {
        clear(row);
        Self::check_value(words, span, tick, row.len())?;
        row[0] = words[0];
        Ok(())
    }
}
