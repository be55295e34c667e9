ghost use Rattle.std.specs.Prelude.{◌≡◌, pos, ◌≤ℤ◌, Some};
ghost use Rattle.family.specs.Bands.{low_of, high_of};
ghost use Rattle.family.specs.Readings.{reading};
ghost use Rattle.family.specs.Refusing.{Answered};
ghost use Rattle.family.specs.Meaning.{refusal, Next};
ghost use Rattle.coarse.specs.Grid.{Joined, coarse_meaning, number_of, first_step, last_step, on_grid};
ghost use Rattle.coarse.specs.Keeps.{coarse_laws};

use super::Coarse;
use family::{Band, Family, Span, check_tick, clear, is_above, read_pick, write_pick};
use words::{Kind, Reason, Refusal, Word};

// The first step whose number is not below `low`.
fn first_step(low: i32) -> i32
    requires { low ≤ℤ pos 1000000 }
    ensures { result ≡ first_step low }
{
    (low + 49).div_euclid(50)
}

// The last step whose number is not above `high`.
fn last_step(high: i32) -> i32
    ensures { result ≡ last_step high }
{
    high.div_euclid(50)
}

// The steps whose numbers lie in the band of a reading; refuses by 5, 1, 2, and by 3 where there are none.
fn read_steps(tick: u32, row: &[u32]) -> Result<Band, Refusal>
    ensures { Answered (refusal coarse_meaning (reading tick row.now)) result (λ b. (b.low ≤ℤ b.high) × (b.low ≡ first_step (low_of row.now)) × (b.high ≡ last_step (high_of row.now))) }
{
    check_tick(tick)?;
    let band = Band::read(row)?;
    let low = first_step(band.low);
    let high = last_step(band.high);
    if high < low {
        return Err(Refusal::new(Reason::NoChoice));
    }
    Ok(Band { low, high })
}

// Whether the number is a multiple of 50.
fn is_on_grid(number: i32) -> bool
    ensures { result ≡ on_grid number }
{
    number.unsigned_abs() % 50 == 0
}

impl Coarse {
    // Every step, and nothing taken.
    pub fn new() -> Coarse
        ensures { coarse_meaning.restarted result }
    {
        Coarse {
            allowed: Band {
                low: -20_000,
                high: 20_000,
            },
            last: None,
        }
    }

    // The state with steps taken at a tick: none where the tick is not above the last one taken or no allowed step is among them.
    fn joined(&self, tick: u32, steps: Band) -> Option<Coarse>
        ensures { Joined self.now tick steps result }
    {
        if !is_above(self.last, tick) {
            return None;
        }
        let allowed = self.allowed.shared(steps)?;
        Some(Coarse {
            allowed,
            last: Some(tick),
        })
    }

    // The state after taking the reading: none where it does not fit.
    fn next(&self, tick: u32, row: &[u32]) -> Result<Option<Coarse>, Refusal>
        ensures { Answered (refusal coarse_meaning (reading tick row.now)) result (Next coarse_meaning self.now (reading tick row.now)) }
    {
        let steps = read_steps(tick, row)?;
        Ok(self.joined(tick, steps))
    }

    // The number picked: the lowest allowed.
    fn lowest(&self) -> i32
        ensures { result ≡ number_of self.now.allowed.low }
    {
        self.allowed.low * 50
    }
}

impl Family for Coarse {
    ghost meaning = { coarse_meaning };

    ghost laws = { coarse_laws };

    fn row_width() -> u16 {
        2
    }

    fn pick_width() -> u16 {
        1
    }

    fn value_width() -> u16 {
        1
    }

    fn scan(_tick: u32, row: &[u32]) -> Result<(), Refusal> {
        let _ = Band::read(row)?;
        Ok(())
    }

    fn restart(&mut self) {
        *self = Coarse::new();
    }

    fn fits(&self, tick: u32, row: &[u32]) -> Result<bool, Refusal> {
        let next = self.next(tick, row)?;
        Ok(next.is_some())
    }

    fn take(&mut self, tick: u32, row: &[u32]) -> Result<(), Refusal> {
        *self = self
            .next(tick, row)?
            .ok_or(Refusal::new(Reason::Unfitting))?;
        Ok(())
    }

    fn pick(&self, slot: &mut [u32]) -> Result<(), Refusal> {
        write_pick(slot, Word::new(Kind::Level, self.lowest()).unwrap())
    }

    fn check(words: &[u32], _span: Span) -> Result<(), Refusal> {
        if is_on_grid(read_pick(Kind::Level, words)?) {
            Ok(())
        } else {
            Err(Refusal::new(Reason::Unlawful))
        }
    }

    fn value(words: &[u32], span: Span, tick: u32, row: &mut [u32]) -> Result<(), Refusal> {
        clear(row);
        Self::check_value(words, span, tick, row.len())?;
        row[0] = words[0];
        Ok(())
    }
}
