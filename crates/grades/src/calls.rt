ghost use Rattle.std.specs.Prelude.{◌≡◌, ℕ, ◌<◌, ◌≤◌, length, Some};
ghost use Rattle.std.specs.Int.Count.{count_trailing_zeros};
ghost use Rattle.family.specs.Readings.{reading};
ghost use Rattle.family.specs.Refusing.{Answered, row_refusal};
ghost use Rattle.family.specs.Meaning.{refusal, Next};
ghost use Rattle.grades.specs.Bit.{bit};
ghost use Rattle.grades.specs.GradeMasks.{Joined, grades_meaning, mask_wrong, mask_of, lowest};
ghost use Rattle.grades.specs.Keeps.{grades_laws};

use super::Grades;
use family::{
    Family, Span, check_length, check_tick, clear, is_above, read_pick, read_word, write_pick,
};
use words::{Kind, Reason, Refusal, Word};

// All 28 grades.
const ALL: u32 = 268_435_455;

// The mask of a row; refuses by 1 a row of another length than 1, and by 2 a word that is no MASK.
fn mask_of(row: &[u32]) -> Result<u32, Refusal>
    ensures { Answered (row_refusal 1 (length row.now) (mask_wrong row.now)) result (λ m. m ≡ mask_of row.now) }
{
    check_length(1, row.len(), Reason::RowLength)?;
    let mask = read_word(Kind::Mask, row[0], 0)?;
    Ok(mask as u32)
}

// The mask of a reading; refuses by 5, 1, 2, and by 3 the empty mask.
fn read_mask(tick: u32, row: &[u32]) -> Result<u32, Refusal>
    ensures { Answered (refusal grades_meaning (reading tick row.now)) result (λ m. m ≡ mask_of row.now) }
{
    check_tick(tick)?;
    let mask = mask_of(row)?;
    if mask == 0 {
        return Err(Refusal::new(Reason::NoChoice));
    }
    Ok(mask)
}

// The place of a mask's lowest set bit: its trailing zeros.
fn lowest_bit(mask: u32) -> u32
    ensures { result ≡ count_trailing_zeros 32 mask }
{
    mask.trailing_zeros()
}

impl Grades {
    // Every grade, and nothing taken.
    pub fn new() -> Grades
        ensures { grades_meaning.restarted result }
    {
        Grades {
            mask: ALL,
            last: None,
        }
    }

    // The state with the grades of a mask taken at a tick: none where the tick is not above the last one taken or no allowed
    // grade is among them.
    fn joined(&self, tick: u32, mask: u32) -> Option<Grades>
        ensures { Joined self.now tick mask result }
    {
        if !is_above(self.last, tick) || self.mask & mask == 0 {
            return None;
        }
        Some(Grades {
            mask: self.mask & mask,
            last: Some(tick),
        })
    }

    // The state after taking the reading: none where it does not fit.
    fn next(&self, tick: u32, row: &[u32]) -> Result<Option<Grades>, Refusal>
        ensures { Answered (refusal grades_meaning (reading tick row.now)) result (Next grades_meaning self.now (reading tick row.now)) }
    {
        let mask = read_mask(tick, row)?;
        Ok(self.joined(tick, mask))
    }

    // The lowest-numbered grade still allowed.
    fn lowest(&self) -> u32
        ensures value { result ≡ lowest self.now }
        ensures small { result < 28 }
        ensures allowed { bit result self.now.mask ≡ 1 }
        ensures least { (g : ℕ) → bit g self.now.mask ≡ 1 → result ≤ g }
    {
        lowest_bit(self.mask)
    }
}

impl Family for Grades {
    ghost meaning = { grades_meaning };

    ghost laws = { grades_laws };

    fn row_width() -> u16 {
        1
    }

    fn pick_width() -> u16 {
        1
    }

    fn value_width() -> u16 {
        1
    }

    fn scan(_tick: u32, row: &[u32]) -> Result<(), Refusal> {
        let _ = mask_of(row)?;
        Ok(())
    }

    fn restart(&mut self) {
        *self = Grades::new();
    }

    fn fits(&self, tick: u32, row: &[u32]) -> Result<bool, Refusal> {
        let next = self.next(tick, row)?;
        Ok(next.is_some())
    }

    fn take(&mut self, tick: u32, row: &[u32]) -> Result<(), Refusal> {
        *self = self
            .next(tick, row)?
            .ok_or(Refusal::new(Reason::Unfitting))?;
        Ok(())
    }

    fn pick(&self, slot: &mut [u32]) -> Result<(), Refusal> {
        write_pick(slot, Word::new(Kind::Grade, self.lowest() as i32).unwrap())
    }

    fn check(words: &[u32], _span: Span) -> Result<(), Refusal> {
        let _ = read_pick(Kind::Grade, words)?;
        Ok(())
    }

    fn value(words: &[u32], span: Span, tick: u32, row: &mut [u32]) -> Result<(), Refusal> {
        clear(row);
        Self::check_value(words, span, tick, row.len())?;
        row[0] = words[0];
        Ok(())
    }
}
