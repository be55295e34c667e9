ghost use Rattle.std.specs.Prelude.{◌≡◌, length, ◌≤ℤ◌};
ghost use Rattle.family.specs.Bands.{band_wrong, band_refusal, low_of, high_of, Shared};
ghost use Rattle.family.specs.Refusing.{Answered, row_refusal};

use super::checks::{check_length, check_tick, read_word};
use words::{Kind, Reason, Refusal};

// What a row of LOW, HIGH says: the values from low to high are allowed. Low may stand above high, which allows none.
#[derive(Clone, Copy)]
pub struct Band {
    pub low: i32,
    pub high: i32,
}

impl Band {
    // Reads the row; refuses by 1 a row of another length than 2, and by 2 the first word that is no LOW or HIGH.
    pub fn read(row: &[u32]) -> Result<Band, Refusal>
        ensures { Answered (row_refusal 2 (length row.now) (band_wrong row.now)) result (λ b. (b.low ≡ low_of row.now) × (b.high ≡ high_of row.now)) }
    {
        check_length(2, row.len(), Reason::RowLength)?;
        let low = read_word(Kind::Low, row[0], 0)?;
        let high = read_word(Kind::High, row[1], 1)?;
        Ok(Band { low, high })
    }

    // The band of a reading; refuses by 5, 1, 2, and by 3 where low is above high.
    pub fn of_reading(tick: u32, row: &[u32]) -> Result<Band, Refusal>
        ensures { Answered (band_refusal tick row.now) result (λ b. (b.low ≤ℤ b.high) × (b.low ≡ low_of row.now) × (b.high ≡ high_of row.now)) }
    {
        check_tick(tick)?;
        let band = Band::read(row)?;
        if band.high < band.low {
            return Err(Refusal::new(Reason::NoChoice));
        }
        Ok(band)
    }

    // The values that both bands allow; none, where there are none.
    pub fn shared(self, other: Band) -> Option<Band>
        ensures { Shared self other result }
    {
        let low = self.low.max(other.low);
        let high = self.high.min(other.high);
        if low <= high {
            Some(Band { low, high })
        } else {
            None
        }
    }
}
