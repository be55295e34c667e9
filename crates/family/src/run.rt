ghost use Rattle.std.specs.Prelude.{List};
ghost use Rattle.family.specs.Readings.{Reading, reading};
ghost use Rattle.family.specs.Meaning.{TakeAnswer};
ghost use Rattle.family.specs.Laws.{Ran};
ghost use Rattle.family.specs.Runs.{Extended};

use super::Family;
use words::Refusal;

// Offers a reading to the run that the state has taken since its restart. It is taken where one choice serves the whole run
// with it, so that each part of the run fits too; it is refused as by the family's own taking.
pub fn extend<F: Family>(family: &mut F, tick: u32, row: &[u32]) -> Result<(), Refusal>
    ensures taken { TakeAnswer F.Family.meaning family.old (reading tick row.now) result family.new }
    ensures run { (run : List Reading) → Ran F.Family.meaning family.old run → Extended F.Family.meaning run (reading tick row.now) result family.new }
{
    family.take(tick, row)
}
