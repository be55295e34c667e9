ghost use Rattle.std.specs.Prelude.{◌≡◌};
ghost use Rattle.reader.specs.Reads.{ValueRead};
ghost use Rattle.reader.specs.Spans.{located_in};

use super::tape::{check, told_records};
use super::walk::{check_request, find_span, read_found};
use family::Family;
use words::Refusal;

// The record of the words that answers for the tick into a row of `len` words; refuses by 9, 5, 11, 7.
fn locate_in<F: Family>(store: &[u32], tick: u32, len: usize) -> Result<u32, Refusal>
    ensures { result ≡ located_in F.Family.meaning store.now tick len }
{
    check_request::<F>(len, tick)?;
    check::<F>(store)?;
    find_span(&told_records::<F>(store), tick)
}

// Checks the words and reads the value at the tick into the row. Refuses by 9 a row of a wrong length, by 5 a tick out of
// range, by 11 words that are no lawful tape, by 7 a tick that no record spans. A refusal leaves every word of the row 0.
pub fn value<F: Family>(store: &[u32], tick: u32, row: &mut [u32]) -> Result<(), Refusal>
    ensures { ValueRead F.Family.meaning store.now tick row.old result row.new }
{
    let found = locate_in::<F>(store, tick, row.len());
    read_found::<F>(&told_records::<F>(store), found, tick, row)
}
