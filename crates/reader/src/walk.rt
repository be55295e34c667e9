ghost use Rattle.std.specs.Prelude.{◌≡◌, length};
ghost use Rattle.family.specs.Refusing.{Passed};
ghost use Rattle.reader.specs.Reads.{AnswersRow, row_tick_refusal};
ghost use Rattle.reader.specs.Spans.{find_span, record_value, span_value, located};

use family::{Family, check_length, check_tick, clear};
use layout::{Record, Records};
use words::{Reason, Refusal};

// The first of the records whose two ticks span the tick. It looks at ticks alone; refuses by 7 where none spans it.
pub(crate) fn find_span(records: &Records<'_>, tick: u32) -> Result<u32, Refusal>
    ensures { result ≡ find_span records.now.width records.now.store.now tick records.now.count 0 }
{
    (0..records.count)
        .find(|index| records.at(*index).spans(tick))
        .ok_or(Refusal::new(Reason::NoSegment))
}

// Reads the value at the tick from a record's words; refuses by 9, 5, 11, 7. A refusal leaves every word of the row 0.
fn read_record<F: Family>(from: &Record<'_>, tick: u32, row: &mut [u32]) -> Result<(), Refusal>
    ensures { AnswersRow (record_value F.Family.meaning from.now.words.now tick (length row.old)) row.old result row.new }
{
    F::value(from.pick(), from.span(), tick, row)
}

// Reads the value at the tick from the record that was found, or passes its refusal on. A refusal leaves every word of
// the row 0.
pub fn read_found<F: Family>(
    records: &Records<'_>,
    found: Result<u32, Refusal>,
    tick: u32,
    row: &mut [u32],
) -> Result<(), Refusal>
    ensures { AnswersRow (span_value F.Family.meaning records.now.width records.now.store.now tick (length row.old) found) row.old result row.new }
{
    match found {
        Ok(index) => read_record::<F>(&records.at(index), tick, row),
        Err(refusal) => {
            clear(row);
            Err(refusal)
        }
    }
}

// Refuses by 9 a row of a wrong length, by 5 a tick that is out of range.
pub fn check_request<F: Family>(len: usize, tick: u32) -> Result<(), Refusal>
    ensures { Passed (row_tick_refusal F.Family.meaning len tick) result }
{
    check_length(F::value_width(), len, Reason::WordsLength)?;
    check_tick(tick)
}

// The record of a checked tape that answers for the tick into a row of `len` words; refuses by 9, 5, 7.
pub(crate) fn locate<F: Family>(
    records: &Records<'_>,
    tick: u32,
    len: usize,
) -> Result<u32, Refusal>
    ensures { result ≡ located F.Family.meaning records.now.width records.now.store.now records.now.count tick len }
{
    check_request::<F>(len, tick)?;
    find_span(records, tick)
}
