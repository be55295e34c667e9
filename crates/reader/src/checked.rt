ghost use Rattle.std.specs.Prelude.{◌≡◌, is_ok, IfOk, Decides};
ghost use Rattle.family.specs.Refusing.{Answered};
ghost use Rattle.reader.specs.Tapes.{tape_fault, refuse_tape, LawfulTape};
ghost use Rattle.reader.specs.Reads.{ValueRead};
ghost use Rattle.reader.specs.Spans.{Opened, CheckedRead};
ghost use Rattle.reader.specs.Items.{CheckedItem, SameItem, SameItems};

use super::Item;
use super::items::item_among;
use super::tape::{check, told_records};
use super::walk::{locate, read_found};
use family::Family;
use layout::Records;
use words::Refusal;

// A tape that was checked once and is then read without checking it again: its records, by its words, the width of its picks
// and their number. It borrows the words, which so stay as they were checked. Read for the family that it was opened for, it
// gives the answers of `value` and `item_at`; of another family's `value` the first clause tells.
#[derive(Clone, Copy)]
pub struct CheckedTape<'a> {
    records: Records<'a>,
}

impl<'a> CheckedTape<'a> {
    // Checks the words; refuses exactly as `check` does.
    pub fn open<F: Family>(store: &'a [u32]) -> Result<CheckedTape<'a>, Refusal>
        ensures is { Answered (refuse_tape (tape_fault F.Family.meaning store.now)) result (λ t. t.records.store.now ≡ store.now) }
        ensures opened { IfOk result (λ t. Opened F.Family.meaning t.records.store.now t.records.width t.records.count) }
        ensures lawful { Decides (is_ok result) (LawfulTape F.Family.meaning store.now) }
        ensures items { IfOk result (λ t. SameItems F.Family.meaning t.records.width t.records.store.now t.records.count) }
    {
        check::<F>(store)?;
        Ok(CheckedTape {
            records: told_records::<F>(store),
        })
    }

    // The number of records.
    pub fn count(&self) -> u32
        ensures { result ≡ self.now.records.count }
    {
        self.records.count
    }

    // The item of an index, found at once; refuses by 7 an index that is not below the number of records.
    pub fn item_at(&self, index: u32) -> Result<Item<'a>, Refusal>
        ensures is { CheckedItem self.now.records.width self.now.records.store.now self.now.records.count index result }
        ensures same { SameItem self.now.records.width self.now.records.store.now self.now.records.count index result }
    {
        item_among(&self.records, index)
    }

    // Reads the value at the tick into the row. Refuses by 9 a row of a wrong length, by 5 a tick out of range, by 7 a tick
    // that no record spans, and then as the family's own call does. A refusal leaves every word of the row 0.
    pub fn value<F: Family>(&self, tick: u32, row: &mut [u32]) -> Result<(), Refusal>
        ensures is { CheckedRead F.Family.meaning self.now.records.width self.now.records.store.now self.now.records.count tick row.old result row.new }
        ensures same { Opened F.Family.meaning self.now.records.store.now self.now.records.width self.now.records.count → ValueRead F.Family.meaning self.now.records.store.now tick row.old result row.new }
    {
        let found = locate::<F>(&self.records, tick, row.len());
        read_found::<F>(&self.records, found, tick, row)
    }
}
