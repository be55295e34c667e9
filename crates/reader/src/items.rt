ghost use Rattle.reader.specs.Items.{IsItem, CheckedItem, ItemRead};

use super::tape::{check, told_records};
use family::Family;
use layout::Records;
use words::{Reason, Refusal};

// A record of a tape: the index of its first word in the store, and its own words there.
#[derive(Clone, Copy)]
pub enum Item<'a> {
    // the first record of a batch
    BatchStart { place: usize, words: &'a [u32] },
    // a record that continues a batch
    Continuation { place: usize, words: &'a [u32] },
}

// The record of an index as an item: the start of a batch where its first word is BATCH, else a continuation.
fn item_of<'a>(records: &Records<'a>, index: u32) -> Item<'a>
    ensures { IsItem records.now.width records.now.store.now index result }
{
    let place = records.place_at(index);
    let record = records.at(index);
    let words = record.words;
    if record.begins_batch() {
        Item::BatchStart { place, words }
    } else {
        Item::Continuation { place, words }
    }
}

// The item of an index among the records; refuses by 7 an index that is not among them. It checks no word.
pub(crate) fn item_among<'a>(records: &Records<'a>, index: u32) -> Result<Item<'a>, Refusal>
    ensures { CheckedItem records.now.width records.now.store.now records.now.count index result }
{
    if index < records.count {
        Ok(item_of(records, index))
    } else {
        Err(Refusal::new(Reason::NoSegment))
    }
}

// Checks the words and gives the item of an index: refuses by 11 words that are no lawful tape, by 7 an index that is not
// below the number of records.
pub fn item_at<'a, F: Family>(store: &'a [u32], index: u32) -> Result<Item<'a>, Refusal>
    ensures { ItemRead F.Family.meaning store.now index result }
{
    check::<F>(store)?;
    item_among(&told_records::<F>(store), index)
}
