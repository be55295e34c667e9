ghost use Rattle.std.specs.Prelude.{◌≡◌, ◌<◌, IfOk};
ghost use Rattle.layout.specs.Layout.{place_at, record_at};
ghost use Rattle.layout.specs.Records.{find, Found};

use super::record::Record;
use super::room::place_at;
use family::Family;
use words::{Reason, Refusal};

// The records of a tape in a store: `count` of them, whose picks have the width.
#[derive(Clone, Copy)]
pub struct Records<'a> {
    pub store: &'a [u32],
    pub width: u16,
    pub count: u32,
}

impl<'a> Records<'a> {
    // The index of a record's first word.
    pub fn place_at(&self, index: u32) -> usize
        ensures { result ≡ place_at self.now.width index }
    {
        place_at(self.width, index)
    }

    // The record of an index: what the store has of its words.
    pub fn at(&self, index: u32) -> Record<'a>
        ensures { result.words.now ≡ record_at self.now.width self.now.store.now index }
    {
        let at = self.place_at(index).min(self.store.len());
        let end = (at + (self.width as usize + 2)).min(self.store.len());
        Record {
            words: &self.store[at..end],
        }
    }

    // The first of the records that spans the tick. They are read in order; one that is unlawful is refused by 11 at its
    // place, and 7 says that none spans it.
    pub fn find<F: Family>(&self, tick: u32) -> Result<u32, Refusal>
        ensures is { result ≡ find F.Family.meaning self.now.width self.now.store.now tick self.now.count 0 }
        ensures found { IfOk result (λ i. (i < self.now.count) × Found F.Family.meaning self.now.width self.now.store.now tick i) }
    {
        for index in 0..self.count {
            let record = self.at(index);
            if !record.is_lawful::<F>() {
                return Err(Refusal::at(Reason::Unlawful, self.place_at(index)));
            }
            if record.spans(tick) {
                return Ok(index);
            }
        }
        Err(Refusal::new(Reason::NoSegment))
    }
}
