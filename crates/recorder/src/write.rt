ghost use Rattle.std.specs.Prelude.{◌≡◌, ◌+◌, ◌-◌, ◌<◌, ◌≤◌, true, length, pos, Ok, slice_set};
ghost use Rattle.words.specs.Kinds.{in_range};
ghost use Rattle.words.specs.Words.{word_of};
ghost use Rattle.layout.specs.Layout.{first_word, count_word, with_record, opened_store};

use super::tape::OpenTape;
use family::{Family, Span};
use layout::{place_at, tape_word};
use words::{Kind, Refusal, Word};

// The word of a kind that holds a number from 0 on. It asks for a number in range, so it is no call for buyers.
fn word(kind: Kind, number: u32) -> u32
    requires held { in_range kind (pos number) ≡ true }
    requires small { number ≤ 268435455 }
    ensures { result ≡ word_of kind (pos number) }
{
    u32::from(Word::new(kind, number as i32).unwrap())
}

// BATCH or START, by whether the record begins a batch.
fn first_word(batch: bool, tick: u32) -> u32
    requires { tick ≤ 268435455 }
    ensures { result ≡ first_word batch tick }
{
    if batch {
        word(Kind::Batch, tick)
    } else {
        word(Kind::Start, tick)
    }
}

// Writes the header where there is room for it.
pub(crate) fn write_header(store: &mut [u32], width: u16)
    ensures { store.new ≡ opened_store width store.old }
{
    if store.len() >= 2 {
        store[0] = tape_word(width);
        store[1] = word(Kind::Count, 0);
    }
}

// Sets COUNT to the records written.
fn write_count(store: &mut [u32], count: u32)
    requires room { 1 < length store.old }
    requires few { count ≤ 1000000 }
    ensures { store.new ≡ slice_set store.old 1 (count_word count) }
{
    store[1] = word(Kind::Count, count);
}

impl OpenTape {
    // Writes the open run as the next record: the family picks its words into the middle of the store, and COUNT counts it.
    pub(crate) fn write_run<F: Family>(
        &self,
        family: &F,
        store: &mut [u32],
        run: Span,
        batch: bool,
    ) -> Result<(), Refusal>
        requires room { self.now.written < self.now.places }
        requires long { length store.old ≡ self.now.length }
        requires wide { self.now.width ≡ F.Family.meaning.pick_width }
        requires first { run.first ≤ 268435455 }
        requires last { run.last ≤ 268435455 }
        ensures answer { result ≡ Ok tt }
        ensures words { store.new ≡ with_record self.now.width self.now.written run.first run.last batch (F.Family.meaning.words family.now) store.old }
    {
        let at = place_at(self.width, self.written);
        let end = at + 2 + self.width as usize;
        family.pick(&mut store[at + 2..end])?;
        store[at] = first_word(batch, run.first);
        store[at + 1] = word(Kind::End, run.last);
        write_count(store, self.written + 1);
        Ok(())
    }
}
