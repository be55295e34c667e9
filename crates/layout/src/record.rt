ghost use Rattle.std.specs.Prelude.{◌≡◌, ◌≤◌, true, length, slice_index};
ghost use Rattle.words.specs.declared.kind.Kind.TheVariants.{Batch};
ghost use Rattle.words.specs.Words.{of_kind};
ghost use Rattle.layout.specs.Layout.{first_in, last_in, pick_in};
ghost use Rattle.layout.specs.Records.{framed, record_lawful, record_spans};

use family::{Family, Span};
use words::{Kind, payload};

// The word at an index, and 0 past the end.
pub fn word_at(words: &[u32], index: usize) -> u32
    ensures { result ≡ slice_index words.now index }
{
    words.get(index).copied().unwrap_or(0)
}

// A record of a tape, by its words as they stand in a store: fewer than a record has, where the store ends before it.
#[derive(Clone, Copy)]
pub struct Record<'a> {
    pub words: &'a [u32],
}

impl<'a> Record<'a> {
    // Whether it begins a batch: its first word is BATCH.
    pub fn begins_batch(&self) -> bool
        ensures { result ≡ of_kind Batch (slice_index self.now.words.now 0) }
    {
        Kind::Batch.names(word_at(self.words, 0))
    }

    // Its first and its last tick.
    pub fn span(&self) -> Span
        ensures first { result.first ≡ first_in self.now.words.now }
        ensures last { result.last ≡ last_in self.now.words.now }
    {
        Span {
            first: payload(word_at(self.words, 0)),
            last: payload(word_at(self.words, 1)),
        }
    }

    // Its pick's words.
    pub fn pick(&self) -> &'a [u32]
        ensures { result.now ≡ pick_in self.now.words.now }
    {
        &self.words[self.words.len().min(2)..]
    }

    // Whether it begins with BATCH or START and then END, which is not before the first tick.
    fn is_framed(&self) -> bool
        ensures { result ≡ framed self.now.words.now }
    {
        // Without this test the length is looked at again for each word, and a walk over records takes longer.
        if self.words.len() < 2 {
            return false;
        }
        let begins = self.begins_batch() || Kind::Start.names(word_at(self.words, 0));
        let span = self.span();
        begins && Kind::End.names(word_at(self.words, 1)) && span.first <= span.last
    }

    // Whether it is lawful by itself: its frame, and its pick for its two ticks.
    pub fn is_lawful<F: Family>(&self) -> bool
        ensures is { result ≡ record_lawful F.Family.meaning self.now.words.now }
        ensures long { result ≡ true → 2 ≤ length self.now.words.now }
    {
        self.is_framed() && F::check(self.pick(), self.span()).is_ok()
    }

    // Whether its two ticks span the tick.
    pub fn spans(&self, tick: u32) -> bool
        ensures { result ≡ record_spans self.now.words.now tick }
    {
        self.span().holds(tick)
    }
}
