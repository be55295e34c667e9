ghost use Rattle.std.specs.Prelude.{◌≡◌, ◌&&◌, length, is_ok, None, Decides, ◌==◌, nat_le, nat_lt, slice_index};
ghost use Rattle.words.specs.declared.kind.Kind.TheVariants.{Count};
ghost use Rattle.words.specs.Words.{of_kind};
ghost use Rattle.family.specs.Refusing.{Passed};
ghost use Rattle.layout.specs.Layout.{places_of, tape_word};
ghost use Rattle.layout.specs.Records.{record_lawful};
ghost use Rattle.reader.specs.Tapes.{told_count, follows, records_fault, tape_fault, refuse_tape, LawfulTape};

use family::Family;
use layout::{Record, Records, places, tape_word, word_at};
use words::{Kind, Reason, Refusal, payload};

// The number of records that a tape's second word tells.
fn told_count(store: &[u32]) -> u32
    ensures { result ≡ told_count store.now }
{
    payload(word_at(store, 1))
}

// Whether the first word is TAPE with the width.
fn has_tape_word(store: &[u32], width: u16) -> bool
    ensures { result ≡ (nat_lt 0 (length store.now) && slice_index store.now 0 == tape_word width) }
{
    store.first() == Some(&tape_word(width))
}

// Whether the second word is COUNT, at most the places of the slice.
fn has_count(store: &[u32], width: u16) -> bool
    ensures { result ≡ (nat_lt 1 (length store.now) && (of_kind Count (slice_index store.now 1) && nat_le (told_count store.now) (places_of width (length store.now)))) }
{
    store.get(1).is_some_and(|word| Kind::Count.names(*word))
        && told_count(store) <= places(width, store.len())
}

// The records that a tape tells of, for the family.
pub(crate) fn told_records<'a, F: Family>(store: &'a [u32]) -> Records<'a>
    ensures store { result.store.now ≡ store.now }
    ensures width { result.width ≡ F.Family.meaning.pick_width }
    ensures count { result.count ≡ told_count store.now }
{
    Records {
        store,
        width: F::pick_width(),
        count: told_count(store),
    }
}

// Whether a record may stand after the END before it: the first one begins with BATCH, each other one after that tick.
fn is_after(before: Option<u32>, next: &Record<'_>) -> bool
    ensures { result ≡ follows before next.now.words.now }
{
    match before {
        None => next.begins_batch(),
        Some(last) => last < next.span().first,
    }
}

// Whether a record's words are lawful, and may stand after the END before it.
fn is_next<F: Family>(before: Option<u32>, next: &Record<'_>) -> bool
    ensures { result ≡ (follows before next.now.words.now && record_lawful F.Family.meaning next.now.words.now) }
{
    is_after(before, next) && next.is_lawful::<F>()
}

// The place of the first of the records that breaks a rule, if one does.
fn fault_in_records<F: Family>(records: &Records<'_>) -> Option<usize>
    ensures { result ≡ records_fault F.Family.meaning records.now.width records.now.store.now records.now.count 0 None }
{
    let mut before = None;
    for index in 0..records.count {
        let record = records.at(index);
        if !is_next::<F>(before, &record) {
            return Some(records.place_at(index));
        }
        before = Some(record.span().last);
    }
    None
}

// The lowest place at which the words break a rule of the tape, if they break one: the header's two words, then the
// records.
fn fault<F: Family>(store: &[u32]) -> Option<usize>
    ensures { result ≡ tape_fault F.Family.meaning store.now }
{
    let width = F::pick_width();
    if !has_tape_word(store, width) {
        return Some(0);
    }
    if !has_count(store, width) {
        return Some(1);
    }
    fault_in_records::<F>(&told_records::<F>(store))
}

// Whether the words are a lawful tape of the family: refuses by 11, at the lowest place that breaks a rule, words that are
// not, and nothing else.
pub fn check<F: Family>(store: &[u32]) -> Result<(), Refusal>
    ensures is { Passed (refuse_tape (tape_fault F.Family.meaning store.now)) result }
    ensures lawful { Decides (is_ok result) (LawfulTape F.Family.meaning store.now) }
{
    match fault::<F>(store) {
        None => Ok(()),
        Some(place) => Err(Refusal::at(Reason::Unlawful, place)),
    }
}
