ghost use Rattle.std.specs.Prelude.{◌≡◌};
ghost use Rattle.reader.specs.Tapes.{tape_fault, refuse_tape, told_count};
ghost use Rattle.desk.specs.Told.{segments_told, mark_told, check_told};

use super::recording::Recording;
use super::{Answer, Problem};
use commands::Command;
use family::Family;
use reader::{CheckedTape, Item, item_at, value};
use std::alloc::{AllocError, Global};
use words::Refusal;

// An answer row as it is before the call: every word of it FFFFFFFF. Without a width it has the family's own.
fn blank_row<F: Family>(heap: Global, width: Option<u32>) -> Result<Vec<u32>, AllocError> {
    let width = width.unwrap_or_else(|| u32::from(F::value_width()));
    Vec::from_elem(heap, 0xFFFF_FFFF, width as usize)
}

// What is told of a value that was asked for.
fn told_row(told: Result<(), Refusal>, row: Vec<u32>) -> Answer {
    match told {
        Ok(()) => Answer::Value(row),
        Err(refusal) => Answer::RefusedRow(refusal, row),
    }
}

fn told_segments(told: Result<u32, Refusal>) -> Answer
    ensures { result ≡ segments_told told }
{
    told.map_or_else(Answer::Refused, Answer::Segments)
}

fn told_mark(told: Result<(), Refusal>) -> Answer
    ensures { result ≡ mark_told told }
{
    told.map_or_else(Answer::Refused, |()| Answer::Marked)
}

fn told_item(heap: Global, item: Item<'_>) -> Result<Answer, Problem> {
    match item {
        Item::BatchStart { place, words } => Ok(Answer::Batch(place, words.to_vec(heap)?)),
        Item::Continuation { place, words } => Ok(Answer::Continuation(place, words.to_vec(heap)?)),
    }
}

// Whether the store is a lawful tape, and of how many records.
fn checked<F: Family>(store: &[u32]) -> Answer
    ensures { result ≡ check_told (refuse_tape (tape_fault F.Family.meaning store.now)) (told_count store.now) }
{
    CheckedTape::open::<F>(store).map_or_else(Answer::Refused, |tape| Answer::Lawful(tape.count()))
}

// The calls on a tape that stays open.
pub(crate) fn serve_open<F: Family>(
    heap: Global,
    family: &mut F,
    recording: &mut Recording,
    command: Command,
) -> Result<Answer, Problem> {
    match command {
        Command::Record { tick, row } => Ok(told_segments(recording.record(
            family,
            tick,
            row.as_slice(),
        ))),
        Command::Mark => Ok(told_mark(recording.mark(family))),
        Command::Ask { tick, width } => {
            let mut row = blank_row::<F>(heap, width)?;
            let told = recording.ask(family, tick, row.as_mut_slice());
            Ok(told_row(told, row))
        }
        _ => Err(Problem::IsOpen),
    }
}

// The calls on a closed tape.
pub(crate) fn serve_closed<F: Family>(
    heap: Global,
    store: &[u32],
    command: Command,
) -> Result<Answer, Problem> {
    match command {
        Command::Value { tick, width } => {
            let mut row = blank_row::<F>(heap, width)?;
            let told = value::<F>(store, tick, row.as_mut_slice());
            Ok(told_row(told, row))
        }
        Command::ItemAt { index } => item_at::<F>(store, index).map_or_else(
            |refusal| Ok(Answer::Refused(refusal)),
            |item| told_item(heap, item),
        ),
        Command::Check => Ok(checked::<F>(store)),
        _ => Err(Problem::IsClosed),
    }
}
