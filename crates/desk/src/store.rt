ghost use Rattle.std.specs.Prelude.{◌≡◌, ◌-◌, ◌≤◌, ◌++◌, take, replicate, vec_len, vec_capacity, MatchResult, slice_set};

use super::{Answer, Problem};
use commands::Command;
use std::alloc::AllocError;

// Overwrites one word of the store, if it has one of this index.
fn poke(store: &mut [u32], index: usize, word: u32) -> Result<(), Problem>
    ensures { MatchResult result (λ _. store.new ≡ slice_set store.old index word) (λ _. store.new ≡ store.old) }
{
    if index >= store.len() {
        return Err(Problem::NoWord);
    }
    store[index] = word;
    Ok(())
}

// Lends the first `length` words, with zero words behind where the store was shorter. It keeps its room.
fn resize(store: &mut Vec<u32>, length: usize) -> Result<(), AllocError>
    ensures words { MatchResult result (λ _. store.new.items ≡ take length store.old.items ++ replicate (length - vec_len store.old) 0) (λ _. store.new.items ≡ store.old.items) }
    ensures room { vec_capacity store.old ≤ vec_capacity store.new }
{
    store.resize(length, 0)
}

// What the host does to the store of any tape. It keeps its room.
pub(crate) fn host(store: &mut Vec<u32>, command: Command) -> Result<Answer, Problem>
    ensures { vec_capacity store.old ≤ vec_capacity store.new }
{
    match command {
        Command::Poke { index, word } => {
            poke(store.as_mut_slice(), index as usize, word)?;
            Ok(Answer::Poked)
        }
        Command::Resize { length } => {
            resize(store, length as usize)?;
            Ok(Answer::Resized(length))
        }
        _ => Ok(Answer::Store(store.clone()?)),
    }
}
