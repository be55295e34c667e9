// Where the words of a tape stand in a store, and how its records are read. The recorder and the reader of closed tapes
// both stand on it; it knows no family by name.
//
// `tape_word`, `places` and `place_at` say what begins a tape and where records stand, `Record` is one record by its words,
// and `Records` are those of a tape.
#![tactic(auto)]

mod record;
mod records;
mod room;

pub use record::{Record, word_at};
pub use records::Records;
pub use room::{place_at, places, tape_word};
