// Reads the parts of a script's lines: numbers in decimal, words in hexadecimal, and the items that make up a row.
#![tactic(auto)]

mod digits;
mod items;
mod slip;
mod texts;

pub use digits::{number, word};
pub use items::Item;
pub use slip::Slip;
