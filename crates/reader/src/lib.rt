// The reader of closed tapes, over words that the host lends for reading. It takes any slice of words at all and knows no
// family by name.
//
// `check` says whether the words are a lawful tape, and where not; `value` and `item_at` check and then read; a
// `CheckedTape` checks once and then reads as often as is wanted, with the same answers.
#![tactic(auto)]

mod checked;
mod items;
mod reading;
mod tape;
mod walk;

pub use checked::CheckedTape;
pub use items::{Item, item_at};
pub use reading::value;
pub use tape::check;
pub use walk::{check_request, read_found};
