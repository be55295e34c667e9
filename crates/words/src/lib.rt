// The ground of the part: the 32-bit word of rows and tapes, and the refusal that every call answers with.
//
// A word's top four bits are its kind and its low 28 bits its payload. `Kind` names the kinds, `Word` is a word of a
// known kind that is in range, and `Reason` and `Refusal` say why a call was refused and where.
#![tactic(auto)]

mod coding;
mod kind;
mod refusal;
mod tick;
mod word;

pub use coding::payload;
pub use kind::{Kind, NotAWord};
pub use refusal::{Reason, Refusal};
pub use tick::{TOP_TICK, is_tick};
pub use word::Word;
