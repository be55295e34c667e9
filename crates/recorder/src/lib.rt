// The recorder: an open tape and its calls (open, record, mark, ask, close), and the law that holds of every history of
// them, whatever the family.
//
// The open tape holds plain numbers; the family's state and the store are lent for each call. It must be spent by closing.
#![tactic(auto)]

mod ask;
mod calls;
mod step;
mod tape;
mod write;

pub use calls::law;
pub use tape::{ClosedTape, OpenTape, Phase};
