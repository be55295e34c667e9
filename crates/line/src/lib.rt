// The line family: each segment is a straight line of any rational slope, and a run goes on as long as any line at all passes
// through every band. Whole numbers throughout; nothing is rounded but a value, down.
//
// `line` is the state, with what its numbers keep; `state` takes readings in; `choose` picks; `pick` is a pick's four words, its
// lawfulness and its values; `calls` is the trait's calls over them. Slopes and hulls stand in crates of their own.
#![tactic(auto)]

mod calls;
mod choose;
mod line;
mod pick;
mod state;
mod step;
mod taken;

pub use line::Line;
pub use pick::Pick;
