// The level family: each segment is one level, a whole number from -1,000,000 to 1,000,000, that lies in every band of its
// run. A row is LOW, HIGH; a pick and a value row are one LEVEL word.
#![tactic(auto)]

mod calls;
mod level;

pub use level::Level;
