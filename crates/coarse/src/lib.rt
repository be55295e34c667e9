// The coarse family, as a buyer may write one of their own: each segment is one level on a coarse grid, a whole multiple of
// 50 from -1,000,000 to 1,000,000, that lies in every band of its run. A row is LOW, HIGH; a pick and a value row are one
// LEVEL word. It is written against the trait `Family` alone, and shares with the level family only what the crate `family`
// has for every buyer.
#![tactic(auto)]

mod calls;
mod coarse;

pub use coarse::Coarse;
