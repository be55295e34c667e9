// The grades family: each segment is one grade, 0 to 27, whose bit is set in every mask of its run. A row is one MASK word;
// a pick and a value row are one GRADE word.
#![tactic(auto)]

mod calls;
mod grades;

pub use grades::Grades;
