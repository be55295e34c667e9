// The desk at which a script is answered: one tape at a time, open or closed, with its family and its store, and the answer
// to each command.
#![tactic(auto)]

mod answer;
mod calls;
mod desk;
mod held;
mod problem;
mod recording;
mod replies;
mod running;
mod store;
mod tape;

pub use answer::Answer;
pub use desk::Desk;
pub use problem::Problem;
pub use replies::transcript;
