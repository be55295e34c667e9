// What a family of curves is: the trait that ours and a buyer's are written against, with its meaning and its laws.
//
// A family has choices (curves), and a state of it is what it still allows after the readings it took. The trait's ghost
// member `meaning` says all of that; its calls are equated with the meaning, refusals included; and its law `laws` is what
// every family owes and generic code may use. `checks`, `span`, `band` and `pick` are the small tests and types that families
// share, `run` is what holds of runs for all families together.
#![tactic(auto)]

mod band;
mod checks;
mod family;
mod pick;
mod run;
mod span;

pub use band::Band;
pub use checks::{check_length, check_tick, clear, is_above, read_word};
pub use family::Family;
pub use pick::{read_pick, write_pick};
pub use run::extend;
pub use span::Span;
