// Slopes in whole numbers. A slope is a pair of a rise and an over: it rises by `rise` while `over` ticks pass.
// Slopes are compared by cross products, so nothing is ever rounded, except a value read off a line, which is rounded down.
#![tactic(auto)]

mod bounds;
mod compare;
mod divisor;
mod law;
mod product;
mod terms;
mod value;

pub use bounds::Bounds;
pub use compare::{flatter, steeper};
pub use divisor::gcd;
pub use law::laws;
pub use product::times_less_times;
pub use terms::reduced;
pub use value::{floor_quotient, height_before, value_at};
