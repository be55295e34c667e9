// Points and hulls. Which lines serve a run of readings, not below a low end nor above a high end, is told by few of the
// ends: the upper hull of the low ends and the lower hull of the high ends. A push adds a point to a hull, drops those that
// no longer matter, and loses no line.
//
// High ends are kept turned over: their heights negated. A line is not above a high end exactly where the line turned over
// is not below the end turned over, so that both hulls are upper hulls, and one push, one walk and one set of facts serve both.
#![tactic(auto)]

mod growth;
mod hull;
mod law;
mod point;
mod walk;

pub use hull::Hull;
pub use law::laws;
pub use point::Point;
