//! A lane: it holds jobs, and copies for each of them one step at a time from one registry to
//! another. What a step does is a relation of hr_line; start with `lane`.
#![tactic(auto)]

mod admission;
mod blob;
mod call;
mod cause;
mod child;
mod conn;
mod ending;
mod going;
mod holding;
mod lane;
mod laws;
mod line;
mod look;
mod roll;
mod root;
mod stepping;
mod tag;
mod work;

pub use conn::Conn;
pub use lane::Lane;
pub use laws::calls_are_those_of_a_lane;
