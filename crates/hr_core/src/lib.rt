//! The core: lanes, a board, a queue and a store behind one call, which does what an event says. What
//! each event does is a relation of hr_run; start with `engine`.
#![tactic(auto)]

mod asking;
mod delivering;
mod engine;
mod event;
mod finishing;
mod journal;
mod lanes;
mod made;
mod marks;
mod passing;
mod rounds;
mod stopping;
mod tags;
mod triggering;
mod turning;

pub use engine::Core;
