//! What operators rest on of a lane, and how its steps are told and come to an end: definitions and
//! laws. Start with `specs/Holds.antt`.
#![tactic(auto)]

mod laws;

pub use laws::steps_come_to_an_end;
