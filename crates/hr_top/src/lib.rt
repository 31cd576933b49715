//! The call that the program makes: the words and the input of a command come in, its text and what
//! it leaves come out. Start with `command`.
#![tactic(auto)]

mod checking;
mod command;
mod input;
mod outcome;
mod wording;

pub use command::top;
pub use hr_replay::Ending;
