//! The lines of scripts: a text is read into setup lines and events, up to the first bad line.
//! Start with `reading`.
#![tactic(auto)]

mod argument;
mod event;
mod kind;
mod line;
mod planned;
mod progress;
mod reading;
mod refusal;
mod split;
mod status;
#[cfg(test)]
mod tests;
mod word;

pub use line::Line;
pub use reading::{Lines, Numbered, SCRIPT_LIMIT, one_reading, read_lines, some_reading};
pub use refusal::{Fault, Why};
