//! The texts of the answers that the core gives to events, each one line. Start with `answer`.
#![tactic(auto)]

mod answer;
mod cause;
mod line;
mod piece;
mod step;
#[cfg(test)]
mod tests;
mod word;

pub use answer::{print, print_all};
