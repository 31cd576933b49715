//! The registries of a script in memory, opened as its setup lines say, and the tasks that a trigger
//! plans for one. Start with `opening`.
#![tactic(auto)]

mod laws;
mod line;
mod opening;
mod planning;
mod setup;
mod storing;
#[cfg(test)]
mod tests;

pub use laws::{
    eight_registries_open, honest_lines_open_honest_registries, some_jobs_may_be,
    what_is_read_is_fit,
};
pub use opening::{OpenRefused, Opened, open_script};
pub use planning::plan;
