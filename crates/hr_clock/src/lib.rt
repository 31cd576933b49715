//! Clocks, which give moments that never go back: one in memory, and that of the system. Start with
//! `clock`.
#![tactic(auto)]

mod clock;
mod step_clock;
mod system_clock;
#[cfg(test)]
mod tests;

pub use clock::Clock;
pub use step_clock::StepClock;
pub use system_clock::SystemClock;
