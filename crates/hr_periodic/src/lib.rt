//! Schedules: when a policy is to run, by six fields in UTC. Start with `cron`.
#![tactic(auto)]

mod cron;
mod field;
mod law;
mod periodic;
mod reading;

pub use cron::{Cron, CronRefused, HORIZON};
pub use field::{Field, NUMBERS};
pub use law::a_text_stands_for_one_schedule;
pub use periodic::Periodic;
