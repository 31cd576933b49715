//! The tasks that a policy makes of what its source lists, and which lane owns a destination name.
//! Start with `planning`.
#![tactic(auto)]

mod lane;
mod law;
mod listing;
mod naming;
mod planning;
mod refusal;
mod tasks;
#[cfg(test)]
mod tests;

pub use lane::{each_name_has_one_lane, lane_of};
pub use law::{a_listing_has_one_plan, plans_have_what_is_selected};
pub use planning::plan;
pub use refusal::PlanRefused;
