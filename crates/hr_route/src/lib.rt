//! The first lines of the requests of calls: which verb and target each call has, and which call a
//! verb and a target ask for, or the status of their refusal. Start with `routing`.
#![tactic(auto)]

mod found;
mod laws;
mod part;
mod path;
mod query;
mod route;
mod routing;
mod target;
#[cfg(test)]
mod tests;

pub use found::Found;
pub use laws::{a_path_has_one_way, what_is_asked_is_read_back};
pub use path::Kind;
pub use query::{PAGE, PAGE_LIMIT, page_size};
pub use route::{NoRoute, Route};
pub use routing::route_of;
pub use target::{target_of, verb_of};
