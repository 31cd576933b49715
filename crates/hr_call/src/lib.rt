//! The calls that one registry makes to another, and the answers to them, as plain data; and the texts
//! by which they name repositories, tags and digests. Start with `call`.
#![tactic(auto)]

mod answer;
mod call;
mod reading;
#[cfg(test)]
mod tests;

pub use answer::Answer;
pub use call::Call;
pub use reading::{read_digest, read_name, read_reference, read_tag, reference_text};
