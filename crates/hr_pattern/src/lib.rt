//! The patterns that select repositories and tags, as `library/**` or `v{1,2}?`: read with the
//! exact place and reason of a refusal, and matched by their definition. Start with `pattern`.
#![tactic(auto)]

mod component;
mod covering;
mod escaping;
mod expansion;
mod form;
mod item;
mod part;
mod path;
mod pattern;
mod refusal;
mod sign;

pub use escaping::escaped_texts_are_fitted_alone;
pub use form::FORMS_LIMIT;
pub use pattern::{LIMIT, Pattern};
pub use refusal::{PatternRefused, Why};
