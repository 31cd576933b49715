//! When all that stands in the registries of a script can be copied, and which setup lines make
//! such registries. It is all definitions and laws; start with `specs/Copyable.antt`.
#![tactic(auto)]

mod laws;

pub use laws::{
    a_worked_script_can_be_copied, an_index_of_nothing_can_be_copied,
    canonical_lines_can_be_copied, canonical_lines_store_whole_tags,
    copyable_registries_are_undisturbed, copyable_tags_are_whole,
};
