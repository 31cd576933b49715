//! Manifests: what images and indexes list, read from their bytes and written to them. Start with
//! `manifest`.
#![tactic(auto)]

mod child;
mod descriptor;
mod field;
mod form;
mod law;
mod manifest;
mod media;
mod reading;
mod refusal;
mod round_trip;
#[cfg(test)]
mod tests;
mod writing;
#[cfg(test)]
mod writing_tests;

pub use child::{Child, ChildKind};
pub use hr_text::is_unescaped;
pub use law::{
    bytes_are_read_or_refused, children_depend_on_the_bytes_alone,
    manifests_are_within_their_limits, manifests_have_four_media_types,
};
pub use manifest::{CHILD_LIMIT, Manifest};
pub use media::{
    DOCKER_IMAGE, DOCKER_INDEX, FOREIGN_LAYER, OCI_CONFIG, OCI_IMAGE, OCI_INDEX, OCI_LAYER,
};
pub use refusal::{ManifestKey, Unreadable};
pub use round_trip::{image_is_json, image_reads_back, index_is_json, index_reads_back};
pub use writing::{write_image, write_index};
