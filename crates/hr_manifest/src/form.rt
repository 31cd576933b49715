//! The two forms of a manifest, by its media type (OCI Image 1.1, "OCI Image Media Types"; Docker
//! Image Manifest V2, Schema 2, "Media Types").
ghost use Rattle.std.specs.Prelude.{◌≡◌};
ghost use Rattle.hr_manifest.specs.Reading.{form_of, is_image, is_index};

use crate::{DOCKER_IMAGE, DOCKER_INDEX, OCI_IMAGE, OCI_INDEX};

/// What a manifest lists.
#[derive(Clone, Copy, Debug, PartialEq, Eq)]
pub(crate) enum Form {
    /// A config and layers.
    Image,
    /// Manifests.
    Index,
}

/// The form under a media type, where it is one of the four that are read.
pub(crate) fn form_of(media: &[u8]) -> Option<Form>
    ensures { result ≡ form_of media.now }
{
    if is_image(media) {
        Some(Form::Image)
    } else if is_index(media) {
        Some(Form::Index)
    } else {
        None
    }
}

fn is_image(media: &[u8]) -> bool
    ensures { result ≡ is_image media.now }
{
    media == OCI_IMAGE || media == DOCKER_IMAGE
}

fn is_index(media: &[u8]) -> bool
    ensures { result ≡ is_index media.now }
{
    media == OCI_INDEX || media == DOCKER_INDEX
}
