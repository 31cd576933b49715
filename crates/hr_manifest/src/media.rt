//! The media types of manifests and of what they list (OCI Image 1.1, "OCI Image Media Types";
//! Docker Image Manifest V2, Schema 2, "Media Types").

/// An image of OCI.
pub const OCI_IMAGE: &[u8] = b"application/vnd.oci.image.manifest.v1+json";

/// An index of OCI.
pub const OCI_INDEX: &[u8] = b"application/vnd.oci.image.index.v1+json";

/// An image of Docker.
pub const DOCKER_IMAGE: &[u8] = b"application/vnd.docker.distribution.manifest.v2+json";

/// A manifest list of Docker, which is read as an index.
pub const DOCKER_INDEX: &[u8] = b"application/vnd.docker.distribution.manifest.list.v2+json";

/// The config of an image of OCI.
pub const OCI_CONFIG: &[u8] = b"application/vnd.oci.image.config.v1+json";

/// A layer of an image of OCI that is not compressed.
pub const OCI_LAYER: &[u8] = b"application/vnd.oci.image.layer.v1.tar";

/// A layer of an image of Docker that registries don't keep.
pub const FOREIGN_LAYER: &[u8] = b"application/vnd.docker.image.rootfs.foreign.diff.tar.gzip";
