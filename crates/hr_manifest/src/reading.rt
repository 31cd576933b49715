//! The children of a manifest, read from its bytes (OCI Image 1.1, "OCI Image Manifest
//! Specification" and "OCI Image Index Specification").
ghost use Rattle.std.specs.Prelude.{◌≡◌, ◌≢◌, ◌≤◌, ◌++◌, IfErr, IfOk, IsSome, Some, None, length, map, option_and_then};
ghost use Rattle.hr_json.specs.Doc.{content_of, document_of};
ghost use Rattle.hr_json.specs.Node.{value_of, values_of};
ghost use Rattle.hr_manifest.specs.Descriptor.{child_of, object_in};
ghost use Rattle.hr_manifest.specs.Reading.{form_of, listed, reading_of, says_media, says_two};
ghost use Rattle.hr_manifest.specs.Step.{each};

use crate::descriptor::{Role, read_child};
use crate::field::{has, items_at, number_at, object_at, text_at};
use crate::form::{Form, form_of};
use crate::{CHILD_LIMIT, Child, ManifestKey, Unreadable};
use hr_base::{List, MANIFEST_LIMIT};
use hr_json::{Doc, Items, JsonRefused, Node};
use std::alloc::Global;

/// The children that the bytes list under a media type.
pub(crate) fn read_children(
    alloc: Global,
    media: &[u8],
    bytes: &[u8],
) -> Result<List<Child>, Unreadable>
    ensures ok { IfOk result (λ children. reading_of media.now bytes.now ≡ Ok children) }
    ensures err { IfErr result
        (λ why. why ≢ Unreadable.Memory → reading_of media.now bytes.now ≡ Err why) }
    ensures memory { (result ≡ Err Unreadable.Memory)
        → (length bytes.now ≤ MANIFEST_LIMIT) × IsSome (form_of media.now) }
{
    let len = bytes.len() as u64;
    if len > MANIFEST_LIMIT {
        return Err(Unreadable::TooLong { len });
    }
    let Some(form) = form_of(media) else {
        return Err(Unreadable::Media);
    };
    let doc = read_object(alloc, bytes)?;
    let root = doc.root();
    if !says_two(&root) {
        return Err(Unreadable::Field {
            name: ManifestKey::SchemaVersion,
        });
    }
    if !says_media(&root, media) {
        return Err(Unreadable::Field {
            name: ManifestKey::MediaType,
        });
    }
    read_listed(alloc, form, &root)
}

// The object that the bytes are.
fn read_object(alloc: Global, bytes: &[u8]) -> Result<Doc, Unreadable>
    requires { length bytes.now ≤ MANIFEST_LIMIT }
    ensures ok { IfOk result (λ doc. option_and_then object_in (document_of bytes.now)
        ≡ Some (content_of doc)) }
    ensures err { IfErr result (λ why. why ≢ Unreadable.Memory
        → (why ≡ Unreadable.NotJson) × (option_and_then object_in (document_of bytes.now) ≡ None)) }
{
    match Doc::read(alloc, bytes) {
        Ok(doc) if doc.root().is_object() => Ok(doc),
        Ok(_) | Err(JsonRefused::NotJson) => Err(Unreadable::NotJson),
        Err(JsonRefused::Memory) => Err(Unreadable::Memory),
        // A document may be longer than a manifest.
        Err(JsonRefused::TooLong { .. }) => unreachable!(),
    }
}

fn says_two(root: &Node<'_>) -> bool
    ensures { result ≡ says_two (value_of root.now) }
{
    number_at(root, "schemaVersion") == Some(2)
}

fn says_media(root: &Node<'_>, media: &[u8]) -> bool
    ensures { result ≡ says_media media.now (value_of root.now) }
{
    if !has(root, "mediaType") {
        return true;
    }
    match text_at(root, "mediaType") {
        Some(text) => text == media,
        None => false,
    }
}

fn read_listed(alloc: Global, form: Form, root: &Node<'_>) -> Result<List<Child>, Unreadable>
    ensures ok { IfOk result (λ children. listed form (value_of root.now) ≡ Ok children) }
    ensures err { IfErr result
        (λ why. why ≢ Unreadable.Memory → listed form (value_of root.now) ≡ Err why) }
{
    match form {
        Form::Image => read_image(alloc, root),
        Form::Index => read_index(alloc, root),
    }
}

fn read_image(alloc: Global, root: &Node<'_>) -> Result<List<Child>, Unreadable>
    ensures ok { IfOk result (λ children. listed Form.Image (value_of root.now) ≡ Ok children) }
    ensures err { IfErr result
        (λ why. why ≢ Unreadable.Memory → listed Form.Image (value_of root.now) ≡ Err why) }
{
    if has(root, "manifests") {
        return Err(Unreadable::Field {
            name: ManifestKey::Manifests,
        });
    }
    let Some(config) = object_at(root, "config") else {
        return Err(Unreadable::Field {
            name: ManifestKey::Config,
        });
    };
    let Some(layers) = items_at(root, "layers") else {
        return Err(Unreadable::Field {
            name: ManifestKey::Layers,
        });
    };
    let count = layers.count() + 1;
    if count > CHILD_LIMIT {
        return Err(Unreadable::TooMany { count });
    }
    let mut children = List::new(alloc);
    children.push(read_child(alloc, Role::Config, &config)?)?;
    read_each(alloc, Role::Layer, &layers, children)
}

fn read_index(alloc: Global, root: &Node<'_>) -> Result<List<Child>, Unreadable>
    ensures ok { IfOk result (λ children. listed Form.Index (value_of root.now) ≡ Ok children) }
    ensures err { IfErr result
        (λ why. why ≢ Unreadable.Memory → listed Form.Index (value_of root.now) ≡ Err why) }
{
    if has(root, "config") {
        return Err(Unreadable::Field {
            name: ManifestKey::Config,
        });
    }
    if has(root, "layers") {
        return Err(Unreadable::Field {
            name: ManifestKey::Layers,
        });
    }
    let Some(manifests) = items_at(root, "manifests") else {
        return Err(Unreadable::Field {
            name: ManifestKey::Manifests,
        });
    };
    let count = manifests.count();
    if count > CHILD_LIMIT {
        return Err(Unreadable::TooMany { count });
    }
    read_each(alloc, Role::Manifest, &manifests, List::new(alloc))
}

// Reads the descriptors of a list in turn, behind the children that were read before it.
fn read_each(
    alloc: Global,
    role: Role,
    descriptors: &Items<'_>,
    before: List<Child>,
) -> Result<List<Child>, Unreadable>
    ensures ok { IfOk result (λ children. (more : List Child) × (children ≡ before ++ more)
        × (each (map (child_of role) (values_of descriptors.now)) ≡ Ok more)) }
    ensures err { IfErr result (λ why. why ≢ Unreadable.Memory
        → each (map (child_of role) (values_of descriptors.now)) ≡ Err why) }
{
    let mut children = before;
    for at in 0..descriptors.count() {
        let Some(descriptor) = descriptors.at(at) else {
            continue;
        };
        children.push(read_child(alloc, role, &descriptor)?)?;
    }
    Ok(children)
}
