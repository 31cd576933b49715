//! Laws of the canonical texts: what is written reads back (RFC 8259; OCI Image 1.1, "Image
//! Manifest Specification" and "Image Index Specification").
ghost use Rattle.std.specs.Prelude.{◌≡◌, ◌^◌, ◌<◌, ◌≤◌, ℕ, List, Some, length, map};
ghost use Rattle.std.specs.List.{AllByRecursion};
ghost use Rattle.std.specs.Str.{IsUtf8};
ghost use Rattle.serde_json.specs.Read.{read};
ghost use Rattle.hr_manifest.specs.Canonical.{config_of, image_children, image_media, image_text, index_media, index_text, layer_of};
ghost use Rattle.hr_manifest.specs.Document.{image_value, index_value};
ghost use Rattle.hr_manifest.specs.Writable.{IsListed, IsWritable};
ghost use Rattle.hr_manifest.specs.Reading.{Reads};
ghost use Rattle.hr_manifest.specs.declared.child.Child.{Child};
ghost use Rattle.hr_base.specs.declared.limit.TheConstants.{MANIFEST_LIMIT};
ghost use Rattle.hr_manifest.specs.declared.manifest.TheConstants.{CHILD_LIMIT};

/// A law: the text of an image, of which each part has less than 2^64 bytes, is a text in UTF-8,
/// and as JSON it is the value of the image.
pub fn image_is_json()
    ensures utf8 { (config : List ℕ) (layers : List (List ℕ)) → length config < 2 ^ 64
        → AllByRecursion (λ layer. length layer < 2 ^ 64) layers
        → IsUtf8 (image_text config layers) }
    ensures value { (config : List ℕ) (layers : List (List ℕ)) → length config < 2 ^ 64
        → AllByRecursion (λ layer. length layer < 2 ^ 64) layers
        → read (image_text config layers)
        ≡ Some (image_value (config_of config) (map layer_of layers)) }
{}

/// A law: the text of an index of children that can be written is a text in UTF-8, and as JSON it
/// is the value of the index.
pub fn index_is_json()
    ensures utf8 { (children : List Child) → AllByRecursion IsWritable children
        → IsUtf8 (index_text children) }
    ensures value { (children : List Child) → AllByRecursion IsWritable children
        → read (index_text children) ≡ Some (index_value children) }
{}

/// A law: the text of an image of fewer than `CHILD_LIMIT` layers, each part of less than 2^63
/// bytes, reads as the config and the layers, where it has at most `MANIFEST_LIMIT` bytes.
pub fn image_reads_back()
    ensures { (config : List ℕ) (layers : List (List ℕ)) → length config < 2 ^ 63
        → AllByRecursion (λ layer. length layer < 2 ^ 63) layers → length layers < CHILD_LIMIT
        → length (image_text config layers) ≤ MANIFEST_LIMIT
        → Reads image_media (image_text config layers) (image_children config layers) }
{}

/// A law: the text of an index of at most `CHILD_LIMIT` manifests that can be written, each of less
/// than 2^63 bytes, reads as these, where it has at most `MANIFEST_LIMIT` bytes.
pub fn index_reads_back()
    ensures { (children : List Child) → AllByRecursion IsWritable children
        → AllByRecursion IsListed children → length children ≤ CHILD_LIMIT
        → length (index_text children) ≤ MANIFEST_LIMIT
        → Reads index_media (index_text children) children }
{}
