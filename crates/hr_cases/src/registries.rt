//! What registries hold, a line for each tag, manifest and blob.

use crate::digits::{Named, Plain};
use crate::kept::registry;
use hr_adapter::{RegFault, Registry, Tagged};
use hr_base::{Bytes, Memory, RegNo};
use hr_memreg::{BlobAt, ManifestAt, MemRegistry, RepoContent, TagAt};
use hr_name::Name;
use hr_replay::Ending;
use std::alloc::Global;

/// Writes the tags of each registry that lead to a manifest.
pub fn write_tags(said: &mut String, kept: &Ending) -> Result<(), Memory> {
    for reg in 1..=8u8 {
        if let Some(held) = registry(kept, RegNo(reg)) {
            write_shown(said, reg, held)?;
        }
    }
    Ok(())
}

/// Writes the tags of a registry that lead to a manifest.
pub fn write_shown(said: &mut String, reg: u8, held: &MemRegistry) -> Result<(), Memory> {
    let shown = held.shown()?;
    for tag in shown.view() {
        let (repo, name) = (Plain(tag.repo.view()), Plain(tag.tag.view()));
        writeln!(said, "tag {reg} {repo} {name} {}", Named(tag.digest))?;
    }
    Ok(())
}

/// Writes the tags of each repository as a registry lists them.
pub fn write_listed(alloc: Global, said: &mut String, held: &MemRegistry) -> Result<(), RegFault> {
    let repos = held.list_repos(alloc)?;
    for repo in repos.view() {
        let tags = held.list_tags(alloc, repo)?;
        write_tagged(said, repo, tags.view())?;
    }
    Ok(())
}

// Writes tags of a repository with their labels.
fn write_tagged(said: &mut String, repo: &Name, tags: &[Tagged]) -> Result<(), Memory> {
    for tagged in tags {
        write!(
            said,
            "listed {} {}",
            Plain(repo.view()),
            Plain(tagged.tag.view())
        )?;
        write_labels(said, tagged.labels.view())?;
    }
    Ok(())
}

// Writes labels and the end of their line.
fn write_labels(said: &mut String, labels: &[Bytes]) -> Result<(), Memory> {
    for label in labels {
        write!(said, " {}", Plain(label.view()))?;
    }
    said.push_str("\n")?;
    Ok(())
}

/// Writes all that each registry holds.
pub fn write_contents(alloc: Global, said: &mut String, kept: &Ending) -> Result<(), Memory> {
    for reg in 1..=8u8 {
        if let Some(held) = registry(kept, RegNo(reg)) {
            writeln!(said, "registry {reg}")?;
            write_content(alloc, said, held)?;
        }
    }
    Ok(())
}

// Writes all that a registry holds.
fn write_content(alloc: Global, said: &mut String, held: &MemRegistry) -> Result<(), Memory> {
    let content = held.content(alloc)?;
    for repo in content.repos.view() {
        write_repository(said, repo)?;
    }
    Ok(())
}

fn write_repository(said: &mut String, repo: &RepoContent) -> Result<(), Memory> {
    writeln!(said, "repository {}", Plain(repo.name.view()))?;
    write_blobs(said, repo.blobs.view())?;
    write_manifests(said, repo.manifests.view())?;
    write_named(said, repo.tags.view())
}

fn write_blobs(said: &mut String, blobs: &[BlobAt]) -> Result<(), Memory> {
    for blob in blobs {
        writeln!(
            said,
            "blob {} {}",
            Named(blob.digest),
            Plain(blob.bytes.view())
        )?;
    }
    Ok(())
}

fn write_manifests(said: &mut String, manifests: &[ManifestAt]) -> Result<(), Memory> {
    for manifest in manifests {
        let (media, text) = (Plain(manifest.media.view()), Plain(manifest.bytes.view()));
        writeln!(said, "manifest {} {media} {text}", Named(manifest.digest))?;
    }
    Ok(())
}

// Writes tags with what they name and their labels.
fn write_named(said: &mut String, tags: &[TagAt]) -> Result<(), Memory> {
    for tag in tags {
        write!(
            said,
            "named {} {}",
            Plain(tag.tag.view()),
            Named(tag.digest)
        )?;
        write_labels(said, tag.labels.view())?;
    }
    Ok(())
}
