//! What a registry in memory lists (OCI Distribution 1.1, "Listing Tags"; the catalog of the Docker
//! registry).
ghost use Rattle.std.specs.Prelude.{◌≡◌, ◌<◌, ◌≤◌, ◌++◌, IfOk, OnErr, OnOk, map};
ghost use Rattle.std.specs.List.{filter_map};
ghost use Rattle.std.specs.Map.{keys_of};
ghost use Rattle.std.specs.List.Sorted.{IsStrictlySortedBy};
ghost use Rattle.std.specs.Cmp.Lexicographic.{slice_cmp};
ghost use Rattle.std.specs.Ordering.{nat_cmp};
ghost use Rattle.hr_adapter.specs.Listing.{labels_in, repos_of, tag_now, tagged_of, tags_of, tags_shown};
ghost use Rattle.hr_memreg.specs.Answer.{GivesList};

use crate::held::Held;
use crate::repository::Repository;
use hr_adapter::{LIST_LIMIT, RegFault, TagNow, Tagged};
use hr_base::{Bytes, List, Memory};
use hr_name::{Name, Tag};
use std::alloc::Global;

impl Held {
    /// The names of all repositories.
    pub(crate) fn names(&self, alloc: Global) -> Result<List<Name>, RegFault>
        ensures gives { GivesList (repos_of self.now) result }
        ensures ordered { IsStrictlySortedBy (slice_cmp nat_cmp) (repos_of self.now) }
    {
        within(self.repos.len())?;
        Ok(self.copied_names(alloc)?)
    }

    // The names of all repositories, however many there are.
    fn copied_names(&self, alloc: Global) -> Result<List<Name>, Memory>
        ensures { IfOk result (λ names. names ≡ repos_of self.now) }
    {
        let mut names = List::new(alloc);
        for name in self.repos.keys() {
            names.push(name.copy(alloc)?)?;
        }
        Ok(names)
    }

    /// All tags of a repository with their labels.
    pub(crate) fn tags(&self, alloc: Global, repo: &Name) -> Result<List<Tagged>, RegFault>
        ensures gives { GivesList (tags_of self.now repo.now) result }
        ensures ordered { IsStrictlySortedBy (slice_cmp nat_cmp)
            (map (λ t. t.tag) (tags_of self.now repo.now)) }
    {
        match self.repository(repo) {
            Some(repository) => repository.tagged_within(alloc),
            None => Ok(List::new(alloc)),
        }
    }

    /// All tags of all repositories with what they name.
    pub(crate) fn shown(&self, alloc: Global) -> Result<List<TagNow>, Memory>
        ensures { IfOk result (λ tags. tags ≡ tags_shown self.now) }
    {
        let mut shown = List::new(alloc);
        for (name, repository) in self.repos.iter() {
            repository.push_tags(alloc, name, &mut shown)?;
        }
        Ok(shown)
    }
}

impl Repository {
    // All tags with their labels, where they are no more than are listed.
    fn tagged_within(&self, alloc: Global) -> Result<List<Tagged>, RegFault>
        ensures gives { GivesList (tagged_of self.now) result }
        ensures ordered { IsStrictlySortedBy (slice_cmp nat_cmp) (keys_of self.now.tags) }
    {
        within(self.tags.len())?;
        Ok(self.tagged(alloc)?)
    }

    // All tags with their labels, however many there are.
    fn tagged(&self, alloc: Global) -> Result<List<Tagged>, Memory>
        ensures { IfOk result (λ tags. tags ≡ tagged_of self.now) }
    {
        let mut tags = List::new(alloc);
        for tag in self.tags.keys() {
            tags.push(Tagged {
                tag: tag.copy(alloc)?,
                labels: self.labels_of(alloc, tag)?,
            })?;
        }
        Ok(tags)
    }

    /// The labels of a tag: none where none were given.
    pub(crate) fn labels_of(&self, alloc: Global, tag: &Tag) -> Result<List<Bytes>, Memory>
        ensures { IfOk result (λ labels. labels ≡ labels_in self.now tag.now) }
    {
        match self.labels.get(tag) {
            Some(labels) => copied(alloc, labels),
            None => Ok(List::new(alloc)),
        }
    }

    // Puts all tags that name a digest at the end of a list, with what they name.
    fn push_tags(&self, alloc: Global, name: &Name, shown: &mut List<TagNow>) -> Result<(), Memory>
        ensures { OnOk result (shown.new
            ≡ shown.old ++ filter_map (tag_now name.now) self.now.tags) }
    {
        for (tag, target) in self.tags.iter() {
            if let Some(digest) = target {
                shown.push(TagNow {
                    repo: name.copy(alloc)?,
                    tag: tag.copy(alloc)?,
                    digest: *digest,
                })?;
            }
        }
        Ok(())
    }
}

// Whether a list of so many items is within the limit.
fn within(len: usize) -> Result<(), RegFault>
    ensures ok { OnOk result (len ≤ LIST_LIMIT) }
    ensures err { OnErr result (LIST_LIMIT < len) }
    ensures only { OnErr result (result ≡ Err (RegFault.TooLong len)) }
{
    let len = len as u64;
    if len > LIST_LIMIT {
        return Err(RegFault::TooLong { len });
    }
    Ok(())
}

/// Equal texts.
pub(crate) fn copied(alloc: Global, texts: &List<Bytes>) -> Result<List<Bytes>, Memory>
    ensures { IfOk result (λ made. made ≡ texts.now) }
{
    let mut made = List::new(alloc);
    for text in texts.view() {
        made.push(text.copy(alloc)?)?;
    }
    Ok(made)
}
