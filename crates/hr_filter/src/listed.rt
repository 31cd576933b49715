//! Tags of repositories, as a listing has them and as a policy picks them. (Our own.)
ghost use Rattle.std.specs.Prelude.{◌≡◌, IfOk};

use crate::copying::{copy_tags, copy_texts};
use hr_base::{Bytes, List, Memory};
use hr_name::{Name, Tag};
use std::alloc::Global;

/// A tag of a repository that a listing has, with the labels that the registry keeps.
#[derive(Debug, Drop, PartialEq, Eq)]
pub struct Listed {
    pub repo: Name,
    pub tag: Tag,
    pub labels: List<Bytes>,
}

impl Listed {
    /// An equal value.
    pub fn copy(&self, alloc: Global) -> Result<Listed, Memory>
        ensures { IfOk result (λ made. made ≡ self.now) }
    {
        Ok(Listed {
            repo: self.repo.copy(alloc)?,
            tag: self.tag.copy(alloc)?,
            labels: copy_texts(alloc, self.labels.view())?,
        })
    }
}

/// The tags of a repository that a policy selects.
#[derive(Debug, Drop, PartialEq, Eq)]
pub struct Pick {
    pub repo: Name,
    /// At least one, in byte order.
    pub tags: List<Tag>,
}

impl Pick {
    /// An equal value.
    pub fn copy(&self, alloc: Global) -> Result<Pick, Memory>
        ensures { IfOk result (λ made. made ≡ self.now) }
    {
        Ok(Pick {
            repo: self.repo.copy(alloc)?,
            tags: copy_tags(alloc, self.tags.view())?,
        })
    }
}
