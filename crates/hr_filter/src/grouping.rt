//! Tags that stand together under one repository, as picks. (Our own.)
ghost use Rattle.std.specs.Prelude.{◌≡◌, IfOk, map};
ghost use Rattle.std.specs.List.{prefix_len};
ghost use Rattle.hr_filter.specs.Grouping.{grouped, is_under};

use crate::listed::Pick;
use hr_base::{List, Memory};
use hr_name::{Name, Tag};
use std::alloc::Global;

/// Tags as picks: those that stand together under one repository are one pick.
pub(crate) fn group(alloc: Global, tags: &[(Name, Tag)]) -> Result<List<Pick>, Memory>
    ensures { IfOk result (λ picks. picks ≡ grouped tags.now) }
{
    let mut picks = List::new(alloc);
    let mut left = tags;
    while let Some((repo, _)) = left.first() {
        let (together, behind) = left.split_at(count_under(repo, left));
        picks.push(Pick {
            repo: repo.copy(alloc)?,
            tags: tags_of(alloc, together)?,
        })?;
        left = behind;
    }
    Ok(picks)
}

// How many tags at the front are of this repository.
fn count_under(repo: &Name, tags: &[(Name, Tag)]) -> usize
    ensures { result ≡ prefix_len (is_under repo.now) tags.now }
{
    tags.iter().take_while(|tag| tag.0 == *repo).count()
}

// The tags without their repositories.
fn tags_of(alloc: Global, tags: &[(Name, Tag)]) -> Result<List<Tag>, Memory>
    ensures { IfOk result (λ made. made ≡ map (λ tag. tag.1) tags.now) }
{
    let mut made = List::new(alloc);
    for (_, tag) in tags {
        made.push(tag.copy(alloc)?)?;
    }
    Ok(made)
}
