//! What a policy selects of a listing. (Our own, after Harbor's.)
ghost use Rattle.std.specs.Prelude.{◌↔◌, IfOk, IsTrue};
ghost use Rattle.std.specs.BTreeSet.{contains};
ghost use Rattle.hr_filter.specs.Selection.{IsSelected, IsSelection, RepoTag, repo_tag_cmp};

use crate::filter::{Filter, meets_each};
use crate::grouping::group;
use crate::listed::{Listed, Pick};
use hr_base::{List, Memory};
use hr_name::{Name, Tag};
use std::alloc::Global;
use std::collections::BTreeSet;

/// The listed tags that meet each filter, by repository. Repositories and tags are in byte order,
/// each once, however often the listing has them and in whatever order.
pub fn select(alloc: Global, filters: &[Filter], listing: &[Listed]) -> Result<List<Pick>, Memory>
    ensures { IfOk result (λ picks. IsSelection filters.now listing.now picks) }
{
    let selected = selected_tags(alloc, filters, listing)?;
    let tags: Vec<(Name, Tag)> = selected.into_iter().collect(alloc)?;
    group(alloc, &tags)
}

// The selected tags, each with its repository.
fn selected_tags(
    alloc: Global,
    filters: &[Filter],
    listing: &[Listed],
) -> Result<BTreeSet<(Name, Tag)>, Memory>
    ensures { IfOk result (λ selected. (tag : RepoTag)
        → IsTrue (contains repo_tag_cmp selected tag) ↔ IsSelected filters.now listing.now tag) }
{
    let mut selected = BTreeSet::new(alloc);
    for listed in listing {
        if meets_each(filters, listed) {
            selected.insert((listed.repo.copy(alloc)?, listed.tag.copy(alloc)?))?;
        }
    }
    Ok(selected)
}
