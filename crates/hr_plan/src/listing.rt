//! What a source lists for a policy: the tags of each repository that meets all filters on names.
//! (Our own; OCI Distribution 1.1, "Listing Tags".)
ghost use Rattle.std.specs.Prelude.{◌≡◌, ◌++◌, OnOk, Ok, Err, MatchResult, IfOk};
ghost use Rattle.hr_plan.specs.Listing.{AsksRepos, AsksTags, Breaks, Halts, Lists, Refuses, Visits, listed_in};

use crate::PlanRefused;
use crate::naming::meets_names;
use crate::refusal::refused;
use hr_adapter::{Registry, Tagged};
use hr_base::{Bytes, List, Memory};
use hr_filter::{Filter, Listed};
use hr_name::Name;
use std::alloc::Global;

/// Lists the tags of each repository that meets all filters on names, in byte order of both.
pub(crate) fn list_source<A: Registry>(
    alloc: Global,
    filters: &[Filter],
    source: &mut A,
) -> Result<List<Listed>, PlanRefused>
    ensures { MatchResult result
        (λ listing. Lists filters.now (A.seen source.old) (A.seen source.new) listing)
        (λ why. Breaks filters.now (A.seen source.old) (A.seen source.new) why) }
{
    let names = list_repos(source)?;
    let mut listing = List::new(alloc);
    for name in names.view() {
        if let Err(why) = visit(alloc, filters, source, name, &mut listing) {
            return Err(why);
        }
    }
    Ok(listing)
}

// The names of all repositories.
fn list_repos<A: Registry>(source: &mut A) -> Result<List<Name>, PlanRefused>
    ensures { MatchResult result
        (λ names. AsksRepos (A.seen source.old) (A.seen source.new) (Ok names))
        (λ why. Refuses (λ fault. AsksRepos (A.seen source.old) (A.seen source.new) (Err fault))
        (A.seen source.old) (A.seen source.new) why) }
{
    let before = source.count();
    match source.repos() {
        Ok(names) => Ok(names),
        Err(fault) => Err(refused(fault, before, source.count())),
    }
}

// Puts the tags of a repository at the end of a listing, where it meets all filters on names.
fn visit<A: Registry>(
    alloc: Global,
    filters: &[Filter],
    source: &mut A,
    repo: &Name,
    listing: &mut List<Listed>,
) -> Result<(), PlanRefused>
    ensures { MatchResult result
        (λ _. Visits filters.now repo.now (A.seen source.old) (A.seen source.new)
        listing.old listing.new)
        (λ why. Halts filters.now repo.now (A.seen source.old) (A.seen source.new) why) }
{
    if !meets_names(filters, repo) {
        return Ok(());
    }
    let tags = list_tags(source, repo)?;
    push_tags(alloc, listing, repo, tags.view())?;
    Ok(())
}

// The tags of a repository.
fn list_tags<A: Registry>(source: &mut A, repo: &Name) -> Result<List<Tagged>, PlanRefused>
    ensures { MatchResult result
        (λ tags. AsksTags repo.now (A.seen source.old) (A.seen source.new) (Ok tags))
        (λ why. Refuses (λ fault. AsksTags repo.now (A.seen source.old) (A.seen source.new)
        (Err fault)) (A.seen source.old) (A.seen source.new) why) }
{
    let before = source.count();
    match source.tags(repo) {
        Ok(tags) => Ok(tags),
        Err(fault) => Err(refused(fault, before, source.count())),
    }
}

// Puts the tags of a repository at the end of a listing, with their labels.
fn push_tags(
    alloc: Global,
    listing: &mut List<Listed>,
    repo: &Name,
    tags: &[Tagged],
) -> Result<(), Memory>
    ensures { OnOk result (listing.new ≡ listing.old ++ listed_in repo.now tags.now) }
{
    for tagged in tags {
        listing.push(Listed {
            repo: repo.copy(alloc)?,
            tag: tagged.tag.copy(alloc)?,
            labels: copy_labels(alloc, tagged.labels.view())?,
        })?;
    }
    Ok(())
}

fn copy_labels(alloc: Global, labels: &[Bytes]) -> Result<List<Bytes>, Memory>
    ensures { IfOk result (λ made. made ≡ labels.now) }
{
    let mut made = List::new(alloc);
    for label in labels {
        made.push(label.copy(alloc)?)?;
    }
    Ok(made)
}
