//! Which repositories a policy asks for their tags: those that meet all filters on names. (Our
//! own.)
ghost use Rattle.std.specs.Prelude.{◌≡◌, ◌↔◌, IsTrue};
ghost use Rattle.hr_filter.specs.Filter.{selects};
ghost use Rattle.hr_plan.specs.Naming.{MeetsName, MeetsNames};

use hr_filter::{Decoration, Filter};
use hr_name::Name;

/// Whether a repository meets each filter on names.
pub(crate) fn meets_names(filters: &[Filter], repo: &Name) -> bool
    ensures { IsTrue result ↔ MeetsNames filters.now repo.now }
{
    for filter in filters {
        if !meets_name(filter, repo) {
            return false;
        }
    }
    true
}

// Whether a repository meets a filter, as far as its name decides that.
fn meets_name(filter: &Filter, repo: &Name) -> bool
    ensures { IsTrue result ↔ MeetsName repo.now filter.now }
{
    match filter {
        Filter::Name {
            pattern,
            decoration,
        } => selects(*decoration, pattern.fits(repo.view())),
        Filter::Tag { .. } | Filter::Label { .. } | Filter::Resource => true,
    }
}

// Whether a repository is selected that fits the pattern, or doesn't.
fn selects(decoration: Decoration, fits: bool) -> bool
    ensures { result ≡ selects decoration fits }
{
    match decoration {
        Decoration::Matches => fits,
        Decoration::Excludes => !fits,
    }
}
