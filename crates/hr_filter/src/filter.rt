//! The filters of a policy. (Our own, after Harbor's.)
ghost use Rattle.std.specs.Prelude.{◌≡◌, ◌↔◌, IfOk, IsTrue, All, Contains};
ghost use Rattle.hr_filter.specs.Filter.{selects, Meets};

use crate::copying::copy_texts;
use crate::listed::Listed;
use hr_base::{Bytes, List, Memory};
use hr_pattern::Pattern;
use std::alloc::Global;

/// Whether a filter selects what meets it, or all else.
#[derive(Clone, Copy, Debug, PartialEq, Eq)]
pub enum Decoration {
    /// It selects what meets it.
    Matches,
    /// It selects what doesn't meet it.
    Excludes,
}

/// What a listed tag has to be.
#[derive(Debug, Drop, PartialEq, Eq)]
pub enum Filter {
    /// The name of its repository fits the pattern.
    Name {
        pattern: Pattern,
        decoration: Decoration,
    },
    /// The tag fits the pattern.
    Tag {
        pattern: Pattern,
        decoration: Decoration,
    },
    /// It has all of the labels.
    Label {
        labels: List<Bytes>,
        decoration: Decoration,
    },
    /// It is an image, as each listed tag is.
    Resource,
}

impl Decoration {
    // Whether a tag is selected, of which the filter's fact holds or doesn't.
    fn selects(self, holds: bool) -> bool
        ensures { result ≡ selects self holds }
    {
        match self {
            Decoration::Matches => holds,
            Decoration::Excludes => !holds,
        }
    }
}

impl Filter {
    /// Whether a listed tag meets it. A label filter compares each of its labels with each of the
    /// tag's.
    pub fn meets(&self, listed: &Listed) -> bool
        ensures { IsTrue result ↔ Meets listed.now self.now }
    {
        match self {
            Filter::Name {
                pattern,
                decoration,
            } => decoration.selects(pattern.fits(listed.repo.view())),
            Filter::Tag {
                pattern,
                decoration,
            } => decoration.selects(pattern.fits(listed.tag.view())),
            Filter::Label { labels, decoration } => {
                decoration.selects(has_all(listed.labels.view(), labels.view()))
            }
            Filter::Resource => true,
        }
    }

    /// An equal value.
    pub fn copy(&self, alloc: Global) -> Result<Filter, Memory>
        ensures { IfOk result (λ made. made ≡ self.now) }
    {
        match self {
            Filter::Name {
                pattern,
                decoration,
            } => Ok(Filter::Name {
                pattern: pattern.copy(alloc)?,
                decoration: *decoration,
            }),
            Filter::Tag {
                pattern,
                decoration,
            } => Ok(Filter::Tag {
                pattern: pattern.copy(alloc)?,
                decoration: *decoration,
            }),
            Filter::Label { labels, decoration } => Ok(Filter::Label {
                labels: copy_texts(alloc, labels.view())?,
                decoration: *decoration,
            }),
            Filter::Resource => Ok(Filter::Resource),
        }
    }
}

/// Whether a listed tag meets each filter.
pub(crate) fn meets_each(filters: &[Filter], listed: &Listed) -> bool
    ensures { IsTrue result ↔ All (Meets listed.now) filters.now }
{
    for filter in filters {
        if !filter.meets(listed) {
            return false;
        }
    }
    true
}

// Whether these labels have all that are wanted.
fn has_all(labels: &[Bytes], wanted: &[Bytes]) -> bool
    ensures { IsTrue result ↔ All (Contains labels.now) wanted.now }
{
    for label in wanted {
        if !labels.contains(label) {
            return false;
        }
    }
    true
}
