//! The paths of the REST front. (After Harbor's replication API.)
ghost use Rattle.std.specs.Prelude.{◌++◌, MatchOption, codes};
ghost use Rattle.hr_rest.specs.Path.{LeadsBehind, LeadsTo, Place, place_in};

use hr_text::cut;

/// Where a path leads, with the text that stands for a number.
#[derive(Clone, Copy)]
pub(crate) enum Way<'a> {
    /// To the policies.
    Policies,
    /// To the executions.
    Executions,
    /// To an execution.
    One { id: &'a [u8] },
    /// To the tasks of an execution.
    Tasks { id: &'a [u8] },
}

/// Where a path leads, or `None` where it leads nowhere.
pub(crate) fn way_of(path: &[u8]) -> Option<Way<'_>>
    ensures { MatchOption result ((place : Place) → LeadsTo path.now place → ⊥)
        (λ way. LeadsTo path.now (place_in way)) }
{
    let rest = path.strip_prefix(b"/api/v2.0/replication/".as_slice())?;
    way_behind(rest)
}

// Where what stands behind the base leads.
fn way_behind(rest: &[u8]) -> Option<Way<'_>>
    ensures { MatchOption result ((place : Place) → LeadsBehind rest.now place → ⊥)
        (λ way. LeadsBehind rest.now (place_in way)) }
{
    if rest == b"policies".as_slice() {
        return Some(Way::Policies);
    }
    if rest == b"executions".as_slice() {
        return Some(Way::Executions);
    }
    let within = rest.strip_prefix(b"executions/".as_slice())?;
    way_within(within)
}

// Where what stands behind `executions/` leads.
fn way_within(within: &[u8]) -> Option<Way<'_>>
    ensures { MatchOption result
        ((place : Place) → LeadsBehind (codes "executions/" ++ within.now) place → ⊥)
        (λ way. LeadsBehind (codes "executions/" ++ within.now) (place_in way)) }
{
    let (id, behind) = cut(within, b'/');
    let Some(behind) = behind else {
        return Some(Way::One { id });
    };
    if behind == b"tasks".as_slice() {
        Some(Way::Tasks { id })
    } else {
        None
    }
}
