//! How many expanded forms a pattern has.
ghost use Rattle.std.specs.Prelude.{◌≡◌, Some, None, length, IfOk, IfErr, OnOk};
ghost use Rattle.hr_pattern.specs.Form.{forms, too_many};

use crate::part::Part;
use crate::refusal::{PatternRefused, Why};

/// How many expanded forms a pattern has at most.
pub const FORMS_LIMIT: usize = 256;

/// How many expanded forms parts have, or the refusal of the first part with which they pass
/// `FORMS_LIMIT`.
pub fn count_forms(parts: &[Part]) -> Result<usize, PatternRefused>
    ensures few { OnOk result (too_many 1 parts.now ≡ None) }
    ensures count { IfOk result (λ count. count ≡ length (forms parts.now)) }
    ensures refused { IfErr result (λ e. too_many 1 parts.now ≡ Some e) }
{
    let mut count = 1usize;
    for part in parts {
        count = count.saturating_mul(part.choices.view().len());
        if count > FORMS_LIMIT {
            return Err(PatternRefused::At {
                at: part.at,
                why: Why::Many,
            });
        }
    }
    Ok(count)
}
