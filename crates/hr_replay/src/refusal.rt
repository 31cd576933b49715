//! What is said of the first bad line of a script. (Our own.)
ghost use Rattle.std.specs.Prelude.{◌≡◌, codes, IfOk};
ghost use Rattle.hr_replay.specs.Text.{bad_text, why_text};

use hr_base::{Bytes, Memory};
use hr_script::Why;
use std::alloc::Global;

/// A line with this number is bad, by its words.
pub(crate) fn bad_line(alloc: Global, number: u32, why: Why) -> Result<Bytes, Memory>
    ensures { IfOk result (λ text. text ≡ bad_text number (why_text why)) }
{
    let why = why_word(why);
    let line = format!(in alloc; "line {number} {why}\n")?;
    Ok(Bytes::from(line.into_bytes()))
}

/// A line with this number names a tag that isn't there.
pub(crate) fn line_lacks_tag(alloc: Global, number: u32) -> Result<Bytes, Memory>
    ensures { IfOk result (λ text. text ≡ bad_text number (codes "reference")) }
{
    let line = format!(in alloc; "line {number} reference\n")?;
    Ok(Bytes::from(line.into_bytes()))
}

// Why a line is refused, as a word.
fn why_word(why: Why) -> &'static str
    ensures { result.now ≡ why_text why }
{
    match why {
        Why::Word => "word",
        Why::Order => "order",
        Why::Count => "count",
        Why::Number => "number",
        Why::Name => "name",
        Why::Tag => "tag",
        Why::Hex => "hex",
        Why::Policy => "policy",
        Why::NotYet => "not yet",
    }
}
