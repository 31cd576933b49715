//! A link that fails at one of its reads.
use crate::case::Case;
use crate::front::letter;
use crate::outcome::{read_off, source};
use hr_base::Memory;
use std::alloc::Global;

/// How many reads of one byte it takes: where any of them fails, what comes is that the link failed.
/// Behind `then` stands the letter of what comes where none of them fails. Of a malformed message
/// the number isn't told, since how early it is refused isn't fixed.
pub fn failing(alloc: Global, case: &Case) -> Result<String, Memory> {
    let count = case.bytes.view().len() as u64;
    for failed in 0..count.saturating_add(2) {
        match fail(alloc, case, failed.saturating_add(1))? {
            'f' => {}
            'm' if failed > 0 => return Ok(format!(in alloc; "fails, then m\n")?),
            other => return Ok(format!(in alloc; "fails {failed} times, then {other}\n")?),
        }
    }
    Ok(format!(in alloc; "fails\n")?)
}

// The letter of what comes where this read fails, and each gives one byte.
fn fail(alloc: Global, case: &Case, failing: u64) -> Result<char, Memory> {
    let bytes = case.bytes.view();
    let mut link = source(alloc, bytes, 1, failing)?;
    let came = read_off(alloc, case, &mut link)?;
    Ok(letter(&came, bytes.len() as u64))
}
