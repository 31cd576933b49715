//! What each front of a message comes to.
use crate::case::Case;
use crate::outcome::{Came, read};
use hr_base::Memory;
use hr_http1::WireFault;
use std::alloc::Global;

/// A letter for each front of the message, the empty one and the whole too, and a line feed: `r`
/// where it is read, `n` where nothing was there, `e` where it ended behind its last byte, `E`
/// where it ended elsewhere, `m` where it is malformed, and `t` where it is too long.
pub fn letters(alloc: Global, case: &Case) -> Result<String, Memory> {
    let bytes = case.bytes.view();
    let mut text = String::new(alloc);
    for count in 0..bytes.len() {
        text.push(letter(&read(alloc, case, &bytes[..count], 0)?, count as u64))?;
    }
    text.push(letter(&read(alloc, case, bytes, 0)?, bytes.len() as u64))?;
    text.push('\n')?;
    Ok(text)
}

/// The letter for what came of so many bytes, where a link that failed is `f`.
pub fn letter(read: &Came, count: u64) -> char {
    match read {
        Came::Reply(_, _) | Came::Request(_, _) => 'r',
        Came::Nothing => 'n',
        Came::Fault(WireFault::Ended { at }) => { if *at == count { 'e' } else { 'E' } }
        Came::Fault(WireFault::Malformed { at: _ }) => 'm',
        Came::Fault(WireFault::TooLong { len: _ }) => 't',
        Came::Fault(WireFault::Failed) => 'f',
        Came::Fault(WireFault::Memory) => '?',
    }
}
