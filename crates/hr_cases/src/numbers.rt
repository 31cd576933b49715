//! Words and numbers of a line, and texts in which bytes may be escaped.

use hr_base::{List, Memory};
use percent_encoding::{AsciiSet, CONTROLS, percent_decode};
use std::alloc::Global;

/// The bytes that a text stands for.
pub fn decoded(alloc: Global, text: &str) -> Result<Vec<u8>, Memory> {
    let mut bytes = Vec::new(alloc);
    percent_decode(text.as_bytes()).append_to(&mut bytes)?;
    Ok(bytes)
}

/// The bytes that are escaped in what is printed, besides those that are not ASCII.
pub fn escaped() -> AsciiSet {
    CONTROLS.add(b'%')
}

/// The numbers of a text, up to a word that is none.
pub fn numbers(alloc: Global, text: &str) -> Result<List<u64>, Memory> {
    let mut list = List::new(alloc);
    for word in text.split_whitespace() {
        match word.parse() {
            Ok(number) => list.push(number)?,
            Err(_) => return Ok(list),
        }
    }
    Ok(list)
}

/// How a number is written.
#[derive(Clone, Copy, Debug, PartialEq, Eq)]
pub enum Digits {
    /// In at least four hexadecimal digits.
    Hexadecimal,
    Decimal,
}

/// Puts a text at the end of an input, with a number in the place of each asterisk.
pub fn write_counted(
    alloc: Global,
    input: &mut Vec<u8>,
    number: u64,
    digits: Digits,
    text: &[u8],
) -> Result<(), Memory> {
    for byte in text {
        if *byte != b'*' {
            input.push(*byte)?;
        } else if digits == Digits::Decimal {
            input.extend_from_slice(format!(in alloc; "{number}")?.as_bytes())?;
        } else {
            input.extend_from_slice(format!(in alloc; "{number:04x}")?.as_bytes())?;
        }
    }
    Ok(())
}

/// Puts a line `step JOB` at the end of an input for each of these jobs.
pub fn write_steps(alloc: Global, input: &mut Vec<u8>, jobs: &[u64]) -> Result<(), Memory> {
    for job in jobs {
        input.extend_from_slice(format!(in alloc; "step {job}\n")?.as_bytes())?;
    }
    Ok(())
}
