//! Messages of HTTP/1.1 as data: it reads cases from standard input, reads the message of each off
//! a device in memory, whole and cut off after each of its bytes, writes it back, and prints what
//! it got. What it must print was made by another program, `bench/messages.py`. Start with `case`.
//!
//! A case is a line `KIND LIMIT BYTES`. KIND is `reply`, `head` for a reply to a `HEAD` request, or
//! `request`. LIMIT is how many bytes the body may have. BYTES are in lower-case hexadecimal. Empty
//! lines and those that begin with `#` are passed over, and of another line it prints `bad`.
//!
//! A long case is a line `long KIND LIMIT PART ..`. Each PART is `COUNT*BYTES`: these bytes, so many
//! times.
//!
//! For a case it prints what the whole comes to; the same for pieces of 1, 2 and 7 bytes, and for a
//! body that is read in pieces, which has no limit, where that is something else. A text of more
//! than 2,000 characters is told by its length and by a sum. For a case that isn't long it then
//! prints a letter for each front of it, at how many of its reads the link can fail, and the text
//! that is written for it.
#![tactic(auto)]

mod case;
mod failing;
mod front;
mod opened;
mod outcome;
mod written;

use crate::case::{Case, read_case};
use crate::failing::failing;
use crate::front::letters;
use crate::opened::open;
use crate::outcome::{read, told};
use crate::written::written;
use hr_base::Memory;
use std::alloc::Global;
use std::io;

fn main(rt: HostRuntime) -> io::Result<()> {
    let alloc = rt.alloc();
    for line in rt.lines(alloc) {
        match take(alloc, line?.as_str()) {
            Ok(said) => rt.print(said.as_str())?,
            Err(Memory) => rt.print("memory\n")?,
        }
    }
    Ok(())
}

// What is printed for a line.
fn take(alloc: Global, line: &str) -> Result<String, Memory> {
    if line.is_empty() || line.starts_with('#') {
        return Ok(String::new(alloc));
    }
    match read_case(alloc, line)? {
        Some(case) => tell(alloc, &case),
        None => Ok(format!(in alloc; "bad {line}\n")?),
    }
}

// What a case comes to.
fn tell(alloc: Global, case: &Case) -> Result<String, Memory> {
    let whole = told(alloc, &read(alloc, case, case.bytes.view(), 0)?)?;
    let mut said = format!(in alloc; "{whole}\n")?;
    for piece in [1u64, 2, 7] {
        said.push_str(in_pieces(alloc, case, piece, whole.as_str())?.as_str())?;
    }
    said.push_str(in_opened(alloc, case, whole.as_str())?.as_str())?;
    if !case.long {
        said.push_str(cut_off(alloc, case)?.as_str())?;
    }
    Ok(said)
}

// What it comes to in pieces of so many bytes, where that is something else.
fn in_pieces(alloc: Global, case: &Case, piece: u64, whole: &str) -> Result<String, Memory> {
    let again = told(alloc, &read(alloc, case, case.bytes.view(), piece)?)?;
    if again.as_str() == whole {
        return Ok(String::new(alloc));
    }
    Ok(format!(in alloc; "in pieces of {piece}: {again}\n")?)
}

// What it comes to where the body is read in pieces, where that is something else.
fn in_opened(alloc: Global, case: &Case, whole: &str) -> Result<String, Memory> {
    let Some(came) = open(alloc, case)? else {
        return Ok(String::new(alloc));
    };
    let again = told(alloc, &came)?;
    if again.as_str() == whole {
        return Ok(String::new(alloc));
    }
    Ok(format!(in alloc; "opened: {again}\n")?)
}

// What a case that isn't long comes to cut off, over a link that fails, and written.
fn cut_off(alloc: Global, case: &Case) -> Result<String, Memory> {
    let mut said = letters(alloc, case)?;
    said.push_str(failing(alloc, case)?.as_str())?;
    said.push_str(written(alloc, case)?.as_str())?;
    Ok(said)
}
