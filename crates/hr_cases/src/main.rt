//! Worked cases of the public call, as data: it reads cases from standard input, runs each over
//! devices in memory, and prints what it got. What it must print was made by another program,
//! `bench/cases.py`. Start with `case`.
//!
//! A case is some lines, the last of them `run`. Each begins with its kind, and TEXT and WORD are
//! bytes of which each may be written as `%` and two hexadecimal digits:
//!
//! | Line | Says |
//! |---|---|
//! | `case NAME` | a case begins, which has nothing but what the lines behind it say |
//! | `word WORD` | one more word stands behind the program's name |
//! | `text TEXT` | the input goes on with this text |
//! | `line TEXT` | the input goes on with this text and a line feed |
//! | `each FROM TO TEXT` | the input goes on with this text once for each number from FROM to below TO, which stands in the place of each `*` in four hexadecimal digits |
//! | `count FROM TO TEXT` | the same, with the number in decimal |
//! | `steps J ..` | the input goes on with a line `step J` for each of these jobs |
//! | `file PATH` | what the input had so far is a file at this path, and the input begins anew |
//! | `pieces N ..` | the input gives at most so many bytes at its reads, one after the other |
//! | `failing_reads N ..` | the reads with these numbers fail, from 1 |
//! | `failing_writes N ..` | the writes with these numbers fail, from 1 |
//! | `failing_files N ..` | the calls of the tree with these numbers fail, from 1 |
//! | `show WHAT` | prints `journal`, `causes`, `hooks`, `words`, `rows`, `tags` or `content` of what is kept |
//! | `task FROM TO TAG HOW` | a task then copies a tag between registries with what is kept in 1 and 2; HOW is `replace` or `keep` |
//! | `run` | runs the case |
//!
//! Some lines are cases by themselves, and each prints itself with its answer:
//!
//! | Line | Asks |
//! |---|---|
//! | `fits PATTERN TEXT` | whether the text fits the pattern, or what is wrong with the pattern, and where |
//! | `digest TEXT` | which digest the text is, or why it is none |
//! | `hash TEXT` | the digest of these bytes |
//!
//! Empty lines and those that begin with `#` are passed over, and of another line it prints `bad`.
#![tactic(auto)]

mod case;
mod digits;
mod kept;
mod numbers;
mod outcome;
mod registries;
mod single;
mod steps;
mod tasks;
mod words;

use crate::case::Case;
use crate::outcome::run;
use crate::single::{digest, fits, hash};
use hr_base::Memory;
use std::alloc::Global;
use std::{io, mem};

fn main(rt: HostRuntime) -> io::Result<()> {
    let alloc = rt.alloc();
    let mut case = Case::new(alloc);
    for line in rt.lines(alloc) {
        match take(alloc, &mut case, line?.as_str()) {
            Ok(said) => rt.print(said.as_str())?,
            Err(Memory) => rt.print("memory\n")?,
        }
    }
    Ok(())
}

// Takes a line, and answers what is printed for it.
fn take(alloc: Global, case: &mut Case, line: &str) -> Result<String, Memory> {
    let (kind, rest) = line.split_once(' ').unwrap_or((line, ""));
    match kind {
        "" | "#" => Ok(String::new(alloc)),
        "case" => begin(alloc, case, rest),
        "run" => run(alloc, mem::replace(case, Case::new(alloc))),
        "fits" => fits(alloc, rest),
        "digest" => digest(alloc, rest),
        "hash" => hash(alloc, rest),
        _ if case.add(alloc, kind, rest)? => Ok(String::new(alloc)),
        _ => Ok(format!(in alloc; "bad {line}\n")?),
    }
}

// Begins a case with nothing, and answers its first line.
fn begin(alloc: Global, case: &mut Case, name: &str) -> Result<String, Memory> {
    *case = Case::new(alloc);
    Ok(format!(in alloc; "case {name}\n")?)
}
