//! The program: it hands the words behind its name and the real devices to `hr_top::top`, and ends
//! with the status that comes back.
#![tactic(auto)]

use hr_base::Bytes;
use hr_cause::{StdSink, StdSource};
use hr_top::{Ending, top};
use hr_tree::FileTree;
use std::process::ExitCode;
use std::rt::Env;
use std::{env, io};

/// The status for want of memory, as `top` gives it.
const MEMORY: u8 = 5;

fn main(rt: HostRuntime) -> ExitCode {
    let alloc = rt.alloc();
    let words = match read_words(&rt) {
        Ok(words) => words,
        Err(fault) if fault.kind() == io::ErrorKind::OutOfMemory => return ExitCode::from(MEMORY),
        // A word that is not UTF-8 names no command, and neither do no words.
        Err(_) => Vec::new(alloc),
    };
    let mut input = StdSource::new(rt.stdin());
    let mut output = StdSink::new(rt.stdout());
    let mut tree = FileTree::new(rt);
    let mut kept = Ending::nothing();
    ExitCode::from(top(alloc, &words, &mut input, &mut output, &mut tree, &mut kept))
}

// The words behind the program's name.
fn read_words(rt: &(impl Env + AllocGlobal)) -> io::Result<Vec<Bytes>> {
    let mut words = Vec::new(rt.alloc());
    for word in env::args(rt)?.skip(1) {
        words.push(Bytes::from(word.into_bytes()))?;
    }
    Ok(words)
}
