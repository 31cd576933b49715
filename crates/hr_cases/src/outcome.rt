//! Runs of cases, and what is printed of each.

use crate::case::{Case, Show};
use crate::digits::Plain;
use crate::registries::{write_contents, write_tags};
use crate::steps::{write_causes, write_journal};
use crate::tasks::{Task, write_tasks};
use crate::words::{write_hooks, write_rows, write_words};
use hr_base::{Bytes, Memory};
use hr_cause::{Counted, MemSink, MemSource};
use hr_replay::Ending;
use hr_top::top;
use hr_tree::MemTree;
use std::alloc::Global;

// What a case hands in.
#[derive(Drop)]
struct Devices {
    source: MemSource,
    sink: MemSink,
    tree: MemTree,
}

// A case that is ready to be run.
#[derive(Drop)]
struct Ready {
    words: Vec<Bytes>,
    devices: Devices,
    shows: Vec<Show>,
    tasks: Vec<Task>,
}

/// Runs a case, and answers what is printed of it: the status, the text that was sent with its
/// length, the faults of the input, of the output and of the tree, and what is to be shown.
pub fn run(alloc: Global, case: Case) -> Result<String, Memory> {
    let mut said = String::new(alloc);
    let mut ready = make_ready(alloc, case)?;
    let kept = call(alloc, &mut said, &mut ready)?;
    write_all(alloc, &mut said, &ready, &kept)?;
    Ok(said)
}

// Makes the devices that a case hands in.
fn make_ready(alloc: Global, case: Case) -> Result<Ready, Memory> {
    let Case {
        words,
        input,
        pieces,
        failing_reads,
        failing_writes,
        files,
        failing_files,
        shows,
        tasks,
    } = case;
    let devices = Devices {
        source: MemSource::new(alloc, Bytes::from(input), pieces, failing_reads)?,
        sink: MemSink::new(alloc, failing_writes)?,
        tree: MemTree::new(alloc, files, failing_files)?,
    };
    Ok(Ready {
        words,
        devices,
        shows,
        tasks,
    })
}

// Makes the call, writes its answer, and answers what it keeps.
fn call(alloc: Global, said: &mut String, ready: &mut Ready) -> Result<Ending, Memory> {
    let mut kept = Ending::nothing();
    let Devices { source, sink, tree } = &mut ready.devices;
    let status = top(alloc, &ready.words, source, sink, tree, &mut kept);
    let sent = sink.sent();
    writeln!(said, "status {status}")?;
    writeln!(said, "sent {} [{}]", sent.len(), Plain(sent))?;
    let (input, output) = (source.faults(), sink.faults());
    writeln!(said, "faults {input} {output} {}", tree.faults())?;
    Ok(kept)
}

// Writes what is to be shown of what is kept, and what tasks do with it.
fn write_all(alloc: Global, said: &mut String, ready: &Ready, kept: &Ending) -> Result<(), Memory> {
    for show in &ready.shows {
        write_shown(alloc, said, *show, kept)?;
    }
    write_tasks(alloc, said, kept, &ready.tasks)
}

fn write_shown(alloc: Global, said: &mut String, show: Show, kept: &Ending) -> Result<(), Memory> {
    match show {
        Show::Journal => write_journal(said, kept),
        Show::Causes => write_causes(said, kept),
        Show::Tags => write_tags(said, kept),
        Show::Content => write_contents(alloc, said, kept),
        Show::Hooks => write_hooks(said, kept),
        Show::Words => write_words(alloc, said, kept),
        Show::Rows => write_rows(alloc, said, kept),
    }
}
