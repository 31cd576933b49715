//! A case, as its lines say it.

use crate::numbers::{Digits, decoded, numbers, write_counted, write_steps};
use crate::tasks::{Task, task_of};
use hr_base::{Bytes, List, Memory};
use std::alloc::Global;
use std::mem;

/// What is printed of what a run keeps.
#[derive(Clone, Copy, Debug, PartialEq, Eq)]
pub enum Show {
    /// The entries of the journal.
    Journal,
    /// Why revisions ended with an error.
    Causes,
    /// The tags of each registry that lead to a manifest.
    Tags,
    /// All that each registry holds.
    Content,
    /// The hooks, the first to be emitted first.
    Hooks,
    /// The last opened revision of each job that is kept, with its status.
    Words,
    /// Each execution that is kept, with its rows and the hooks that they received.
    Rows,
}

/// What the lines of a case have said so far.
#[derive(Drop)]
pub struct Case {
    /// The words behind the program's name.
    pub words: Vec<Bytes>,
    pub input: Vec<u8>,
    pub pieces: List<u64>,
    pub failing_reads: List<u64>,
    pub failing_writes: List<u64>,
    /// Files, each its path and its bytes.
    pub files: List<(Bytes, Bytes)>,
    pub failing_files: List<u64>,
    pub shows: Vec<Show>,
    pub tasks: Vec<Task>,
}

impl Case {
    /// A case of which nothing was said.
    pub fn new(alloc: Global) -> Case {
        Case {
            words: Vec::new(alloc),
            input: Vec::new(alloc),
            pieces: List::new(alloc),
            failing_reads: List::new(alloc),
            failing_writes: List::new(alloc),
            files: List::new(alloc),
            failing_files: List::new(alloc),
            shows: Vec::new(alloc),
            tasks: Vec::new(alloc),
        }
    }

    /// Takes a line of this kind, and answers whether there is such a line.
    pub fn add(&mut self, alloc: Global, kind: &str, rest: &str) -> Result<bool, Memory> {
        match kind {
            "word" => self.add_word(alloc, rest),
            "text" => self.add_text(alloc, rest, b""),
            "line" => self.add_text(alloc, rest, b"\n"),
            "each" => self.add_each(alloc, rest, Digits::Hexadecimal),
            "count" => self.add_each(alloc, rest, Digits::Decimal),
            "steps" => self.add_steps(alloc, rest),
            "file" => self.add_file(alloc, rest),
            "show" => self.add_show(rest),
            "task" => self.add_task(alloc, rest),
            _ => self.add_numbers(alloc, kind, rest),
        }
    }

    fn add_word(&mut self, alloc: Global, word: &str) -> Result<bool, Memory> {
        let word = decoded(alloc, word)?;
        self.words.push(Bytes::from(word))?;
        Ok(true)
    }

    // Puts a text with its end behind the input.
    fn add_text(&mut self, alloc: Global, text: &str, end: &[u8]) -> Result<bool, Memory> {
        let text = decoded(alloc, text)?;
        self.input.extend_from_slice(&text)?;
        self.input.extend_from_slice(end)?;
        Ok(true)
    }

    fn add_each(&mut self, alloc: Global, rest: &str, digits: Digits) -> Result<bool, Memory> {
        let Some((from, to, text)) = range_of(rest) else {
            return Ok(false);
        };
        let text = decoded(alloc, text)?;
        for number in from..to {
            write_counted(alloc, &mut self.input, number, digits, &text)?;
        }
        Ok(true)
    }

    fn add_steps(&mut self, alloc: Global, rest: &str) -> Result<bool, Memory> {
        let jobs = numbers(alloc, rest)?;
        write_steps(alloc, &mut self.input, jobs.view())?;
        Ok(true)
    }

    // Makes the input a file, and begins it anew.
    fn add_file(&mut self, alloc: Global, path: &str) -> Result<bool, Memory> {
        let path = Bytes::from(decoded(alloc, path)?);
        let bytes = mem::replace(&mut self.input, Vec::new(alloc));
        self.files.push((path, Bytes::from(bytes)))?;
        Ok(true)
    }

    fn add_show(&mut self, what: &str) -> Result<bool, Memory> {
        let Some(show) = show_of(what) else {
            return Ok(false);
        };
        self.shows.push(show)?;
        Ok(true)
    }

    fn add_task(&mut self, alloc: Global, rest: &str) -> Result<bool, Memory> {
        let Some(task) = task_of(alloc, rest) else {
            return Ok(false);
        };
        self.tasks.push(task)?;
        Ok(true)
    }

    fn add_numbers(&mut self, alloc: Global, kind: &str, rest: &str) -> Result<bool, Memory> {
        let list = numbers(alloc, rest)?;
        match kind {
            "pieces" => self.pieces = list,
            "failing_reads" => self.failing_reads = list,
            "failing_writes" => self.failing_writes = list,
            "failing_files" => self.failing_files = list,
            _ => return Ok(false),
        }
        Ok(true)
    }
}

// Two numbers and the text behind them.
fn range_of(rest: &str) -> Option<(u64, u64, &str)> {
    let (from, rest) = rest.split_once(' ')?;
    let (to, text) = rest.split_once(' ')?;
    Some((from.parse().ok()?, to.parse().ok()?, text))
}

fn show_of(what: &str) -> Option<Show> {
    match what {
        "journal" => Some(Show::Journal),
        "causes" => Some(Show::Causes),
        "tags" => Some(Show::Tags),
        "content" => Some(Show::Content),
        "hooks" => Some(Show::Hooks),
        "words" => Some(Show::Words),
        "rows" => Some(Show::Rows),
        _ => None,
    }
}
