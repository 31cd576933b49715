//! The lines of a script, read up to the first bad one. (Our own.)
ghost use Rattle.std.specs.Prelude.{◌≡◌, ◌≤◌, IfOk, length};
ghost use Rattle.hr_base.specs.Bytes.{Text};
ghost use Rattle.hr_script.specs.Line.{line_meaning};
ghost use Rattle.hr_script.specs.Meaning.{Answers};
ghost use Rattle.hr_script.specs.Reading.{IsReading};
ghost use Rattle.hr_script.specs.declared.reading.Lines.{Lines};

use crate::argument::read_line;
use crate::line::Line;
use crate::progress::Progress;
use crate::refusal::{Fault, Refused};
use crate::split::{is_passed_over, split_line};
use hr_base::{List, Memory};
use std::alloc::Global;

/// How many bytes a script has at most.
pub const SCRIPT_LIMIT: usize = 1_048_576;

/// A line that was read, with its number in the text, from 1.
#[derive(Debug, Drop, PartialEq, Eq)]
pub struct Numbered {
    pub number: u32,
    pub line: Line,
}

/// The lines of a text before its first bad one, in order, and that one.
#[derive(Debug, Drop, PartialEq, Eq)]
pub struct Lines {
    pub lines: List<Numbered>,
    /// `None` where no line is bad.
    pub fault: Option<Fault>,
}

/// Reads the lines of a text of at most `SCRIPT_LIMIT` bytes. They end with LF, which may be missing
/// at the end. Empty lines and those that begin with `#` are passed over, but counted. Want of
/// memory is the one error. It takes time and memory in proportion to the text.
pub fn read_lines(alloc: Global, text: &[u8]) -> Result<Lines, Memory>
    requires { length text.now ≤ SCRIPT_LIMIT }
    ensures ok { IfOk result (IsReading text.now) }
{
    let mut lines = List::new(alloc);
    let mut number = 0u32;
    let mut progress = Progress::start();
    let mut left = text;
    while !left.is_empty() {
        let (line, rest) = split_line(left);
        left = rest;
        number += 1;
        match read_next(alloc, progress, line) {
            Ok(None) => {}
            Ok(Some(line)) => {
                progress = progress.after(&line);
                lines.push(Numbered { number, line })?;
            }
            Err(Refused::Bad(why)) => {
                let fault = Some(Fault { line: number, why });
                return Ok(Lines { lines, fault });
            }
            Err(Refused::Memory) => return Err(Memory),
        }
    }
    Ok(Lines { lines, fault: None })
}

// What a line means, which is nothing where it is passed over.
fn read_next(alloc: Global, progress: Progress, line: &[u8]) -> Result<Option<Line>, Refused>
    ensures { Answers (line_meaning progress line.now) result }
{
    if is_passed_over(line) {
        return Ok(None);
    }
    Ok(Some(read_line(alloc, progress, line)?))
}

/// A law: two readings of a text are equal.
pub fn one_reading()
    ensures { (text : Text) (one other : Lines) → IsReading text one → IsReading text other
        → one ≡ other }
{}

/// A law: no text is without a reading.
pub fn some_reading()
    ensures { (text : Text) → ((lines : Lines) → IsReading text lines → ⊥) → ⊥ }
{}
