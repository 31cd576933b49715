//! What the words behind the first one mean in a line that plans something for an operation of a
//! lane's connection. (Our own.)
ghost use Rattle.std.specs.Option.{option_copied};
ghost use Rattle.hr_script.specs.Meaning.{Answers};
ghost use Rattle.hr_script.specs.Planned.{change_of, fault_of};
ghost use Rattle.hr_script.specs.Text.{words_left};

use crate::line::Line;
use crate::refusal::Refused;
use crate::split::{end_words, take_word};
use crate::word::{read_lane, read_name, read_operation, read_registry, read_tag};
use std::alloc::Global;

/// What the words behind `fault` mean, or those behind `lands`.
pub(crate) fn read_fault(words: Option<&[u8]>, lands: bool) -> Result<Line, Refused>
    ensures { Answers (fault_of lands (words_left (option_copied words.entry))) result }
{
    let (lane, words) = take_word(words)?;
    let (reg, words) = take_word(words)?;
    let (op, words) = take_word(words)?;
    end_words(words)?;
    Ok(Line::Fault {
        lane: read_lane(lane)?,
        reg: read_registry(reg)?,
        op: read_operation(op)?,
        lands,
    })
}

/// What the words behind `change` mean.
pub(crate) fn read_change(alloc: Global, words: Option<&[u8]>) -> Result<Line, Refused>
    ensures { Answers (change_of (words_left (option_copied words.entry))) result }
{
    let (lane, words) = take_word(words)?;
    let (reg, words) = take_word(words)?;
    let (op, words) = take_word(words)?;
    let (repo, words) = take_word(words)?;
    let (tag, words) = take_word(words)?;
    let (to, words) = take_word(words)?;
    end_words(words)?;
    Ok(Line::Change {
        lane: read_lane(lane)?,
        reg: read_registry(reg)?,
        op: read_operation(op)?,
        repo: read_name(alloc, repo)?,
        tag: read_tag(alloc, tag)?,
        to: read_tag(alloc, to)?,
    })
}
