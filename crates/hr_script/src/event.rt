//! What the words behind the first one of an event's line mean. (Our own.)
ghost use Rattle.std.specs.Option.{option_copied};
ghost use Rattle.hr_script.specs.Event.{cause_of, deliver_of, exec_of, finish_of, forge_of, only_job, only_number, row_of, settle_of, step_of, stop_of, sweep_of, tags_of, take_of, trigger_of, wait_of, word_of};
ghost use Rattle.hr_script.specs.Meaning.{Answers};
ghost use Rattle.hr_script.specs.Text.{words_left};

use crate::line::Line;
use crate::refusal::Refused;
use crate::split::{end_words, take_word};
use crate::status::read_status;
use crate::word::{read_job, read_policy, read_registry, read_revision, read_seconds, read_small};
use hr_base::{ExecNo, Hook, JobNo};
use hr_event::Event;

/// What the words behind `trigger` mean.
pub(crate) fn read_trigger(words: Option<&[u8]>) -> Result<Line, Refused>
    ensures { Answers (trigger_of (words_left (option_copied words.entry))) result }
{
    let (policy, words) = take_word(words)?;
    end_words(words)?;
    let policy = read_policy(policy)?;
    Ok(Line::Event(Event::Trigger { policy }))
}

/// What the words behind `take` mean, of which there are none.
pub(crate) fn read_take(words: Option<&[u8]>) -> Result<Line, Refused>
    ensures { Answers (take_of (words_left (option_copied words.entry))) result }
{
    end_words(words)?;
    Ok(Line::Event(Event::Take))
}

/// What the words behind `step` mean.
pub(crate) fn read_step(words: Option<&[u8]>) -> Result<Line, Refused>
    ensures { Answers (step_of (words_left (option_copied words.entry))) result }
{
    let job = read_only_job(words)?;
    Ok(Line::Event(Event::Step { job }))
}

/// What the words behind `settle` mean.
pub(crate) fn read_settle(words: Option<&[u8]>) -> Result<Line, Refused>
    ensures { Answers (settle_of (words_left (option_copied words.entry))) result }
{
    let job = read_only_job(words)?;
    Ok(Line::Event(Event::Settle { job }))
}

/// What the words behind `stop` mean.
pub(crate) fn read_stop(words: Option<&[u8]>) -> Result<Line, Refused>
    ensures { Answers (stop_of (words_left (option_copied words.entry))) result }
{
    let job = read_only_job(words)?;
    Ok(Line::Event(Event::Stop { job }))
}

/// What the words behind `deliver` mean: the number of a hook.
pub(crate) fn read_deliver(words: Option<&[u8]>) -> Result<Line, Refused>
    ensures { Answers (deliver_of (words_left (option_copied words.entry))) result }
{
    let hook = read_only_number(words)?;
    Ok(Line::Event(Event::Deliver { hook }))
}

/// What the words behind `forge` mean: a hook, by its job, its revision and its status.
pub(crate) fn read_forge(words: Option<&[u8]>) -> Result<Line, Refused>
    ensures { Answers (forge_of (words_left (option_copied words.entry))) result }
{
    let (job, words) = take_word(words)?;
    let (rev, words) = take_word(words)?;
    let (status, words) = take_word(words)?;
    end_words(words)?;
    let job = read_job(job)?;
    let rev = read_revision(rev)?;
    let status = read_status(status)?;
    let hook = Hook { job, rev, status };
    Ok(Line::Event(Event::Forge { hook }))
}

/// What the words behind `wait` mean.
pub(crate) fn read_wait(words: Option<&[u8]>) -> Result<Line, Refused>
    ensures { Answers (wait_of (words_left (option_copied words.entry))) result }
{
    let (seconds, words) = take_word(words)?;
    end_words(words)?;
    let seconds = read_seconds(seconds)?;
    Ok(Line::Event(Event::Wait { seconds }))
}

/// What the words behind `sweep` mean: how many executions are kept of each policy.
pub(crate) fn read_sweep(words: Option<&[u8]>) -> Result<Line, Refused>
    ensures { Answers (sweep_of (words_left (option_copied words.entry))) result }
{
    let keep = read_only_number(words)?;
    Ok(Line::Event(Event::Sweep { keep }))
}

/// What the words behind `finish` mean, of which there are none.
pub(crate) fn read_finish(words: Option<&[u8]>) -> Result<Line, Refused>
    ensures { Answers (finish_of (words_left (option_copied words.entry))) result }
{
    end_words(words)?;
    Ok(Line::Event(Event::Finish))
}

/// What the words behind `tags` mean.
pub(crate) fn read_tags(words: Option<&[u8]>) -> Result<Line, Refused>
    ensures { Answers (tags_of (words_left (option_copied words.entry))) result }
{
    let (reg, words) = take_word(words)?;
    end_words(words)?;
    let reg = read_registry(reg)?;
    Ok(Line::Event(Event::Tags { reg }))
}

/// What the words behind `row` mean.
pub(crate) fn read_row(words: Option<&[u8]>) -> Result<Line, Refused>
    ensures { Answers (row_of (words_left (option_copied words.entry))) result }
{
    let job = read_only_job(words)?;
    Ok(Line::Event(Event::Row { job }))
}

/// What the words behind `exec` mean: the number of an execution.
pub(crate) fn read_exec(words: Option<&[u8]>) -> Result<Line, Refused>
    ensures { Answers (exec_of (words_left (option_copied words.entry))) result }
{
    let exec = read_only_number(words)?;
    let exec = ExecNo(exec);
    Ok(Line::Event(Event::Exec { exec }))
}

/// What the words behind `word` mean.
pub(crate) fn read_word(words: Option<&[u8]>) -> Result<Line, Refused>
    ensures { Answers (word_of (words_left (option_copied words.entry))) result }
{
    let (job, words) = take_word(words)?;
    let (rev, words) = take_word(words)?;
    end_words(words)?;
    let job = read_job(job)?;
    let rev = read_revision(rev)?;
    Ok(Line::Event(Event::Word { job, rev }))
}

/// What the words behind `cause` mean.
pub(crate) fn read_cause(words: Option<&[u8]>) -> Result<Line, Refused>
    ensures { Answers (cause_of (words_left (option_copied words.entry))) result }
{
    let job = read_only_job(words)?;
    Ok(Line::Event(Event::CauseOf { job }))
}

// The number of a job, which is all that is left of a line.
fn read_only_job(words: Option<&[u8]>) -> Result<JobNo, Refused>
    ensures { Answers (only_job (words_left (option_copied words.entry))) result }
{
    let (job, words) = take_word(words)?;
    end_words(words)?;
    read_job(job)
}

// A number below 2^32, which is all that is left of a line.
fn read_only_number(words: Option<&[u8]>) -> Result<u32, Refused>
    ensures { Answers (only_number (words_left (option_copied words.entry))) result }
{
    let (number, words) = take_word(words)?;
    end_words(words)?;
    read_small(number)
}
