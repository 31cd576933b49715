//! The answers that have more to tell than one number. (Our own.)
ghost use Rattle.std.specs.Prelude.{◌≡◌, ◌++◌, ◌∷◌, codes, OnOk};
ghost use Rattle.std.specs.Fmt.{decimal};
ghost use Rattle.hr_digest.specs.Digest.{text_of_digest};
ghost use Rattle.hr_print.specs.Cause.{cause_text};
ghost use Rattle.hr_print.specs.Step.{step_text, TellsStep};
ghost use Rattle.hr_print.specs.Text.{counts_text, end_text, received_text, view_text};
ghost use Rattle.hr_print.specs.Word.{mark_text, status_text};

use crate::cause::push_cause;
use crate::piece::{push_between, push_digest, push_number, push_numbers, push_tag, push_words};
use crate::step::push_step;
use crate::word::{exec_status_word, mark_word, status_word};
use hr_base::{ExecNo, JobNo, Mark, Memory, Status};
use hr_digest::Digest;
use hr_event::{Cause, ExecView, Received, What};
use hr_name::{Name, Tag};
use std::alloc::Global;

/// Adds an execution that was made, with its count of tasks.
pub(crate) fn push_created(
    alloc: Global,
    text: &mut Vec<u8>,
    exec: ExecNo,
    tasks: u32,
) -> Result<(), Memory>
    ensures { OnOk result (text.new.items ≡ text.old.items
        ++ codes "execution " ++ decimal exec.0 ++ codes " tasks " ++ decimal tasks) }
{
    push_numbers(
        alloc,
        text,
        "execution ",
        exec.0 as u64,
        " tasks ",
        tasks as u64,
    )
}

/// Adds a job, and a word behind further ones.
pub(crate) fn push_job_word(
    alloc: Global,
    text: &mut Vec<u8>,
    job: JobNo,
    between: &str,
    word: &str,
) -> Result<(), Memory>
    ensures { OnOk result (text.new.items
        ≡ text.old.items ++ codes "job " ++ decimal job.0 ++ between.now ++ word.now) }
{
    push_between(alloc, text, "job ", job.0, between)?;
    push_words(text, word)
}

/// Adds a job, and a number behind words.
pub(crate) fn push_job_number(
    alloc: Global,
    text: &mut Vec<u8>,
    job: JobNo,
    between: &str,
    number: u64,
) -> Result<(), Memory>
    ensures { OnOk result (text.new.items
        ≡ text.old.items ++ codes "job " ++ decimal job.0 ++ between.now ++ decimal number) }
{
    push_numbers(alloc, text, "job ", job.0 as u64, between, number)
}

/// Adds the revision of a job that began.
pub(crate) fn push_began(
    alloc: Global,
    text: &mut Vec<u8>,
    job: JobNo,
    rev: u8,
) -> Result<(), Memory>
    ensures { OnOk result (text.new.items ≡ text.old.items
        ++ codes "job " ++ decimal job.0 ++ codes " rev " ++ decimal rev ++ codes " begins") }
{
    push_job_number(alloc, text, job, " rev ", rev as u64)?;
    push_words(text, " begins")
}

/// Adds the status at which a job was final already.
pub(crate) fn push_final(
    alloc: Global,
    text: &mut Vec<u8>,
    job: JobNo,
    rev: u8,
    status: Status,
) -> Result<(), Memory>
    ensures { OnOk result (text.new.items ≡ text.old.items
        ++ codes "job " ++ decimal job.0 ++ codes " final " ++ decimal rev
        ++ 32 ∷ status_text status) }
{
    push_job_number(alloc, text, job, " final ", rev as u64)?;
    push_words(text, " ")?;
    push_words(text, status_word(status))
}

/// Adds the row of a job.
pub(crate) fn push_row(
    alloc: Global,
    text: &mut Vec<u8>,
    job: JobNo,
    rev: u8,
    status: Status,
) -> Result<(), Memory>
    ensures { OnOk result (text.new.items ≡ text.old.items
        ++ codes "row " ++ decimal job.0 ++ codes " " ++ decimal rev ++ 32 ∷ status_text status) }
{
    push_numbers(alloc, text, "row ", job.0 as u64, " ", rev as u64)?;
    push_words(text, " ")?;
    push_words(text, status_word(status))
}

/// Adds the mark of a revision.
pub(crate) fn push_mark(
    alloc: Global,
    text: &mut Vec<u8>,
    job: JobNo,
    rev: u8,
    mark: Mark,
) -> Result<(), Memory>
    ensures { OnOk result (text.new.items ≡ text.old.items
        ++ codes "word " ++ decimal job.0 ++ codes " " ++ decimal rev ++ 32 ∷ mark_text mark) }
{
    push_numbers(alloc, text, "word ", job.0 as u64, " ", rev as u64)?;
    push_words(text, " ")?;
    push_words(text, mark_word(mark))
}

/// Adds what a step of a job did.
pub(crate) fn push_did(
    alloc: Global,
    text: &mut Vec<u8>,
    job: JobNo,
    what: &What,
) -> Result<(), Memory>
    requires { TellsStep what.now }
    ensures { OnOk result (text.new.items ≡ text.old.items
        ++ codes "job " ++ decimal job.0 ++ codes " " ++ step_text what.now) }
{
    push_between(alloc, text, "job ", job.0, " ")?;
    push_step(alloc, text, what)
}

/// Adds how a revision of a job ended.
pub(crate) fn push_ended(
    alloc: Global,
    text: &mut Vec<u8>,
    job: JobNo,
    status: Status,
    cause: &Option<Cause>,
) -> Result<(), Memory>
    ensures { OnOk result (text.new.items ≡ text.old.items
        ++ codes "job " ++ decimal job.0 ++ codes " ended " ++ end_text status cause.now) }
{
    push_job_word(alloc, text, job, " ended ", status_word(status))?;
    match cause {
        Some(cause) => {
            push_words(text, " ")?;
            push_cause(alloc, text, cause)
        }
        None => Ok(()),
    }
}

/// Adds what became of a hook.
pub(crate) fn push_heard(
    alloc: Global,
    text: &mut Vec<u8>,
    hook: u32,
    received: Received,
) -> Result<(), Memory>
    ensures { OnOk result (text.new.items ≡ text.old.items
        ++ codes "hook " ++ decimal hook ++ codes " " ++ received_text received) }
{
    push_between(alloc, text, "hook ", hook, " ")?;
    push_received(text, received)
}

// What the task manager did with a hook.
fn push_received(text: &mut Vec<u8>, received: Received) -> Result<(), Memory>
    ensures { OnOk result (text.new.items ≡ text.old.items ++ received_text received) }
{
    match received {
        Received::Raised => push_words(text, "raised"),
        Received::Known => push_words(text, "known"),
        Received::Unconfirmed(mark) => push_unconfirmed(text, mark),
        Received::Unknown => push_words(text, "unknown"),
        Received::Swept => push_words(text, "swept"),
    }
}

// The job's word does not cover the hook.
fn push_unconfirmed(text: &mut Vec<u8>, mark: Mark) -> Result<(), Memory>
    ensures { OnOk result
        (text.new.items ≡ text.old.items ++ codes "unconfirmed " ++ mark_text mark) }
{
    push_words(text, "unconfirmed ")?;
    push_words(text, mark_word(mark))
}

/// Adds a tag of a repository, and the manifest that it names.
pub(crate) fn push_tag_line(
    alloc: Global,
    text: &mut Vec<u8>,
    repo: &Name,
    tag: &Tag,
    digest: &Digest,
) -> Result<(), Memory>
    ensures { OnOk result (text.new.items ≡ text.old.items
        ++ repo.now ++ 32 ∷ tag.now ++ 32 ∷ text_of_digest digest.now) }
{
    text.extend_from_slice(repo.view())?;
    push_tag(text, " ", tag)?;
    push_digest(alloc, text, " ", digest)
}

/// Adds an execution.
pub(crate) fn push_view(alloc: Global, text: &mut Vec<u8>, view: &ExecView) -> Result<(), Memory>
    ensures { OnOk result (text.new.items ≡ text.old.items ++ view_text view.now) }
{
    push_between(alloc, text, "execution ", view.exec.0, " ")?;
    push_words(text, exec_status_word(view.status))?;
    push_counts(alloc, text, view)
}

// How many rows an execution has, and how many of each kind.
fn push_counts(alloc: Global, text: &mut Vec<u8>, view: &ExecView) -> Result<(), Memory>
    ensures { OnOk result (text.new.items ≡ text.old.items ++ counts_text view.now) }
{
    push_numbers(
        alloc,
        text,
        " total ",
        view.total as u64,
        " succeed ",
        view.succeed as u64,
    )?;
    push_numbers(
        alloc,
        text,
        " failed ",
        view.failed as u64,
        " in_progress ",
        view.in_progress as u64,
    )?;
    push_number(alloc, text, " stopped ", view.stopped as u64)
}

/// Adds the cause of a revision's error.
pub(crate) fn push_cause_line(
    alloc: Global,
    text: &mut Vec<u8>,
    job: JobNo,
    rev: u8,
    cause: &Cause,
) -> Result<(), Memory>
    ensures { OnOk result (text.new.items ≡ text.old.items
        ++ codes "cause " ++ decimal job.0 ++ codes " " ++ decimal rev
        ++ codes " " ++ cause_text cause.now) }
{
    push_numbers(alloc, text, "cause ", job.0 as u64, " ", rev as u64)?;
    push_words(text, " ")?;
    push_cause(alloc, text, cause)
}
