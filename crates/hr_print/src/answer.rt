//! The texts of answers, each a line. (Our own.)
ghost use Rattle.std.specs.Prelude.{◌≡◌, ◌++◌, IfOk, OnOk};
ghost use Rattle.std.specs.List.{All};
ghost use Rattle.hr_print.specs.Text.{answer_text, text_of, texts_of, HasText};

use crate::line::{
    push_began, push_cause_line, push_created, push_did, push_ended, push_final, push_heard,
    push_job_number, push_job_word, push_mark, push_row, push_tag_line, push_view,
};
use crate::piece::{push_between, push_number, push_words};
use crate::word::{mark_word, status_word};
use hr_base::{Bytes, Memory};
use hr_event::Told;
use std::alloc::Global;

/// Adds the text of an answer at the end: one line, ended by a line feed. Numbers are decimal,
/// moments in seconds and lengths in bytes; statuses have Harbor's names, and digests their text. An
/// answer that says what a step did has a text where its entry is one by which a step is told. After
/// `Memory` the text may end with a part of the line.
pub fn print(alloc: Global, text: &mut Vec<u8>, told: &Told) -> Result<(), Memory>
    requires { HasText told.now }
    ensures { OnOk result (text.new.items ≡ text.old.items ++ text_of told.now) }
{
    push_answer(alloc, text, told)?;
    push_words(text, "\n")
}

/// The texts of answers, in their order. `Memory` comes where there is no room.
pub fn print_all(alloc: Global, told: &[Told]) -> Result<Bytes, Memory>
    requires { All HasText told.now }
    ensures { IfOk result (λ text. text ≡ texts_of told.now) }
{
    let mut text = Vec::new(alloc);
    for answer in told {
        print(alloc, &mut text, answer)?;
    }
    Ok(Bytes::from(text))
}

// Adds the words of an answer.
fn push_answer(alloc: Global, text: &mut Vec<u8>, told: &Told) -> Result<(), Memory>
    requires { HasText told.now }
    ensures { OnOk result (text.new.items ≡ text.old.items ++ answer_text told.now) }
{
    match told {
        Told::Created { exec, tasks } => push_created(alloc, text, *exec, *tasks),
        Told::PlanFailed { exec } => push_between(alloc, text, "execution ", exec.0, " failed"),
        Told::Full { jobs } => push_number(alloc, text, "full ", *jobs as u64),
        Told::NoPolicy { policy } => push_number(alloc, text, "no policy ", policy.0 as u64),
        Told::Off { policy } => push_between(alloc, text, "policy ", policy.0, " off"),
        Told::Began { job, rev } => push_began(alloc, text, *job, *rev),
        Told::Lost { job, mark } => push_job_word(alloc, text, *job, " lost ", mark_word(*mark)),
        Told::Later { due } => push_number(alloc, text, "later ", due.0),
        Told::Busy { out } => push_number(alloc, text, "busy ", *out as u64),
        Told::Idle => push_words(text, "idle"),
        Told::Did { job, what } => push_did(alloc, text, *job, what),
        Told::Ended { job, status, cause } => push_ended(alloc, text, *job, *status, cause),
        Told::NotHere { job } => push_between(alloc, text, "job ", job.0, " not here"),
        Told::Done { job, status } => push_job_word(
            alloc,
            text,
            *job,
            " done ",
            status_word(*status),
        ),
        Told::Again { job, due } => push_job_number(alloc, text, *job, " again ", due.0),
        Told::Back { job } => push_between(alloc, text, "job ", job.0, " back"),
        Told::NotOut { job } => push_between(alloc, text, "job ", job.0, " not out"),
        Told::InLane { job } => push_between(alloc, text, "job ", job.0, " busy"),
        Told::Stopped { job, rev } => push_job_number(alloc, text, *job, " stopped ", *rev as u64),
        Told::FinalAt { job, rev, status } => push_final(alloc, text, *job, *rev, *status),
        Told::NoJob { job } => push_number(alloc, text, "no job ", job.0 as u64),
        Told::Heard { hook, received } => push_heard(alloc, text, *hook, *received),
        Told::NoHook { hook } => push_number(alloc, text, "no hook ", *hook as u64),
        Told::Now { now } => push_number(alloc, text, "now ", now.0),
        Told::Swept { count } => push_number(alloc, text, "swept ", *count as u64),
        Told::TagIs { repo, tag, digest } => push_tag_line(alloc, text, repo, tag, digest),
        Told::RowIs { job, rev, status } => push_row(alloc, text, *job, *rev, *status),
        Told::NoRow { job } => push_number(alloc, text, "no row ", job.0 as u64),
        Told::ExecIs { view } => push_view(alloc, text, view),
        Told::NoExec { exec } => push_number(alloc, text, "no execution ", exec.0 as u64),
        Told::WordIs { job, rev, mark } => push_mark(alloc, text, *job, *rev, *mark),
        Told::CauseIs { job, rev, cause } => push_cause_line(alloc, text, *job, *rev, cause),
        Told::NoCause { job } => push_number(alloc, text, "no cause ", job.0 as u64),
    }
}
