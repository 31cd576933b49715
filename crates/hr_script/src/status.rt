//! The names of statuses in lines. (Our own; the names are those of Harbor's job service.)
ghost use Rattle.std.specs.Prelude.{◌≡◌};
ghost use Rattle.hr_script.specs.Meaning.{Answers};
ghost use Rattle.hr_script.specs.Status.{status_in, status_named};

use crate::refusal::{Refused, Why};
use hr_base::Status;

/// The status that a word names.
pub(crate) fn read_status(word: &[u8]) -> Result<Status, Refused>
    ensures { Answers (status_in word.now) result }
{
    match status_named(word) {
        Ok(status) => Ok(status),
        Err(why) => Err(Refused::Bad(why)),
    }
}

// The status that a word names, or that it names none.
fn status_named(word: &[u8]) -> Result<Status, Why>
    ensures { result ≡ status_named word.now }
{
    if word == b"Pending".as_slice() {
        return Ok(Status::Pending);
    }
    if word == b"Scheduled".as_slice() {
        return Ok(Status::Scheduled);
    }
    if word == b"Running".as_slice() {
        return Ok(Status::Running);
    }
    if word == b"Stopped".as_slice() {
        return Ok(Status::Stopped);
    }
    if word == b"Error".as_slice() {
        return Ok(Status::Error);
    }
    if word == b"Success".as_slice() {
        return Ok(Status::Success);
    }
    Err(Why::Policy)
}
