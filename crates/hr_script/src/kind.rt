//! The first words of lines. (Our own.)
ghost use Rattle.std.specs.Prelude.{◌≡◌};
ghost use Rattle.hr_script.specs.Kind.{event_kind, is_later, is_one_of, is_setup, kind_of, later_events, later_setup, question_kind, setup_kind};

use crate::refusal::Why;

/// What kind of line a first word begins.
#[derive(Clone, Copy, Debug, PartialEq, Eq)]
pub(crate) enum Kind {
    Image,
    Index,
    Orphan,
    Manifest,
    Break,
    Fault,
    Lands,
    Change,
    Jobs,
    Trigger,
    Take,
    Step,
    Settle,
    Stop,
    Deliver,
    Forge,
    Wait,
    Sweep,
    Finish,
    Tags,
    Row,
    Exec,
    Word,
    Cause,
    /// Lines of the language that are not read yet.
    Later,
}

impl Kind {
    /// The kind of the lines that a word begins.
    pub(crate) fn of(word: &[u8]) -> Result<Kind, Why>
        ensures { result ≡ kind_of word.now }
    {
        if let Some(kind) = setup_kind(word) {
            return Ok(kind);
        }
        if let Some(kind) = event_kind(word) {
            return Ok(kind);
        }
        if let Some(kind) = question_kind(word) {
            return Ok(kind);
        }
        if is_later(word) {
            return Ok(Kind::Later);
        }
        Err(Why::Word)
    }

    /// Whether such a line sets something up, and so stands before the first event.
    pub(crate) fn is_setup(self) -> bool
        ensures { result ≡ is_setup self }
    {
        match self {
            Kind::Image | Kind::Index | Kind::Orphan | Kind::Manifest => true,
            Kind::Break | Kind::Fault | Kind::Lands | Kind::Change | Kind::Jobs => true,
            _ => false,
        }
    }
}

// The kind of the setup lines that a word begins.
fn setup_kind(word: &[u8]) -> Option<Kind>
    ensures { result ≡ setup_kind word.now }
{
    if word == b"image".as_slice() {
        return Some(Kind::Image);
    }
    if word == b"index".as_slice() {
        return Some(Kind::Index);
    }
    if word == b"orphan".as_slice() {
        return Some(Kind::Orphan);
    }
    if word == b"manifest".as_slice() {
        return Some(Kind::Manifest);
    }
    if word == b"break".as_slice() {
        return Some(Kind::Break);
    }
    if word == b"fault".as_slice() {
        return Some(Kind::Fault);
    }
    if word == b"lands".as_slice() {
        return Some(Kind::Lands);
    }
    if word == b"change".as_slice() {
        return Some(Kind::Change);
    }
    if word == b"jobs".as_slice() {
        return Some(Kind::Jobs);
    }
    None
}

// The kind of the events that a word begins, where they do something.
fn event_kind(word: &[u8]) -> Option<Kind>
    ensures { result ≡ event_kind word.now }
{
    if word == b"trigger".as_slice() {
        return Some(Kind::Trigger);
    }
    if word == b"take".as_slice() {
        return Some(Kind::Take);
    }
    if word == b"step".as_slice() {
        return Some(Kind::Step);
    }
    if word == b"settle".as_slice() {
        return Some(Kind::Settle);
    }
    if word == b"stop".as_slice() {
        return Some(Kind::Stop);
    }
    if word == b"deliver".as_slice() {
        return Some(Kind::Deliver);
    }
    if word == b"forge".as_slice() {
        return Some(Kind::Forge);
    }
    if word == b"wait".as_slice() {
        return Some(Kind::Wait);
    }
    if word == b"sweep".as_slice() {
        return Some(Kind::Sweep);
    }
    if word == b"finish".as_slice() {
        return Some(Kind::Finish);
    }
    None
}

// The kind of the events that a word begins, where they ask for something.
fn question_kind(word: &[u8]) -> Option<Kind>
    ensures { result ≡ question_kind word.now }
{
    if word == b"tags".as_slice() {
        return Some(Kind::Tags);
    }
    if word == b"row".as_slice() {
        return Some(Kind::Row);
    }
    if word == b"exec".as_slice() {
        return Some(Kind::Exec);
    }
    if word == b"word".as_slice() {
        return Some(Kind::Word);
    }
    if word == b"cause".as_slice() {
        return Some(Kind::Cause);
    }
    None
}

// Whether a word of the language begins lines that are not read yet.
fn is_later(word: &[u8]) -> bool
    ensures { result ≡ is_later word.now }
{
    is_later_setup(word) || is_later_event(word)
}

// Whether a word begins setup lines that are not read yet.
fn is_later_setup(word: &[u8]) -> bool
    ensures { result ≡ is_one_of later_setup word.now }
{
    word == b"lanes".as_slice()
        || word == b"policy".as_slice()
        || word == b"schedule".as_slice()
        || word == b"label".as_slice()
        || word == b"conflict".as_slice()
}

// Whether a word begins events that are not read yet.
fn is_later_event(word: &[u8]) -> bool
    ensures { result ≡ is_one_of later_events word.now }
{
    word == b"due".as_slice()
}
