//! The reading of a name byte by byte: what is read so far, by what may follow it.
ghost use Rattle.std.specs.Prelude.{◌≡◌, ◌==◌, if◌then◌else◌, false, is_none, MatchOption};
ghost use Rattle.hr_name.specs.Alphabet.{stands_in_run};
ghost use Rattle.hr_name.specs.Front.{IsFaultAt};
ghost use Rattle.hr_name.specs.Name.{IsName};
ghost use Rattle.hr_name.specs.Place.{is_name, Moves};

use crate::alphabet::stands_in_run;

/// Where the reading of a name stands.
#[derive(Clone, Copy, Debug, PartialEq, Eq)]
pub(crate) enum Place {
    /// At the start of a component.
    Start,
    /// Behind a letter or a digit. The text may end here alone.
    Run,
    /// Behind a `.` that follows a run.
    Dot,
    /// Behind one `_` that follows a run.
    Underscore,
    /// Behind `__` that follows a run.
    Underscores,
    /// Behind one or more `-` that follow a run.
    Dashes,
}

impl Place {
    // The place behind one byte more, or `None` where no name goes on with it.
    fn after(self, byte: u8) -> Option<Place>
        ensures { Moves self byte result }
    {
        if stands_in_run(byte) {
            return Some(Place::Run);
        }
        match self {
            Place::Run => after_run(byte),
            Place::Underscore => one_more(byte, b'_', Place::Underscores),
            Place::Dashes => one_more(byte, b'-', Place::Dashes),
            Place::Start | Place::Dot | Place::Underscores => None,
        }
    }
}

// This place behind this one byte alone.
fn one_more(byte: u8, wanted: u8, place: Place) -> Option<Place>
    ensures { result ≡ (if byte == wanted then Some place else None) }
{
    if byte == wanted { Some(place) } else { None }
}

// The place behind a run and a byte that doesn't stand in runs.
fn after_run(byte: u8) -> Option<Place>
    requires { stands_in_run byte ≡ false }
    ensures { Moves Place.Run byte result }
{
    match byte {
        b'.' => Some(Place::Dot),
        b'_' => Some(Place::Underscore),
        b'-' => Some(Place::Dashes),
        b'/' => Some(Place::Start),
        _ => None,
    }
}

/// Where the text leaves the grammar of names, or `None` for a name.
pub(crate) fn name_fault(text: &[u8]) -> Option<usize>
    ensures place { MatchOption result (IsName text.now) (λ at. IsFaultAt IsName text.now at) }
    ensures test { is_none result ≡ is_name text.now }
{
    let mut place = Place::Start;
    for (at, byte) in text.iter().enumerate() {
        let Some(next) = place.after(*byte) else {
            return Some(at);
        };
        place = next;
    }
    match place {
        Place::Run => None,
        _ => Some(text.len()),
    }
}
