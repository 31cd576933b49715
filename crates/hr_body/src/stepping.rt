//! The steps of the reading of a body (RFC 9112, sections 6.3 and 7.1).
ghost use Rattle.std.specs.Prelude.{◌≡◌, ◌≢◌, ◌<◌, ◌≤◌, ℕ, IfSome, true, false};
ghost use Rattle.hr_body.specs.Reading.{IsFound};
ghost use Rattle.hr_body.specs.Stage.{step_of, ahead, coding_ahead, stage_past};
ghost use Rattle.hr_body.specs.Stage.{WantsData, WantsAtLeast};

use crate::line::{behind_part, in_line};
use crate::{Coding, LINE_LIMIT, Part, Stage};

/// The stage behind a byte of the chunked coding that is no data, or `None` where no body goes on
/// with it.
#[tactic(auto, unfolding(crate::specs::Stage::step_of))]
pub(crate) fn step(coding: Coding, byte: u8) -> Option<Stage>
    ensures next { result ≡ step_of (Stage.Between coding) byte }
    ensures less { IfSome result (λ stage. ahead stage < coding_ahead coding) }
{
    match coding {
        Coding::Line { room: 0, part: _ } => None,
        Coding::Line { room, part } => behind_part(room - 1, part, byte),
        Coding::DataEnd => {
            if byte == b'\r' {
                Some(Stage::Between(Coding::DataFeed))
            } else {
                None
            }
        }
        Coding::DataFeed => {
            if byte == b'\n' {
                Some(in_line(LINE_LIMIT, Part::Size { count: 0, value: 0 }))
            } else {
                None
            }
        }
    }
}

/// How many bytes of data may be taken at once.
pub(crate) fn most_data(stage: Stage) -> u64
    requires { WantsData stage }
    ensures some { 0 < result }
    ensures fits { (n : ℕ) → n ≤ result → WantsAtLeast stage n }
{
    match stage {
        Stage::Chunk { more } | Stage::Sized { more } => more.saturating_add(1),
        Stage::ToEnd => u64::MAX,
        Stage::Between(_) | Stage::Done => unreachable!(),
    }
}

/// The stage behind so many bytes of data.
pub(crate) fn behind_data(stage: Stage, count: u64) -> Stage
    requires { WantsData stage }
    ensures { result ≡ stage_past stage count }
{
    match stage {
        Stage::Chunk { more } => {
            if more < count {
                Stage::Between(Coding::DataEnd)
            } else {
                Stage::Chunk { more: more - count }
            }
        }
        Stage::Sized { more } => {
            if more < count {
                Stage::Done
            } else {
                Stage::Sized { more: more - count }
            }
        }
        other => other,
    }
}

/// Whether the body is at its end.
pub(crate) fn is_done(stage: Stage) -> bool
    ensures done { result ≡ true → stage ≡ Stage.Done }
    ensures other { result ≡ false → stage ≢ Stage.Done }
    ensures wants { result ≡ false → IsFound stage → WantsData stage }
{
    matches!(stage, Stage::Done)
}
