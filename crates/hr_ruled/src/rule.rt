//! What a seat knows, and the rule that each atomic step keeps. Contracts alone see what a seat
//! knows: no value of it is made. (Our own.)

use atomic_table::{Join, Play, Split, TableRule};
use std::collections::LinkedList;

/// What a seat may do.
#[derive(Clone, Copy, Debug, PartialEq, Eq)]
pub enum Role {
    /// It begins and ends revisions.
    Lane,
    /// It opens revisions.
    Queue,
    /// It stops jobs.
    Control,
    /// It looks alone.
    Reader,
}

/// A move of a seat to a final word.
pub struct FinalMove {
    pub place: u64,
    pub word: u64,
    /// The role under which it was made.
    pub by: Role,
}

/// What a seat knows.
pub struct SeatView {
    pub role: Role,
    /// Its parts of the right to move words, and to know all moves.
    pub parts: u64,
    /// Each place and word that it saw, in order.
    pub notes: LinkedList<(u64, u64)>,
    /// Its own moves to final words, in order.
    pub finals: LinkedList<FinalMove>,
    /// Each place that it opened, in order.
    pub opens: LinkedList<u64>,
}

/// The rule of the words and of all seats. Its key is the number of words.
pub(crate) struct BoardRule;

impl TableRule<u8, SeatView, u64> for BoardRule {
    ghost use Rattle.hr_ruled.specs.Rule.{IsRuled};
    ghost use Rattle.hr_ruled.specs.Seats.{first_seat};

    ghost holds = { λ count state. IsRuled count state.words state.views };

    ghost first = { λ _. first_seat };
}

/// A seat looks at a word.
pub(crate) struct LookStep;

impl Play<u8, SeatView> for LookStep {
    ghost use Rattle.hr_ruled.specs.Rule.{LookTells};

    ghost then = { LookTells };
}

/// A seat moves a word, or finds another there.
pub(crate) struct MoveStep;

impl Play<u8, SeatView> for MoveStep {
    ghost use Rattle.hr_ruled.specs.Rule.{MoveTells};

    ghost then = { MoveTells };
}

/// A lane's seat is split off.
pub(crate) struct LaneSplit;

impl Split<SeatView> for LaneSplit {
    ghost use Rattle.hr_ruled.specs.Seats.{seat_left, seat_given};
    ghost use Rattle.hr_ruled.specs.declared.rule.Role.TheVariants.{Lane};

    ghost left = { λ seat. seat_left seat Lane };

    ghost right = { λ seat. seat_given seat Lane };
}

/// A queue's seat is split off.
pub(crate) struct QueueSplit;

impl Split<SeatView> for QueueSplit {
    ghost use Rattle.hr_ruled.specs.Seats.{seat_left, seat_given};
    ghost use Rattle.hr_ruled.specs.declared.rule.Role.TheVariants.{Queue};

    ghost left = { λ seat. seat_left seat Queue };

    ghost right = { λ seat. seat_given seat Queue };
}

/// A control's seat is split off.
pub(crate) struct ControlSplit;

impl Split<SeatView> for ControlSplit {
    ghost use Rattle.hr_ruled.specs.Seats.{seat_left, seat_given};
    ghost use Rattle.hr_ruled.specs.declared.rule.Role.TheVariants.{Control};

    ghost left = { λ seat. seat_left seat Control };

    ghost right = { λ seat. seat_given seat Control };
}

/// A reader's seat is split off.
pub(crate) struct ReaderSplit;

impl Split<SeatView> for ReaderSplit {
    ghost use Rattle.hr_ruled.specs.Seats.{seat_left, seat_given};
    ghost use Rattle.hr_ruled.specs.declared.rule.Role.TheVariants.{Reader};

    ghost left = { λ seat. seat_left seat Reader };

    ghost right = { λ seat. seat_given seat Reader };
}

/// Two seats become one.
pub(crate) struct SeatJoin;

impl Join<SeatView> for SeatJoin {
    ghost use Rattle.hr_ruled.specs.Seats.{seats_joined, spent_seat};

    ghost both = { seats_joined };

    ghost spent = { spent_seat };
}
