//! The name of a board, so that a seat behind a lock is known to be a seat of that board.
ghost use Rattle.atomic_table.specs.Seated.{TableId};

use std::marker::Brand;

/// Names one board. Whoever opens a board calls at `Brand`, and picks the name there.
pub trait Naming {
    /// The table of its words.
    ghost table: { TableId };
}

impl Naming for Brand {
    ghost use Rattle.hr_ruled.specs.Seats.{no_table};

    ghost table = { no_table };
}
