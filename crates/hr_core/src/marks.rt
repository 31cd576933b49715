//! Which hooks were delivered, by their places. (Our own.)
ghost use Rattle.std.specs.Prelude.{◌≡◌, ◌<◌, suc, true, [], OnOk};
ghost use Rattle.std.specs.Vec.{vec_capacity};
ghost use Rattle.hr_core.specs.Marks.{AreSet};
ghost use Rattle.hr_run.specs.State.{was_delivered, with_mark};

use hr_base::Memory;
use std::alloc::Global;
use std::marker::Model;

/// A mark for each hook up to the last that was delivered, and how many at the front are set: so those
/// that are left are found without a look at those before.
#[derive(Drop)]
pub(crate) struct Marks {
    marks: Vec<bool>,
    front: usize,
}

impl Model for Marks {
    ghost use Rattle.std.specs.Vec.{vec_capacity};
    ghost use Rattle.hr_core.specs.Marks.{AreSet, MarkState};

    ghost Value = { MarkState };

    ghost view = { λ m. record { marks = m.marks.items; room = vec_capacity m.marks } };

    ghost invariant = { λ m. AreSet m.marks.items m.front };
}

impl Marks {
    /// No mark. It takes no memory.
    pub(crate) fn new(alloc: Global) -> Marks
        ensures { result.marks ≡ [] }
    {
        Marks {
            marks: Vec::new(alloc),
            front: 0,
        }
    }

    /// How many marks at the front are set.
    pub(crate) fn front(&self) -> usize
        ensures { AreSet self.now.marks result }
    {
        self.front
    }

    /// Whether the mark at a place is set.
    pub(crate) fn has(&self, place: usize) -> bool
        ensures { result ≡ was_delivered self.now.marks (suc place) }
    {
        match self.marks.get(place) {
            Some(mark) => *mark,
            None => false,
        }
    }

    /// Takes room for the mark at a place.
    pub(crate) fn reserve(&mut self, place: usize) -> Result<(), Memory>
        ensures ok { OnOk result (place < self.new.room) }
        ensures same { self.new.marks ≡ self.old.marks }
    {
        if self.marks.len() <= place {
            let Some(more) = (place - self.marks.len()).checked_add(1) else {
                return Err(Memory);
            };
            self.marks.reserve(more)?;
        }
        Ok(())
    }

    /// Sets the mark at a place, for which there is room: what is missing before it was not delivered.
    pub(crate) fn set(&mut self, place: usize)
        requires { place < self.old.room }
        ensures { self.new.marks ≡ with_mark self.old.marks place }
    {
        set_mark(&mut self.marks, place);
        self.front = front_from(self.marks.as_slice(), self.front);
    }
}

// Sets the mark at a place, for which there is room.
fn set_mark(marks: &mut Vec<bool>, place: usize)
    requires { place < vec_capacity marks.old }
    ensures { marks.new.items ≡ with_mark marks.old.items place }
{
    'missing: while marks.len() <= place {
        marks.push_reserved(false);
    }
    marks[place] = true;
}

// How many marks at the front are set, where so many were found to be.
fn front_from(marks: &[bool], found: usize) -> usize
    requires { AreSet marks.now found }
    ensures { AreSet marks.now result }
{
    let mut front = found;
    'more: while front < marks.len() && marks[front] {
        front += 1;
    }
    front
}
