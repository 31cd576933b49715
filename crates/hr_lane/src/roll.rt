//! Entries and hooks as they are written, one after another. (Our own.)
ghost use Rattle.std.specs.Prelude.{◌≡◌, ◌≤◌, ◌<◌, ◌+◌, ◌∷◌, [], OnOk, reverse};
ghost use Rattle.hr_line.specs.Line.{entry_of};

use hr_base::Memory;
use hr_event::{Entry, What};
use hr_line::Admitted;
use std::alloc::Global;
use std::marker::Model;

/// Items that are written one after another. Room is taken before an item is written.
#[derive(Debug, Drop)]
pub(crate) struct Roll<T> {
    items: Vec<T>,
}

impl<T> Model for Roll<T> {
    ghost use Rattle.std.specs.Prelude.{◌-◌, reverse, vec_capacity, vec_len};
    ghost use Rattle.hr_lane.specs.Roll.{Written};

    ghost Value = { Written T };

    ghost view = { λ r. record {
      newest = reverse r.items.items;
      room = vec_capacity r.items - vec_len r.items;
    } };
}

impl<T> Roll<T> {
    /// No items. It takes no memory, and keeps the allocator for those to come.
    pub(crate) fn new(alloc: Global) -> Roll<T>
        ensures { result.newest ≡ [] }
    {
        Roll {
            items: Vec::new(alloc),
        }
    }

    /// Takes room for so many items more.
    pub(crate) fn reserve(&mut self, more: usize) -> Result<(), Memory>
        ensures ok { OnOk result (more ≤ self.new.room) }
        ensures unchanged { self.new.newest ≡ self.old.newest }
        ensures room { self.old.room ≤ self.new.room }
    {
        self.items.reserve(more)?;
        Ok(())
    }

    /// The items, the oldest first.
    pub(crate) fn view(&self) -> &[T]
        ensures { reverse result.now ≡ self.now.newest }
    {
        self.items.as_slice()
    }
}

impl<T: Drop> Roll<T> {
    /// Writes an item, for which there is room.
    pub(crate) fn write(&mut self, item: T)
        requires { 0 < self.old.room }
        ensures written { self.new.newest ≡ item ∷ self.old.newest }
        ensures room { self.old.room ≡ self.new.room + 1 }
    {
        self.items.push_reserved(item);
    }
}

/// Writes what happened to a revision.
pub(crate) fn write(log: &mut Roll<Entry>, by: &Admitted, what: What)
    requires { 0 < log.old.room }
    ensures written { log.new.newest ≡ entry_of by.now what ∷ log.old.newest }
    ensures room { log.old.room ≡ log.new.room + 1 }
{
    log.write(Entry {
        job: by.job,
        rev: by.rev,
        what,
    });
}
