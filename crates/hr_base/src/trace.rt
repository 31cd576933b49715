//! A list that contracts alone see: what an object was told or did, kept for the sake of proofs. It
//! takes no bytes, and its calls no time. (Our own.)
ghost use Rattle.std.specs.Prelude.{◌≡◌, ◌++◌, ◌∷◌, List, []};
ghost use Rattle.std.specs.Borrow.{ftrue};
ghost use base.Stored.{coded_list};

use std::fmt;
use std::fmt::{Debug, Formatter, Write};
use std::marker::{Model, PhantomData};

/// The items so far, in order. It has no bytes, owns nothing, and may go to any thread.
pub struct Trace<T> {
    marker: PhantomData<T>,
    /// What was put there, the oldest first.
    pub ghost items: { List T } by { coded_list T.code },
}

impl<T> Model for Trace<T> {
    ghost also_owns = { λ _. ftrue };
}

impl<T> Trace<T> {
    /// No items.
    pub fn new() -> Trace<T>
        ensures { result.items ≡ [] }
    {
        Trace {
            marker: PhantomData,
        }
    }

    /// The same items, and this one behind them.
    pub fn then(&self, item: &T) -> Trace<T>
        ensures { result.items ≡ self.now.items ++ item.now ∷ [] }
    {
        let _ = item;
        Trace {
            marker: PhantomData,
        }
    }

    /// The same items, and these behind them.
    pub fn then_all(&self, items: &[T]) -> Trace<T>
        ensures { result.items ≡ self.now.items ++ items.now }
    {
        let _ = items;
        Trace {
            marker: PhantomData,
        }
    }
}

unsafe impl<T> Send for Trace<T> {}

unsafe impl<T> Sync for Trace<T> {}

impl<T> Drop for Trace<T> {
    fn drop(self) {
        let Trace { marker: _ } = self;
    }
}

/// It shows its name alone, since it has no items that a program could show.
impl<T> Debug for Trace<T> {
    fn fmt<W: Write>(&self, f: &mut Formatter<W>) -> fmt::Result {
        f.write_str("Trace")
    }
}
