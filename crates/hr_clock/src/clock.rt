//! What may be asked of a clock. (Our own.)
ghost use Rattle.std.specs.Prelude.{◌≡◌, ◌≤◌, ℕ};

use hr_base::{LAST_MOMENT, Moment};

/// A clock. Nothing is said of how long it takes from one moment to the next.
pub trait Clock {
    /// The moment that it gave last, in seconds; 0 before its first.
    ghost last: { Self → ℕ };

    /// The moment now, or the one that it gave last, where that is later. One beyond the last
    /// moment counts as that.
    fn now(&mut self) -> Moment
        ensures never_back { Self.last self.old ≤ result.0 }
        ensures noted { Self.last self.new ≡ result.0 }
        ensures within { result.0 ≤ LAST_MOMENT };
}
