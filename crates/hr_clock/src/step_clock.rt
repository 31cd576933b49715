//! A clock in memory, which goes on by one step at each look. (Our own.)
ghost use Rattle.std.specs.Prelude.{◌≡◌, ◌≤◌};
ghost use Rattle.hr_base.specs.Moment.{capped, later_by};

use crate::Clock;
use hr_base::{LAST_MOMENT, Moment};
use std::marker::Model;

/// A clock that goes on by as many seconds at each look, and stays at the last moment.
#[derive(Debug, Drop)]
pub struct StepClock {
    last: Moment,
    next: Moment,
    step: u64,
}

impl Model for StepClock {
    ghost use Rattle.std.specs.Prelude.{◌≤◌};
    ghost use Rattle.hr_base.specs.declared.number.TheConstants.{LAST_MOMENT};
    ghost use Rattle.hr_clock.specs.Clock.{StepState};

    ghost Value = { StepState };

    ghost view = { λ c. record { last = c.last.0; next = c.next.0; step = c.step } };

    ghost invariant = { λ c. (c.last.0 ≤ c.next.0) × (c.next.0 ≤ LAST_MOMENT) };
}

impl StepClock {
    /// A clock whose first look gives `first`, and each later one `step` seconds more.
    pub fn new(first: Moment, step: u64) -> StepClock
        ensures { result ≡ record { last = 0; next = capped first.0; step = step } }
    {
        StepClock {
            last: Moment(0),
            next: Moment::capped(first.0),
            step,
        }
    }
}

impl Clock for StepClock {
    ghost last = { λ c. c.last };

    fn now(&mut self) -> Moment
        ensures exact { result.0 ≡ self.old.next }
        ensures steps { self.new ≡ record self.old {
          last = self.old.next;
          next = later_by self.old.next self.old.step;
        } }
        ensures never_back { self.old.last ≤ result.0 }
        ensures within { result.0 ≤ LAST_MOMENT }
    {
        let now = self.next;
        self.last = now;
        self.next = now.plus(self.step);
        now
    }
}
