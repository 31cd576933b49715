//! The clock of the system. (Our own.)
ghost use Rattle.std.specs.Prelude.{◌≡◌, ◌≤◌};

use crate::Clock;
use hr_base::{LAST_MOMENT, Moment};
use std::marker::Model;
use std::rt;
use std::time::{SystemTime, UNIX_EPOCH};

/// The clock of the system, of which contracts know only what it gave last:
///
/// ```text
/// fn main(rt: HostRuntime) {
///     let mut clock = SystemClock::new(rt);
/// }
/// ```
#[derive(Drop)]
pub struct SystemClock<R> {
    rt: R,
    last: Moment,
}

impl<R> Model for SystemClock<R> {
    ghost use Rattle.std.specs.Prelude.{◌≤◌};
    ghost use Rattle.hr_base.specs.declared.number.TheConstants.{LAST_MOMENT};
    ghost use Rattle.hr_clock.specs.Clock.{ClockEdge};

    ghost Value = { ClockEdge R };

    ghost view = { λ c. record { device = c.rt; last = c.last.0 } };

    ghost invariant = { λ c. c.last.0 ≤ LAST_MOMENT };
}

impl<R> SystemClock<R> {
    /// A clock that gave no moment yet.
    pub fn new(rt: R) -> SystemClock<R>
        ensures { result ≡ record { device = rt; last = 0 } }
    {
        SystemClock {
            rt,
            last: Moment(0),
        }
    }
}

impl<R: rt::Clock + Drop> Clock for SystemClock<R> {
    ghost last = { λ c. c.last };

    /// Where the system gives no time, it is the moment that this clock gave last.
    fn now(&mut self) -> Moment
        ensures never_back { self.old.last ≤ result.0 }
        ensures noted { self.new.last ≡ result.0 }
        ensures within { result.0 ≤ LAST_MOMENT }
        ensures unchanged { self.new.device ≡ self.old.device }
    {
        let seconds = Moment::capped(seconds(&self.rt)).0;
        let now = Moment(seconds.max(self.last.0));
        self.last = now;
        now
    }
}

// How many seconds it is since 1970-01-01T00:00:00Z: none where the system gives no time.
fn seconds(rt: &impl rt::Clock) -> u64 {
    let Ok(now) = SystemTime::now(rt) else {
        return 0;
    };
    match now.duration_since(UNIX_EPOCH) {
        Ok(since) => since.as_secs(),
        Err(_) => 0,
    }
}
