//! Schedules of six fields, and their next matching moment. (Our own, after the fields of cron.)
ghost use Rattle.std.specs.Prelude.{◌≡◌, ◌↔◌, ◌+◌, ◌*◌, ◌/◌, ◌<◌, ◌≤◌, IfSome, IfNone, IsOk, IfOk, IfErr};
ghost use Rattle.hr_base.specs.Moment.{capped};

use crate::field::Field;
use crate::reading::{Limits, take_field};
use hr_base::{LAST_MOMENT, Moment};
use jiff_core::civil::Date;

/// How far after a moment `Cron::next` looks: 3,000 days, in seconds.
pub const HORIZON: u64 = 259_200_000;

/// The seconds of a day.
const DAY: u64 = 86_400;

/// Why the text of a schedule is refused.
#[derive(Clone, Copy, Debug, PartialEq, Eq)]
pub enum CronRefused {
    /// The first field that is bad or missing, from 1, or 7 where there are more than six.
    Field { field: u8 },
    /// Want of memory. `Cron::read` takes none and never answers it.
    Memory,
}

/// A schedule, as which numbers match in each of its six fields.
#[derive(Clone, Copy, Debug, PartialEq, Eq)]
pub struct Cron {
    /// 0 to 59.
    pub second: Field,
    /// 0 to 59.
    pub minute: Field,
    /// 0 to 23.
    pub hour: Field,
    /// Of the month, 1 to 31.
    pub day: Field,
    /// 1 to 12.
    pub month: Field,
    /// 0 to 6 from Sunday.
    pub weekday: Field,
}

impl Cron {
    ghost use Rattle.hr_periodic.specs.Cron.{days_fit, FindsNext};
    ghost use Rattle.hr_periodic.specs.Reading.{fault_of, HasFault, StandsFor};
    ghost use Rattle.hr_periodic.specs.Steps.{Searches, fits_hour, fits_day, DayFits, IsFirst, NoMatch};

    /// Reads the six fields of a schedule, separated by one space: second, minute, hour, day of the
    /// month, month, and day of the week from Sunday. A field is `*`, or `?` which is the same, or a
    /// list joined by commas of `A`, `A-B`, `*/N`, `A-B/N`, and `A/N` which goes to the greatest
    /// number of the field. A number has one or two digits, A is at most B, and N at least 1.
    /// It takes no memory.
    pub fn read(text: &[u8]) -> Result<Cron, CronRefused>
        ensures ok { IfOk result (StandsFor text.now) }
        ensures faults { IsOk result ↔ (fault_of text.now ≡ None) }
        ensures err { IfErr result (HasFault text.now) }
    {
        let (second, rest) = take_field(Limits { low: 0, high: 59 }, 1, Some(text))?;
        let (minute, rest) = take_field(Limits { low: 0, high: 59 }, 2, rest)?;
        let (hour, rest) = take_field(Limits { low: 0, high: 23 }, 3, rest)?;
        let (day, rest) = take_field(Limits { low: 1, high: 31 }, 4, rest)?;
        let (month, rest) = take_field(Limits { low: 1, high: 12 }, 5, rest)?;
        let (weekday, rest) = take_field(Limits { low: 0, high: 6 }, 6, rest)?;
        if rest.is_some() {
            return Err(CronRefused::Field { field: 7 });
        }
        Ok(Cron {
            second,
            minute,
            hour,
            day,
            month,
            weekday,
        })
    }

    /// An equal schedule. It takes no memory.
    pub fn copy(&self) -> Cron
        ensures { result ≡ self.now }
    {
        *self
    }

    /// The least match above a moment and at most `HORIZON` after it, also past the last moment.
    /// A moment beyond `LAST_MOMENT` counts as that. It takes no memory.
    pub fn next(&self, after: Moment) -> Option<Moment>
        ensures { FindsNext self.now (capped after.0) (capped after.0 + HORIZON) result }
    {
        let after = Moment::capped(after.0).0;
        self.first_above(after, after + HORIZON)
    }

    /// The least match above a moment and at most `until`. A moment beyond `LAST_MOMENT` counts as
    /// that. It takes no memory, and looks at each day from the moment to its answer once.
    pub fn next_until(&self, after: Moment, until: Moment) -> Option<Moment>
        ensures { FindsNext self.now (capped after.0) (capped until.0) result }
    {
        self.first_above(Moment::capped(after.0).0, Moment::capped(until.0).0)
    }

    // The least match above a moment and at most another.
    fn first_above(&self, after: u64, last: u64) -> Option<Moment>
        requires after { after ≤ LAST_MOMENT }
        requires last { last ≤ LAST_MOMENT + HORIZON }
        ensures { FindsNext self.now after last result }
    {
        let mut moment = after + 1;
        while moment <= last {
            if let Some(found) = self.first_in_day(moment) {
                return if found <= last {
                    Some(Moment(found))
                } else {
                    None
                };
            }
            moment = (moment / DAY + 1) * DAY;
        }
        None
    }

    // The first match of the moment's day, from the moment on.
    fn first_in_day(&self, moment: u64) -> Option<u64>
        requires { moment < 253_402_300_800 }
        ensures found { IfSome result (λ found. IsFirst self.now moment found) }
        ensures absent { IfNone result (NoMatch self.now moment ((moment / 86_400 + 1) * 86_400)) }
    {
        let day = moment / DAY;
        if !self.fits_on(day) {
            return None;
        }
        let Some(second) = self.time_from((moment % DAY) as u32) else {
            return None;
        };
        Some(day * DAY + second as u64)
    }

    // Whether the schedule has the day of this number, from 1970-01-01.
    fn fits_on(&self, day: u64) -> bool
        requires { day < 2_932_897 }
        ensures { DayFits self.now day result }
    {
        let date = Date::from_unix_epoch_day(day as i64).unwrap();
        let weekday = date.weekday().next().index();
        self.month.has(date.month)
            && self.either_day(self.day.has(date.day), self.weekday.has(weekday))
    }

    // Whether a day fits, by whether its day of the month and its day of the week match.
    fn either_day(&self, day: bool, weekday: bool) -> bool
        ensures { result ≡ days_fit self.now day weekday }
    {
        if self.day.restricted && self.weekday.restricted {
            day || weekday
        } else {
            day && weekday
        }
    }

    // The least second of a day that matches, from `start` on.
    fn time_from(&self, start: u32) -> Option<u32>
        requires { start < 86_400 }
        ensures { Searches (fits_day self.now) start 86_400 result }
    {
        let hour = (start / 3600) as u8;
        if self.hour.has(hour) {
            if let Some(rest) = self.rest_of_hour(start % 3600) {
                return Some(hour as u32 * 3600 + rest);
            }
        }
        let hour = self.hour.least(hour + 1, 24)?;
        let rest = self.rest_of_hour(0)?;
        Some(hour as u32 * 3600 + rest)
    }

    // The least second of an hour that matches, from `start` on.
    fn rest_of_hour(&self, start: u32) -> Option<u32>
        requires { start < 3600 }
        ensures { Searches (fits_hour self.now) start 3600 result }
    {
        let minute = (start / 60) as u8;
        if self.minute.has(minute) {
            if let Some(second) = self.second.least((start % 60) as u8, 60) {
                return Some(minute as u32 * 60 + second as u32);
            }
        }
        let minute = self.minute.least(minute + 1, 60)?;
        let second = self.second.least(0, 60)?;
        Some(minute as u32 * 60 + second as u32)
    }
}

#[cfg(test)]
mod tests;
