//! The schedules of policies, and which of them are due. (Our own.)
ghost use Rattle.std.specs.Prelude.{◌≡◌, max, IfOk, OnOk, OnErr, IsPermutation};
ghost use Rattle.hr_base.specs.Moment.{capped};
ghost use Rattle.hr_periodic.specs.Periodic.{Ascends, AreDue};

use crate::cron::Cron;
use hr_base::{List, Memory, Moment, PolicyNo};
use std::alloc::Global;
use std::marker::Model;

/// The schedules of policies, and the moment up to which they were asked. Contracts see the list
/// of policies and schedules, in the order of the policies' numbers, and the moment.
#[derive(Debug, Drop)]
pub struct Periodic {
    entries: Vec<(PolicyNo, Cron)>,
    moment: Moment,
}

impl Model for Periodic {
    ghost use Rattle.std.specs.Prelude.{◌≤◌};
    ghost use Rattle.hr_periodic.specs.Periodic.{Asked, Ascends};

    ghost Value = { Asked };

    ghost view = { λ p. record { entries = p.entries.items; moment = p.moment.0 } };

    ghost use Rattle.hr_base.specs.declared.number.TheConstants.{LAST_MOMENT};

    ghost invariant = { λ p. Ascends p.entries.items × (p.moment.0 ≤ LAST_MOMENT) };
}

impl Periodic {
    /// The schedules of these policies, from a moment on. It takes no memory. A moment beyond
    /// `LAST_MOMENT` counts as that. Schedules of one policy stand in any order.
    pub fn new(list: List<(PolicyNo, Cron)>, now: Moment) -> Periodic
        ensures entries { IsPermutation list result.entries }
        ensures order { Ascends result.entries }
        ensures moment { result.moment ≡ capped now.0 }
    {
        let mut entries: Vec<(PolicyNo, Cron)> = list.into();
        entries.sort_unstable_by_key(|entry| entry.0.0);
        Periodic {
            entries,
            moment: Moment::capped(now.0),
        }
    }

    /// The policies that are due, in the order of their numbers: each whose schedule has a match
    /// above the moment of the last call and at most `now`, with the first of them. The others up
    /// to `now` are merged into it. An earlier `now` than the last call's gives none. It looks at
    /// the days up to `now` alone.
    pub fn due(&mut self, alloc: Global, now: Moment) -> Result<List<(PolicyNo, Moment)>, Memory>
        ensures ok { IfOk result (AreDue self.old.moment (capped now.0) self.old.entries) }
        ensures order { IfOk result (λ due. Ascends due) }
        ensures moment { OnOk result (self.new
            ≡ record self.old { moment = max self.old.moment (capped now.0) }) }
        ensures err { OnErr result (self.new ≡ self.old) }
    {
        let now = Moment::capped(now.0);
        let due = due_among(alloc, &self.entries, self.moment, now)?;
        self.moment = Moment(self.moment.0.max(now.0));
        Ok(due)
    }
}

// The policies that are due, each with the first match of its schedule.
fn due_among(
    alloc: Global,
    entries: &[(PolicyNo, Cron)],
    moment: Moment,
    now: Moment,
) -> Result<List<(PolicyNo, Moment)>, Memory>
    ensures { IfOk result (AreDue (capped moment.0) (capped now.0) entries.now) }
{
    let mut due = List::new(alloc);
    for entry in entries {
        if let Some(at) = entry.1.next_until(moment, now) {
            due.push((entry.0, at))?;
        }
    }
    Ok(due)
}

#[cfg(test)]
mod tests {
    use super::*;

    #[test]
    fn missed_moments_are_merged_and_policies_stand_by_number(
        rt: HostRuntime,
    ) -> Result<(), Memory> {
        let alloc = rt.alloc();
        let mut list = List::new(alloc);
        for (policy, text) in [(7, "0 0 * * * *"), (5, "0 0 0 30 2 *"), (3, "0 30 1 * * *")] {
            let cron = Cron::read(text.as_bytes()).expect(&rt, text);
            list.push((PolicyNo(policy), cron))?;
        }
        let mut periodic = Periodic::new(list, Moment(0));
        let both = [(PolicyNo(3), Moment(5400)), (PolicyNo(7), Moment(3600))];
        let last = [(PolicyNo(3), Moment(91_800)), (PolicyNo(7), Moment(7200))];
        let rounds: [(u64, &[(PolicyNo, Moment)]); 6] = [
            (3599, &[]),
            (3600, &both[1..]),
            (7199, &both[..1]),
            (7100, &[]),
            (u64::MAX, &last),
            (u64::MAX, &[]),
        ];
        for (now, want) in rounds {
            let due = periodic.due(alloc, Moment(now))?;
            assert_eq!(rt; due.view(), want, "at {now}");
        }
        Ok(())
    }
}
