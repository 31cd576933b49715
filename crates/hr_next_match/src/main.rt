//! Reads lines of a moment and a schedule, and prints the next match of each: a try of
//! `hr_periodic` over many rows, whose matches another program found.
#![tactic(auto)]

use hr_base::Moment;
use hr_periodic::{Cron, CronRefused};
use std::io;

fn main(rt: HostRuntime) -> io::Result<()> {
    for line in rt.lines(rt.alloc()) {
        let line = line?;
        match asked(line.as_str()) {
            Some((after, Ok(cron))) => match cron.next(after) {
                Some(next) => println!(rt; "{}", next.0)?,
                None => println!(rt; "none")?,
            },
            Some((_, Err(CronRefused::Field { field }))) => println!(rt; "field {field}")?,
            Some((_, Err(CronRefused::Memory))) => println!(rt; "memory")?,
            None => println!(rt; "no moment")?,
        }
    }
    Ok(())
}

// The moment before the first space, and the schedule after it.
fn asked(line: &str) -> Option<(Moment, Result<Cron, CronRefused>)> {
    let (after, schedule) = line.split_once(' ')?;
    let after = after.parse().ok()?;
    Some((Moment(after), Cron::read(schedule.as_bytes())))
}
