//! An agent over a link in memory that fails at planned calls.

use crate::{Agent, HookLink, LinkFault, MemHookLink};
use hr_base::{Hook, JobNo, List, Status};
use hr_cause::Counted;
use std::test::Fail;

fn push<K: HookLink>(agent: &mut Agent, link: &mut K) -> Result<u64, LinkFault> {
    agent.push(link)
}

#[test]
fn hooks_wait_over_faults_and_go_out_in_order(rt: HostRuntime) -> Result<(), Fail> {
    let alloc = rt.alloc();
    let mut agent = Agent::new(alloc);
    let mut link = MemHookLink::new(alloc, List::from([1, 4, 4, 9].to_vec(alloc)?));
    let mut hooks = Vec::new(alloc);
    for job in 1..=5u32 {
        let hook = Hook {
            job: JobNo(job),
            rev: 0,
            status: Status::Running,
        };
        agent.add(hook)?;
        hooks.push(hook)?;
    }
    // What each push answers, how many hooks went out until then, and how many faults there were.
    let table = [
        (Err(LinkFault::Failed), 0, 1),
        (Err(LinkFault::Failed), 2, 2),
        (Ok(3), 5, 2),
        (Ok(0), 5, 2),
    ];
    for (answer, sent, faults) in table {
        assert_eq!(rt; push(&mut agent, &mut link), answer, "{sent} sent");
        assert!(rt; sent <= hooks.len());
        assert_eq!(rt; link.taken(), &hooks[..sent]);
        assert_eq!(rt; agent.left(), &hooks[sent..]);
        assert_eq!(rt; link.faults(), faults);
    }
    Ok(())
}
