//! The connections of a lane, each to one registry by its number. (Our own.)
ghost use Rattle.std.specs.Prelude.{◌≡◌, ◌<◌, IsSome, Some, length, slice_get};
ghost use Rattle.std.specs.List.{AllByRecursion};
ghost use Rattle.hr_adapter.specs.Reg.{IsSound};
ghost use Rattle.hr_line.specs.State.{link_at};
ghost use Rattle.hr_lane.specs.Conn.{StandsAt, links_of};

use hr_adapter::Registry;
use hr_base::RegNo;

/// A connection to a registry.
#[derive(Drop)]
pub struct Conn<A> {
    /// The number of the registry.
    pub reg: RegNo,
    pub link: A,
}

/// Where the connection to a registry stands, from 0.
pub(crate) fn place<A: Registry>(conns: &[Conn<A>], reg: RegNo) -> usize
    requires { IsSome (link_at (links_of A.seen conns.now) reg) }
    ensures within { result < length conns.now }
    ensures there { StandsAt A.seen conns.now reg result }
{
    for at in 0..conns.len() {
        if conns[at].reg == reg {
            return at;
        }
    }
    unreachable!()
}

/// A law: each connection is sound at every moment.
pub(crate) fn are_sound<A: Registry>(conns: &[Conn<A>])
    ensures { AllByRecursion (λ l. IsSound l.seen) (links_of A.seen conns.now) }
{
    for at in 0..conns.len() {
        let _ = conns[at].link.count();
    }
}
