//! A door in memory, whose callers come by a list. (Our own.)
ghost use Rattle.std.specs.Prelude.{◌≡◌, ◌<◌, ◌^◌, ◌↔◌, ◌∷◌, ◌++◌, [], Some, drop, length, IfOk, IsTrue, OnErr, MatchOption};
ghost use Rattle.hr_cause.specs.Stream.{HasCause};
ghost use Rattle.hr_link.specs.Link.{Closes, Gives, IsFailed};
ghost use Rattle.hr_link.specs.MemDoor.{Accepts};
ghost use Rattle.hr_link.specs.MemLink.{fault_count, past_of};

use crate::mem_dial::next_link;
use crate::past_links::PastLinks;
use crate::{DialFault, Door, MemLink, PastLink};
use hr_base::{Bytes, List, Memory};
use hr_cause::Counted;
use std::alloc::Global;
use std::collections::LinkedList;
use std::marker::Model;

/// A door in memory, which tells, and never fails.
#[derive(Drop)]
pub struct MemDoor {
    alloc: Global,
    requests: List<Bytes>,
    at: usize,
    past: PastLinks,
}

impl Model for MemDoor {
    ghost use Rattle.std.specs.Prelude.{◌≤◌, length, drop};
    ghost use Rattle.hr_link.specs.MemDoor.{DoorState};

    ghost Value = { DoorState };

    ghost view = { λ d. record { coming = drop d.at d.requests; given_back = d.past } };

    ghost invariant = { λ d. d.at ≤ length d.requests };
}

impl MemDoor {
    /// A door with a caller for each of these requests, whose link gives its bytes.
    pub fn new(alloc: Global, requests: List<Bytes>) -> Result<MemDoor, Memory>
        ensures { IfOk result (λ made. made ≡ record { coming = requests; given_back = [] }) }
    {
        Ok(MemDoor {
            alloc,
            requests,
            at: 0,
            past: PastLinks::new(alloc),
        })
    }

    /// The links that were given back, in order.
    pub fn given_back(&self) -> &LinkedList<PastLink>
        ensures { length self.now.given_back < 2 ^ 63 → result.now ≡ self.now.given_back }
    {
        self.past.view()
    }
}

impl Counted for MemDoor {
    ghost faults = { λ _. 0 };

    fn faults(&self) -> u64 {
        0
    }
}

impl Door for MemDoor {
    type Link = MemLink;

    ghost coming = { λ d. Some d.coming };

    ghost given_back = { λ d. Some d.given_back };

    /// `None` comes exactly after the last caller.
    fn accept(&mut self) -> Result<Option<MemLink>, DialFault>
        ensures exact { Accepts self.old result self.new }
        ensures ok { IfOk result (λ found. MatchOption found
            (Closes (Some self.old.coming) (Some self.new.coming))
            (λ link. Gives (Some self.old.coming) (Some link.source.left)
            (Some link.sink.sent) (fault_count link.source link.sink) (Some self.new.coming))) }
        ensures err { OnErr result (Some self.new.coming ≡ Some self.old.coming) }
        ensures given_back { Some self.new.given_back ≡ Some self.old.given_back }
        ensures cause { HasCause IsFailed 0 0 result }
    {
        if is_end(self.requests.view(), self.at) {
            return Ok(None);
        }
        let (link, at) = next_link(self.alloc, self.requests.view(), self.at)?;
        self.at = at;
        Ok(Some(link))
    }

    fn hang_up(&mut self, link: MemLink)
        ensures exact { self.new ≡ record self.old {
          given_back = self.old.given_back ++ past_of link.source link.sink ∷ [];
        } }
        ensures given_back { self.new.given_back ≡ self.old.given_back ++ past_of link.source link.sink ∷ [] }
        ensures coming { Some self.new.coming ≡ Some self.old.coming }
    {
        self.past.take(link);
    }
}

// Whether nothing stands behind a place.
fn is_end(requests: &[Bytes], at: usize) -> bool
    ensures { IsTrue result ↔ (drop at requests.now ≡ []) }
{
    at >= requests.len()
}
