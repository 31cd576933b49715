//! A dial in memory, whose links give bytes by a list, and which fails by a list. (Our own.)
ghost use Rattle.std.specs.Prelude.{◌≡◌, ◌<◌, ◌≤◌, ◌^◌, ◌∷◌, ◌++◌, [], Some, drop, length, IfOk, OnErr};
ghost use Rattle.hr_cause.specs.Stream.{HasCause};
ghost use Rattle.hr_link.specs.Link.{first_of, Gives, IsFailed};
ghost use Rattle.hr_link.specs.MemDial.{Dials};
ghost use Rattle.hr_link.specs.MemLink.{fault_count, IsNew, past_of};

use crate::past_links::PastLinks;
use crate::turns::Turns;
use crate::{Dial, DialFault, MemLink, PastLink};
use hr_base::{Bytes, List, Memory};
use hr_cause::{Counted, MemSink, MemSource};
use std::alloc::Global;
use std::collections::LinkedList;
use std::marker::Model;

/// A dial in memory, which tells. To which port of which host it is asked to call means nothing.
#[derive(Drop)]
pub struct MemDial {
    alloc: Global,
    replies: List<Bytes>,
    at: usize,
    past: PastLinks,
    turns: Turns,
}

impl Model for MemDial {
    ghost use Rattle.std.specs.Prelude.{◌≤◌, length, drop};
    ghost use Rattle.hr_link.specs.MemDial.{DialState};

    ghost Value = { DialState };

    ghost view = { λ d. record { coming = drop d.at d.replies; given_back = d.past; calls = d.turns } };

    ghost invariant = { λ d. d.at ≤ length d.replies };
}

impl MemDial {
    /// A dial whose links give these bytes, one after the other, and no bytes after the last.
    /// Exactly the calls of `dial` whose numbers, from 1, stand in `failing` fail; they use up no
    /// bytes.
    pub fn new(alloc: Global, replies: List<Bytes>, failing: List<u64>) -> Result<MemDial, Memory>
        ensures { IfOk result (λ made. made ≡ record {
          coming = replies;
          given_back = [];
          calls = record { failing = failing; calls = 0; faults = 0 };
        }) }
    {
        Ok(MemDial {
            alloc,
            replies,
            at: 0,
            past: PastLinks::new(alloc),
            turns: Turns::new(failing),
        })
    }

    /// The links that were given back, in order.
    pub fn given_back(&self) -> &LinkedList<PastLink>
        ensures { length self.now.given_back < 2 ^ 63 → result.now ≡ self.now.given_back }
    {
        self.past.view()
    }
}

impl Counted for MemDial {
    ghost faults = { λ d. d.calls.faults };

    fn faults(&self) -> u64 {
        self.turns.faults()
    }
}

impl Dial for MemDial {
    type Link = MemLink;

    ghost coming = { λ d. Some d.coming };

    ghost given_back = { λ d. Some d.given_back };

    /// Want of memory comes only of a call that doesn't fail by the list, and uses up no bytes.
    fn dial(&mut self, _host: &[u8], _port: u16) -> Result<MemLink, DialFault>
        ensures exact { Dials self.old result self.new }
        ensures ok { IfOk result (λ link. Gives (Some self.old.coming) (Some link.source.left)
            (Some link.sink.sent) (fault_count link.source link.sink) (Some self.new.coming)) }
        ensures err { OnErr result (Some self.new.coming ≡ Some self.old.coming) }
        ensures given_back { Some self.new.given_back ≡ Some self.old.given_back }
        ensures cause { HasCause IsFailed self.old.calls.faults self.new.calls.faults result }
    {
        self.turns.call()?;
        let (link, at) = next_link(self.alloc, self.replies.view(), self.at)?;
        self.at = at;
        Ok(link)
    }

    fn hang_up(&mut self, link: MemLink)
        ensures exact { self.new ≡ record self.old {
          given_back = self.old.given_back ++ past_of link.source link.sink ∷ [];
        } }
        ensures given_back { self.new.given_back ≡ self.old.given_back ++ past_of link.source link.sink ∷ [] }
        ensures coming { Some self.new.coming ≡ Some self.old.coming }
        ensures calm { self.new.calls.faults ≡ self.old.calls.faults }
    {
        self.past.take(link);
    }

    /// It numbers its calls on from those that there were, and the same fail.
    fn fork(&mut self) -> Result<MemDial, Memory>
        ensures exact { IfOk result (λ made. made ≡ record self.old {
          calls = record self.old.calls { faults = 0 };
        }) }
        ensures coming { IfOk result (λ made. Some made.coming ≡ Some self.old.coming) }
        ensures given_back { IfOk result (λ made. Some made.given_back ≡ Some self.old.given_back) }
        ensures calm { IfOk result (λ made. made.calls.faults ≡ 0) }
        ensures unchanged { self.new ≡ self.old }
    {
        Ok(MemDial {
            alloc: self.alloc,
            replies: copies_behind(self.alloc, self.replies.view(), self.at)?,
            at: 0,
            past: self.past.copy(self.alloc)?,
            turns: self.turns.fork(self.alloc)?,
        })
    }
}

// A link that gives the bytes at a place, or none behind the last, and the place behind it.
pub(crate) fn next_link(
    alloc: Global,
    replies: &[Bytes],
    at: usize,
) -> Result<(MemLink, usize), Memory>
    requires { at ≤ length replies.now }
    ensures link { IfOk result (λ given.
        IsNew (first_of (drop at replies.now)) given.0.source given.0.sink) }
    ensures within { IfOk result (λ given. given.1 ≤ length replies.now) }
    ensures place { IfOk result (λ given. drop given.1 replies.now ≡ drop 1 (drop at replies.now)) }
{
    if at < replies.len() {
        Ok((new_link(alloc, replies[at].copy(alloc)?)?, at + 1))
    } else {
        Ok((new_link(alloc, Bytes::from(Vec::new(alloc)))?, at))
    }
}

// A link that gives these bytes.
fn new_link(alloc: Global, bytes: Bytes) -> Result<MemLink, Memory>
    ensures { IfOk result (λ link. IsNew bytes link.source link.sink) }
{
    let source = MemSource::new(alloc, bytes, List::new(alloc), List::new(alloc))?;
    let sink = MemSink::new(alloc, List::new(alloc))?;
    MemLink::new(alloc, source, sink)
}

// Equal lists of bytes, from a place on.
fn copies_behind(alloc: Global, replies: &[Bytes], at: usize) -> Result<List<Bytes>, Memory>
    requires { at ≤ length replies.now }
    ensures { IfOk result (λ made. made ≡ drop at replies.now) }
{
    let mut made = List::new(alloc);
    for reply in &replies[at..] {
        made.push(reply.copy(alloc)?)?;
    }
    Ok(made)
}
