//! The links that were given back to a dial or a door in memory. (Our own.)
ghost use Rattle.std.specs.Prelude.{◌≡◌, ◌<◌, ◌^◌, ◌∷◌, ◌++◌, [], length, IfOk};
ghost use Rattle.hr_link.specs.MemLink.{past_of};

use crate::{MemLink, PastLink};
use hr_base::{Memory, Trace};
use std::alloc::Global;
use std::collections::LinkedList;
use std::marker::Model;

/// The links that were given back, in order. A link brings the room that it is kept in.
#[derive(Drop)]
pub(crate) struct PastLinks {
    links: LinkedList<PastLink>,
    told: Trace<PastLink>,
}

impl Model for PastLinks {
    ghost use Rattle.std.specs.Prelude.{◌≡◌, ◌<◌, ◌^◌, List, length};
    ghost use Rattle.hr_link.specs.declared.past_link.PastLink.{PastLink};

    ghost Value = { List PastLink };

    ghost view = { λ p. p.told.items };

    // A list of 2 ^ 63 links or more can't be kept.
    ghost invariant = { λ p. length p.told.items < 2 ^ 63 → p.links ≡ p.told.items };
}

impl PastLinks {
    /// No links. It takes no memory.
    pub(crate) fn new(alloc: Global) -> PastLinks
        ensures { result ≡ [] }
    {
        PastLinks {
            links: LinkedList::new(alloc),
            told: Trace::new(),
        }
    }

    /// Puts a link behind those that were given back before. It takes no memory.
    pub(crate) fn take(&mut self, link: MemLink)
        ensures { self.new ≡ self.old ++ past_of link.source link.sink ∷ [] }
    {
        let (past, mut room) = link.into_past();
        self.told = self.told.then(&past);
        put(&mut room, past);
        let _ = self.links.append(&mut room);
    }

    /// The links, in order.
    pub(crate) fn view(&self) -> &LinkedList<PastLink>
        ensures { length self.now < 2 ^ 63 → result.now ≡ self.now }
    {
        &self.links
    }

    /// The same links.
    pub(crate) fn copy(&self, alloc: Global) -> Result<PastLinks, Memory>
        ensures { IfOk result (λ made. made ≡ self.now) }
    {
        Ok(PastLinks {
            links: copy_of(&self.links, alloc)?,
            told: self.told.then_all(&[]),
        })
    }
}

// Puts a link into the room that is there for one.
fn put(room: &mut LinkedList<PastLink>, past: PastLink)
    requires { length room.old ≡ 1 }
    ensures { room.new ≡ past ∷ [] }
{
    if let Some(place) = room.front_mut() {
        *place = past;
    }
}

fn copy_of(links: &LinkedList<PastLink>, alloc: Global) -> Result<LinkedList<PastLink>, Memory>
    ensures { IfOk result (λ made. made ≡ links.now) }
{
    let mut made = LinkedList::new(alloc);
    for link in links.iter() {
        made.push_back(PastLink {
            sent: link.sent.copy(alloc)?,
            faults: link.faults,
        })?;
    }
    Ok(made)
}
