//! The registries of a script as connections of a lane. (Our own.)
ghost use Rattle.std.specs.Prelude.{◌≡◌, ◌++◌, ◌∷◌, [], IfOk, OnOk, length};
ghost use Rattle.std.specs.List.{filter};
ghost use Rattle.hr_lane.specs.Conn.{link_of, links_of};
ghost use Rattle.hr_memreg.specs.Mem.{seen_of};
ghost use Rattle.hr_replay.specs.Connect.{dests_of, is_dest, is_source, sources_of};

use hr_base::{List, Memory, RegNo};
use hr_lane::Conn;
use hr_memreg::MemRegistry;
use std::alloc::Global;

/// Connections of a lane.
#[derive(Drop)]
pub(crate) struct Connected {
    pub sources: List<Conn<MemRegistry>>,
    pub dests: List<Conn<MemRegistry>>,
}

// The number of the registry that is written to.
const DESTINATION: u8 = 2;

/// Connections to eight registries, from number 1 on.
pub(crate) fn connect(alloc: Global, regs: List<MemRegistry>) -> Result<Connected, Memory>
    requires { length regs ≡ 8 }
    ensures sources { IfOk result (λ made. links_of seen_of made.sources ≡ sources_of regs) }
    ensures dests { IfOk result (λ made. links_of seen_of made.dests ≡ dests_of regs) }
{
    let mut made = Connected {
        sources: List::new(alloc),
        dests: List::new(alloc),
    };
    let mut number = 1u8;
    for link in Vec::from(regs) {
        let reg = RegNo(number);
        add(&mut made, Conn { reg, link })?;
        number += 1;
    }
    Ok(made)
}

// Puts a connection where it belongs.
fn add(made: &mut Connected, conn: Conn<MemRegistry>) -> Result<(), Memory>
    ensures sources { OnOk result (links_of seen_of made.new.sources
        ≡ links_of seen_of made.old.sources ++ filter is_source (link_of seen_of conn ∷ [])) }
    ensures dests { OnOk result (links_of seen_of made.new.dests
        ≡ links_of seen_of made.old.dests ++ filter is_dest (link_of seen_of conn ∷ [])) }
{
    if conn.reg.0 == DESTINATION {
        made.dests.push(conn)
    } else {
        made.sources.push(conn)
    }
}
