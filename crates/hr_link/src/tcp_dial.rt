//! A dial over TCP, which tells nothing. (Our own.)
ghost use Rattle.std.specs.Prelude.{◌≡◌, None, IfOk, IsErrOf};
ghost use Rattle.hr_cause.specs.Calls.{counted};
ghost use Rattle.hr_cause.specs.Stream.{HasCause};
ghost use Rattle.hr_link.specs.Link.{Gives, IsFailed};

use crate::fault::{count_fault, fault_of};
use crate::{Dial, DialFault, TcpLink};
use hr_base::Memory;
use hr_cause::Counted;
use std::marker::Model;
use std::net::{Net, OpenStream, TcpStream};
use std::str;

/// A dial over TCP, of which contracts know nothing but its count of faults:
///
/// ```text
/// fn main(rt: HostRuntime) {
///     let mut dial = TcpDial::new(rt);
/// }
/// ```
#[derive(Drop)]
pub struct TcpDial<R> {
    rt: R,
    faults: u64,
}

impl<R> Model for TcpDial<R> {
    ghost use Rattle.hr_cause.specs.Edges.{Edge};

    ghost Value = { Edge R };

    ghost view = { λ d. record { device = d.rt; faults = d.faults } };
}

impl<R> TcpDial<R> {
    /// A dial that hasn't failed yet.
    pub fn new(rt: R) -> TcpDial<R>
        ensures { result ≡ record { device = rt; faults = 0 } }
    {
        TcpDial { rt, faults: 0 }
    }
}

impl<R: Net + AllocGlobal + Clone + Drop> Counted for TcpDial<R> {
    ghost faults = { λ d. d.faults };

    fn faults(&self) -> u64 {
        self.faults
    }
}

impl<R: Net + AllocGlobal + Clone + Drop> Dial for TcpDial<R> {
    type Link = TcpLink<R::Stream>;

    ghost coming = { λ _. None };

    ghost given_back = { λ _. None };

    /// It tries each address of the host in turn, without a limit of time. A host that isn't UTF-8
    /// is a fault.
    fn dial(&mut self, host: &[u8], port: u16) -> Result<TcpLink<R::Stream>, DialFault>
        ensures ok { IfOk result (λ link. Gives None None None link.faults None) }
        ensures unchanged { self.new.device ≡ self.old.device }
        ensures counted { IsErrOf result DialFault.Failed
            → self.new.faults ≡ counted self.old.faults }
        ensures cause { HasCause IsFailed self.old.faults self.new.faults result }
    {
        match call(&self.rt, host, port) {
            Err(DialFault::Failed) => {
                count_fault(&mut self.faults);
                Err(DialFault::Failed)
            }
            answer => answer,
        }
    }

    /// It closes the connection.
    fn hang_up(&mut self, link: TcpLink<R::Stream>)
        ensures { self.new ≡ self.old }
    {
        drop(link);
    }

    fn fork(&mut self) -> Result<TcpDial<R>, Memory> {
        Ok(TcpDial::new(self.rt.clone()?))
    }
}

// A new connection.
fn call<R: Net + AllocGlobal>(
    rt: &R,
    host: &[u8],
    port: u16,
) -> Result<TcpLink<R::Stream>, DialFault>
    ensures { IfOk result (λ link. link.faults ≡ 0) }
{
    let Ok(host) = str::from_utf8(host) else {
        return Err(DialFault::Failed);
    };
    let stream = TcpStream::connect(rt, (host, port)).map_err(fault_of)?;
    let _ = stream.set_nodelay(true);
    Ok(TcpLink::new(rt.alloc(), stream)?)
}
