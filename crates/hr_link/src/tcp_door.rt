//! A door over TCP, which tells nothing. (Our own.)
ghost use Rattle.std.specs.Prelude.{◌≡◌, None, IfOk, IsErrOf, IsSomeAnd, OnErr};
ghost use Rattle.hr_cause.specs.Calls.{counted};
ghost use Rattle.hr_cause.specs.Stream.{FailsByFault, HasCause};
ghost use Rattle.hr_link.specs.Link.{Gives, IsFailed};

use crate::fault::{count_fault, fault_of};
use crate::{DialFault, Door, TcpLink};
use hr_cause::{Counted, Failed};
use std::io;
use std::marker::Model;
use std::net::{
    IpAddr, Ipv4Addr, Ipv6Addr, Net, OpenListener, OpenStream, SocketAddr, TcpListener,
};

/// A door over TCP, of which contracts know nothing but its count of faults:
///
/// ```text
/// fn main(rt: HostRuntime) {
///     let mut door = TcpDoor::new(rt, 8080);
/// }
/// ```
#[derive(Drop)]
pub struct TcpDoor<R: Net> {
    rt: R,
    port: u16,
    listener: Option<R::Listener>,
    faults: u64,
}

impl<R: Net> Model for TcpDoor<R> {
    ghost use Rattle.hr_cause.specs.Edges.{Edge};

    ghost Value = { Edge R };

    ghost view = { λ d. record { device = d.rt; faults = d.faults } };
}

impl<R: Net> TcpDoor<R> {
    /// A door at a port, which isn't bound yet. At port 0 the system chooses one when it is.
    pub fn new(rt: R, port: u16) -> TcpDoor<R>
        ensures { result ≡ record { device = rt; faults = 0 } }
    {
        TcpDoor {
            rt,
            port,
            listener: None,
            faults: 0,
        }
    }

    /// Binds the port on all addresses, where it isn't bound yet, and answers which one it is.
    /// From then on callers may come. Each error of the system is a fault.
    pub fn bind(&mut self) -> Result<u16, Failed>
        ensures unchanged { self.new.device ≡ self.old.device }
        ensures counted { OnErr result (self.new.faults ≡ counted self.old.faults) }
        ensures cause { FailsByFault self.old.faults self.new.faults result }
    {
        match bound(&self.rt, self.port, &mut self.listener) {
            Ok(port) => Ok(port),
            Err(_) => Err(count_fault(&mut self.faults)),
        }
    }
}

impl<R: Net + AllocGlobal + Drop> Counted for TcpDoor<R> {
    ghost faults = { λ d. d.faults };

    fn faults(&self) -> u64 {
        self.faults
    }
}

impl<R: Net + AllocGlobal + Drop> Door for TcpDoor<R> {
    type Link = TcpLink<R::Stream>;

    ghost coming = { λ _. None };

    ghost given_back = { λ _. None };

    /// It binds the port where it isn't bound yet. It never answers `None`. A port that can't be
    /// bound is a fault, and so is a caller that goes away before it is let in.
    fn accept(&mut self) -> Result<Option<TcpLink<R::Stream>>, DialFault>
        ensures ok { IfOk result (λ found.
            IsSomeAnd found (λ link. Gives None None None link.faults None)) }
        ensures unchanged { self.new.device ≡ self.old.device }
        ensures counted { IsErrOf result DialFault.Failed
            → self.new.faults ≡ counted self.old.faults }
        ensures cause { HasCause IsFailed self.old.faults self.new.faults result }
    {
        match let_in(&self.rt, self.port, &mut self.listener) {
            Err(DialFault::Failed) => {
                count_fault(&mut self.faults);
                Err(DialFault::Failed)
            }
            Err(DialFault::Memory) => Err(DialFault::Memory),
            Ok(link) => Ok(Some(link)),
        }
    }

    /// It closes the connection.
    fn hang_up(&mut self, link: TcpLink<R::Stream>)
        ensures { self.new ≡ self.old }
    {
        drop(link);
    }
}

// The next caller's connection.
fn let_in<R: Net + AllocGlobal>(
    rt: &R,
    port: u16,
    listener: &mut Option<R::Listener>,
) -> Result<TcpLink<R::Stream>, DialFault>
    ensures { IfOk result (λ link. link.faults ≡ 0) }
{
    bound(rt, port, listener).map_err(fault_of)?;
    let Some(listener) = listener else {
        return Err(DialFault::Failed);
    };
    let (stream, _) = listener.accept().map_err(fault_of)?;
    let _ = stream.set_nodelay(true);
    Ok(TcpLink::new(rt.alloc(), stream)?)
}

// Binds a port on all addresses, those of both versions of IP where the system has both.
fn bound<R: Net>(rt: &R, port: u16, listener: &mut Option<R::Listener>) -> io::Result<u16> {
    if let Some(listener) = listener {
        return Ok(listener.local_addr()?.port());
    }
    let all = [
        SocketAddr::new(IpAddr::V6(Ipv6Addr::UNSPECIFIED), port),
        SocketAddr::new(IpAddr::V4(Ipv4Addr::UNSPECIFIED), port),
    ];
    let made = TcpListener::bind(rt, all.as_slice())?;
    let port = made.local_addr()?.port();
    *listener = Some(made);
    Ok(port)
}
