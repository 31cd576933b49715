//! Who calls others, and what contracts know of that. (Our own.)
ghost use Rattle.std.specs.Prelude.{◌≡◌, ℕ, List, Option, IfOk, OnErr};
ghost use Rattle.hr_base.specs.Bytes.{ByteList};
ghost use Rattle.hr_cause.specs.Stream.{HasCause};
ghost use Rattle.hr_link.specs.declared.past_link.PastLink.{PastLink};
ghost use Rattle.hr_link.specs.Link.{Gives, IsFailed, TakesBack};

use crate::DialFault;
use hr_base::Memory;
use hr_cause::{Counted, Sink, Source};

/// Calls others, and gets a link for each call.
pub trait Dial: Counted + Sized {
    /// A link, which bytes come from and go to, with one count of faults for both.
    type Link: Source + Sink;

    /// The bytes that each link to come will give, where it tells.
    ghost coming: { Self → Option (List ByteList) };

    /// The links that were given back, in order, where it tells.
    ghost given_back: { Self → Option (List PastLink) };

    /// A link to a port of a host, which is a name or an IP address. Want of memory counts no fault.
    fn dial(&mut self, host: &[u8], port: u16) -> Result<Self::Link, DialFault>
        ensures ok { IfOk result (λ link. Gives (Self.coming self.old) (Self.Link.left link)
            (Self.Link.sent link) (Self.Link.faults link) (Self.coming self.new)) }
        ensures err { OnErr result (Self.coming self.new ≡ Self.coming self.old) }
        ensures given_back { Self.given_back self.new ≡ Self.given_back self.old }
        ensures cause { HasCause IsFailed (Self.faults self.old) (Self.faults self.new) result };

    /// Ends a link, which is then one of those that were given back. It takes no memory.
    fn hang_up(&mut self, link: Self::Link)
        ensures given_back { TakesBack (Self.given_back self.old) (Self.Link.sent link)
            (Self.Link.faults link) (Self.given_back self.new) }
        ensures coming { Self.coming self.new ≡ Self.coming self.old }
        ensures calm { Self.faults self.new ≡ Self.faults self.old };

    /// A second one, which tells the same, and hasn't failed yet.
    fn fork(&mut self) -> Result<Self, Memory>
        ensures coming { IfOk result (λ made. Self.coming made ≡ Self.coming self.old) }
        ensures given_back { IfOk result (λ made. Self.given_back made ≡ Self.given_back self.old) }
        ensures calm { IfOk result (λ made. Self.faults made ≡ 0) }
        ensures unchanged { self.new ≡ self.old };
}
