//! Who is called by others, and what contracts know of that. (Our own.)
ghost use Rattle.std.specs.Prelude.{◌≡◌, ℕ, List, Option, IfOk, OnErr, MatchOption};
ghost use Rattle.hr_base.specs.Bytes.{ByteList};
ghost use Rattle.hr_cause.specs.Stream.{HasCause};
ghost use Rattle.hr_link.specs.declared.past_link.PastLink.{PastLink};
ghost use Rattle.hr_link.specs.Link.{Closes, Gives, IsFailed, TakesBack};

use crate::DialFault;
use hr_cause::{Counted, Sink, Source};

/// Is called by others, and gets a link for each call.
pub trait Door: Counted {
    /// A link, which bytes come from and go to, with one count of faults for both.
    type Link: Source + Sink;

    /// The bytes that each link to come will give, where it tells.
    ghost coming: { Self → Option (List ByteList) };

    /// The links that were given back, in order, where it tells.
    ghost given_back: { Self → Option (List PastLink) };

    /// The link of the next caller, or `None` where none will come any more. It may wait for a
    /// caller without an end. Want of memory counts no fault.
    fn accept(&mut self) -> Result<Option<Self::Link>, DialFault>
        ensures ok { IfOk result (λ found. MatchOption found
            (Closes (Self.coming self.old) (Self.coming self.new))
            (λ link. Gives (Self.coming self.old) (Self.Link.left link)
            (Self.Link.sent link) (Self.Link.faults link) (Self.coming self.new))) }
        ensures err { OnErr result (Self.coming self.new ≡ Self.coming self.old) }
        ensures given_back { Self.given_back self.new ≡ Self.given_back self.old }
        ensures cause { HasCause IsFailed (Self.faults self.old) (Self.faults self.new) result };

    /// Ends a link, which is then one of those that were given back. It takes no memory.
    fn hang_up(&mut self, link: Self::Link)
        ensures given_back { TakesBack (Self.given_back self.old) (Self.Link.sent link)
            (Self.Link.faults link) (Self.given_back self.new) }
        ensures coming { Self.coming self.new ≡ Self.coming self.old }
        ensures calm { Self.faults self.new ≡ Self.faults self.old };
}
