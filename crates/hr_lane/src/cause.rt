//! The cause by which an error of a registry, a manifest or a walk ends a revision. (Our own.)
ghost use Rattle.std.specs.Prelude.{◌≡◌};
ghost use Rattle.hr_line.specs.Cause.{failing_cause, form_cause, walk_cause};

use hr_adapter::RegFault;
use hr_base::RegNo;
use hr_blob::Failing;
use hr_digest::Digest;
use hr_event::Cause;
use hr_graph::WalkRefused;
use hr_manifest::Unreadable;

/// The cause of a call of a registry that gave no answer.
pub(crate) fn of_failing(failing: Failing, reg: RegNo) -> Cause
    ensures { result ≡ failing_cause failing reg }
{
    match failing.fault {
        RegFault::Failed => Cause::Fault {
            reg,
            before: failing.before,
            after: failing.after,
        },
        RegFault::TooLong { len } => Cause::TooLong { len },
        RegFault::Memory => Cause::Memory,
    }
}

/// The cause of a manifest with that digest that is not read.
pub(crate) fn of_form(why: Unreadable, digest: Digest) -> Cause
    ensures { result ≡ form_cause why digest }
{
    match why {
        Unreadable::TooLong { len } => Cause::TooLong { len },
        Unreadable::Media | Unreadable::NotJson | Unreadable::Field { .. } => {
            Cause::Unreadable { digest }
        }
        Unreadable::TooMany { count } => Cause::TooMany { count },
        Unreadable::Memory => Cause::Memory,
    }
}

/// The cause of a walk that goes no further.
pub(crate) fn of_walk(why: WalkRefused) -> Cause
    ensures { result ≡ walk_cause why }
{
    match why {
        WalkRefused::TooDeep { digest } => Cause::TooDeep { digest },
        WalkRefused::TooMany { count } => Cause::TooMany { count },
        WalkRefused::SizeDiffers { digest, said, got } => Cause::SizeDiffers { digest, said, got },
        WalkRefused::Memory => Cause::Memory,
    }
}
