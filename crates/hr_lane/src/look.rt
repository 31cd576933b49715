//! The destination is looked at before the graph of a tag is copied. (OCI Distribution 1.1,
//! "Checking if content exists in the registry".)
ghost use Rattle.std.specs.Prelude.{◌≡◌, ◌≤◌, ◌<◌, ◌+◌};
ghost use Rattle.hr_event.specs.declared.reference.Reference.TheVariants as refer;
ghost use Rattle.hr_adapter.specs.Reg.{Reg};
ghost use Rattle.hr_blob.specs.Copies.{uncounted};
ghost use Rattle.hr_line.specs.Line.{LookEnds, LookFound, LookLine, decide};
ghost use Rattle.hr_lane.specs.Call.{IsCounted};

use crate::call::head;
use crate::cause::of_failing;
use crate::roll::{Roll, write};
use hr_adapter::Registry;
use hr_blob::Failing;
use hr_digest::Digest;
use hr_event::{Cause, Entry, How, Reference, What};
use hr_line::{Admitted, Work};
use hr_name::Tag;

/// Looks at what the tag names at the destination.
pub(crate) fn look<A: Registry>(
    dest: &mut A,
    log: &mut Roll<Entry>,
    by: &Admitted,
    work: Work,
    reference: &Reference,
    tag: Tag,
    shown: Tag,
) -> Result<Option<Work>, Cause>
    requires named { reference.now ≡ refer.Tag tag }
    requires same { shown ≡ tag }
    requires room { 2 ≤ log.old.room }
    ensures line { LookLine by.now tag work (A.seen dest.old) (A.seen dest.new)
        log.old.newest log.new.newest result }
    ensures room { log.old.room ≤ log.new.room + 2 }
{
    let found = head(dest, &by.spec.to, reference);
    take_look(log, by, work, tag, shown, found)
}

// What came of the look.
fn take_look(
    log: &mut Roll<Entry>,
    by: &Admitted,
    work: Work,
    tag: Tag,
    shown: Tag,
    found: Result<Option<Digest>, Failing>,
) -> Result<Option<Work>, Cause>
    requires same { shown ≡ tag }
    requires room { 2 ≤ log.old.room }
    ensures line { (p q : Reg) → IsCounted p q found → LookFound by.now tag work p q
        log.old.newest log.new.newest result (uncounted found) }
    ensures room { log.old.room ≤ log.new.room + 2 }
{
    match found {
        Ok(found) => keep_look(log, by, work, tag, shown, found),
        Err(failing) => Err(of_failing(failing, by.spec.dst)),
    }
}

// The destination told what the tag names: this decides, or the work goes on.
fn keep_look(
    log: &mut Roll<Entry>,
    by: &Admitted,
    work: Work,
    tag: Tag,
    shown: Tag,
    found: Option<Digest>,
) -> Result<Option<Work>, Cause>
    requires same { shown ≡ tag }
    requires room { 2 ≤ log.old.room }
    ensures line { LookEnds by.now tag work found log.old.newest log.new.newest result
        (decide found work.walk.root by.now.spec.override_it) }
    ensures room { log.old.room ≤ log.new.room + 2 }
{
    write(log, by, What::Looked { tag, found });
    let digest = work.walk.root();
    match decided(found, digest, by.spec.override_it) {
        Some(how) => {
            write(
                log,
                by,
                What::Show {
                    tag: shown,
                    digest,
                    old: found,
                    how,
                },
            );
            Ok(None)
        }
        None => Ok(Some(Work {
            looked: true,
            walk: work.walk,
        })),
    }
}

/// How a tag is finished without a put, where what it names decides so.
pub(crate) fn decided(found: Option<Digest>, root: Digest, override_it: bool) -> Option<How>
    ensures { result ≡ decide found root override_it }
{
    match found {
        Some(found) if found == root => Some(How::Same),
        Some(_) if !override_it => Some(How::Kept),
        _ => None,
    }
}
