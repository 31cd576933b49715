//! How the bytes of an open blob become those of a blob that is being written: piece by piece, each
//! of which fills the buffer, but the last.
ghost use Rattle.std.specs.Prelude.{◌≡◌, ◌≤◌, ◌<◌, ◌++◌, [], IsSome, MatchResult, length, take};
ghost use Rattle.hr_adapter.specs.Calls.{IsOpen};
ghost use Rattle.hr_blob.specs.Pieces.{Fills, IsBlank, ReadBreaks, ReadsAt, SendsAll, TookPieces, WriteBreaks};

use crate::{Failing, NotCopied};
use hr_adapter::{BLOB_LIMIT, Registry};
use hr_base::PIECE;
use hr_digest::Check;

// Sends all bytes of the open blob to the one that is being written, and feeds them to the check.
pub(crate) fn send_all<S: Registry, D: Registry>(
    source: &mut S,
    dest: &mut D,
    check: &mut Check,
    buf: &mut [u8],
) -> Result<u64, NotCopied>
    requires found { IsSome (S.seen source.old).reading }
    requires blank { IsBlank (D.seen dest.old).writing }
    requires fresh { check.old ≡ [] }
    requires buffer { length buf.old ≡ PIECE }
    ensures { SendsAll check.new (S.seen source.old) (S.seen source.new)
        (D.seen dest.old) (D.seen dest.new) result }
{
    let mut len = 0;
    'pieces: loop {
        let count = match fill(source, buf) {
            Ok(count) => count,
            Err(failing) => return Err(NotCopied::Unread(failing)),
        };
        len += count as u64;
        if len > BLOB_LIMIT {
            return Err(NotCopied::TooLong { len });
        }
        if let Err(failing) = send(dest, check, &buf[..count]) {
            return Err(NotCopied::Unwritten(failing));
        }
        if count < buf.len() {
            return Ok(len);
        }
    }
}

// Fills the buffer, or as much of it as bytes are left.
fn fill<S: Registry>(source: &mut S, buf: &mut [u8]) -> Result<usize, Failing>
    requires { IsSome (S.seen source.old).reading }
    ensures { MatchResult result
        (λ count. Fills buf.new count (S.seen source.old) (S.seen source.new))
        (λ f. ReadBreaks f (S.seen source.old) (S.seen source.new)) }
{
    let mut at = 0;
    'reads: while at < buf.len() {
        let count = read(source, buf, at)?;
        if count == 0 {
            return Ok(at);
        }
        at += count;
    }
    Ok(at)
}

// Reads into the buffer from a place on.
fn read<S: Registry>(source: &mut S, buf: &mut [u8], at: usize) -> Result<usize, Failing>
    requires found { IsSome (S.seen source.old).reading }
    requires room { at < length buf.old }
    ensures front { take at buf.new ≡ take at buf.old }
    ensures read { MatchResult result
        (λ count. ReadsAt at buf.new count (S.seen source.old) (S.seen source.new))
        (λ f. ReadBreaks f (S.seen source.old) (S.seen source.new)) }
{
    let before = source.count();
    match source.read_blob(&mut buf[at..]) {
        Ok(count) => Ok(count),
        Err(fault) => Err(Failing {
            fault,
            before,
            after: source.count(),
        }),
    }
}

// Writes a piece, and feeds it to the check. An empty one is none.
fn send<D: Registry>(dest: &mut D, check: &mut Check, piece: &[u8]) -> Result<(), Failing>
    requires begun { IsOpen (D.seen dest.old).writing }
    requires most { length piece.now ≤ PIECE }
    ensures fed { check.new ≡ check.old ++ piece.now }
    ensures wrote { MatchResult result
        (λ _. TookPieces piece.now (D.seen dest.old) (D.seen dest.new))
        (λ f. WriteBreaks f piece.now (D.seen dest.old) (D.seen dest.new)) }
{
    check.feed(piece);
    if piece.is_empty() {
        return Ok(());
    }
    let before = dest.count();
    match dest.write_put(piece) {
        Ok(()) => Ok(()),
        Err(fault) => Err(Failing {
            fault,
            before,
            after: dest.count(),
        }),
    }
}
