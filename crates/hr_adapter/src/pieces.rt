//! Blobs written and compared in pieces, for the cases of a registry. (Our own.)
ghost use Rattle.std.specs.Prelude.{IsSome, OnOk, []};
ghost use Rattle.hr_adapter.specs.Pieces.{HasWritten};

use crate::{RegFault, Registry};
use hr_base::PIECE;
use hr_digest::Digest;
use hr_name::Name;

/// Writes a blob in pieces of `PIECE` bytes, the last of which may be shorter, and stores it under
/// its digest.
pub(crate) fn put_blob<R: Registry>(
    registry: &mut R,
    repo: &Name,
    bytes: &[u8],
) -> Result<(), RegFault> {
    registry.begin_put(repo)?;
    write_pieces(registry, bytes)?;
    registry.end_put(&Digest::of(bytes))
}

/// Writes all of the bytes to a blob that was begun.
pub(crate) fn write_pieces<R: Registry>(registry: &mut R, bytes: &[u8]) -> Result<(), RegFault>
    requires { HasWritten [] (R.seen registry.old).writing }
    ensures { OnOk result (HasWritten bytes.now (R.seen registry.new).writing) }
{
    let mut at = 0;
    'pieces: while at < bytes.len() {
        let end = bytes.len().min(at.saturating_add(PIECE));
        registry.write_put(&bytes[at..end])?;
        at = end;
    }
    Ok(())
}

/// Reads the open blob through a buffer that is not empty, up to its end or the first piece that
/// isn't as wanted, and answers whether its bytes are those.
pub(crate) fn reads_as<R: Registry>(
    registry: &mut R,
    wanted: &[u8],
    buf: &mut [u8],
) -> Result<bool, RegFault>
    requires { IsSome (R.seen registry.old).reading }
{
    let mut at = 0;
    'pieces: loop {
        let count = registry.read_blob(buf)?;
        if count == 0 {
            return Ok(at == wanted.len());
        }
        if wanted.len() - at < count || buf[..count] != wanted[at..at + count] {
            return Ok(false);
        }
        at += count;
    }
}
