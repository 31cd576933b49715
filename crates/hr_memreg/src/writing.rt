//! A blob that is being written (OCI Distribution 1.1, "Pushing blobs").
ghost use Rattle.std.specs.Prelude.{◌≡◌, OnErr};
ghost use Rattle.hr_adapter.specs.Calls.{with_piece};
ghost use Rattle.hr_memreg.specs.Begun.{writing_of};

use hr_adapter::RegFault;
use hr_name::Name;

/// A writing that was begun.
#[derive(Drop)]
pub(crate) struct Begun {
    pub(crate) repo: Name,
    pub(crate) bytes: Vec<u8>,
    /// Whether a piece of it failed.
    pub(crate) broken: bool,
    /// The number of its operation.
    pub(crate) number: u64,
}

impl Begun {
    /// Adds a piece. Without memory for it the writing is broken.
    pub(crate) fn add(&mut self, piece: &[u8]) -> Result<(), RegFault>
        ensures added { writing_of self.new ≡ with_piece piece.now result (writing_of self.old) }
        ensures only { OnErr result (result ≡ Err RegFault.Memory) }
    {
        match self.bytes.extend_from_slice(piece) {
            Ok(()) => Ok(()),
            Err(_) => {
                self.broken = true;
                Err(RegFault::Memory)
            }
        }
    }
}
