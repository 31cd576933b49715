//! What may be asked of files, and what contracts know of them. (Our own.)
ghost use Rattle.std.specs.Prelude.{◌≡◌, Option, IfSome};
ghost use Rattle.hr_cause.specs.Stream.{HasCause};
ghost use Rattle.hr_tree.specs.Path.{IsPath};
ghost use Rattle.hr_tree.specs.Tree.{Files, ReadsFile, IsFailed, IsWithin};

use crate::TreeFault;
use hr_base::Bytes;
use hr_cause::Counted;

/// Files by their paths.
pub trait Tree: Counted {
    /// The files, where it tells.
    ghost files: { Self → Option Files };

    /// The whole file at a path, of at most `limit` bytes, or `None` where no file stands there.
    fn read_file(&mut self, path: &[u8], limit: u64) -> Result<Option<Bytes>, TreeFault>
        requires { IsPath path.now }
        ensures told { IfSome (Self.files self.old) (λ files. ReadsFile files path.now limit result) }
        ensures within { IsWithin limit result }
        ensures unchanged { Self.files self.new ≡ Self.files self.old }
        ensures cause { HasCause IsFailed (Self.faults self.old) (Self.faults self.new) result };
}
