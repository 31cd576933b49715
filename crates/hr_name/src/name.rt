//! Names of repositories (OCI Distribution 1.1, "Pulling manifests").
ghost use Rattle.std.specs.Prelude.{◌≡◌, ◌<◌, ◌≤◌, ◌↔◌, ◌&&◌, ℕ, IfOk, IsOk, length, nat_le};
ghost use Rattle.hr_name.specs.Answer.{AnswersTest};
ghost use Rattle.hr_name.specs.Front.{IsFaultAt};
ghost use Rattle.hr_name.specs.Name.{IsName};
ghost use Rattle.hr_name.specs.Place.{is_name};

use crate::NameRefused;
use crate::place::name_fault;
use hr_base::{Bytes, Memory};
use std::alloc::Global;
use std::marker::Model;

/// How many bytes a name has at most. (Our own; many clients have the same limit.)
pub const NAME_LIMIT: usize = 255;

/// The name of a repository, as `library/alpine`, of 1 to `NAME_LIMIT` bytes.
#[derive(Debug, Drop)]
pub struct Name {
    bytes: Bytes,
}

impl Model for Name {
    ghost use Rattle.std.specs.Prelude.{◌≤◌, length};
    ghost use Rattle.hr_name.specs.Name.{IsName, RepoName};
    ghost use Rattle.hr_name.specs.declared.name.TheConstants.{NAME_LIMIT};

    ghost Value = { RepoName };

    ghost view = { λ n. n.bytes };

    ghost invariant = { λ n. IsName n.bytes × (length n.bytes ≤ NAME_LIMIT) };
}

impl Name {
    /// Reads a whole text as a name: components of lower-case letters and digits, with `.`, `_`,
    /// `__` or any number of `-` between two runs of them, joined by `/`.
    pub fn read(alloc: Global, text: &[u8]) -> Result<Name, NameRefused>
        ensures ok { IfOk result (λ name. name ≡ text.now) }
        ensures named { IsOk result → IsName text.now × (length text.now ≤ NAME_LIMIT) }

        // The length is looked at first.
        ensures too_long { (len : ℕ) → (result ≡ Err (NameRefused.TooLong len))
            ↔ ((len ≡ length text.now) × (NAME_LIMIT < len)) }
        ensures shape { (at : ℕ) → (result ≡ Err (NameRefused.Shape at))
            ↔ ((length text.now ≤ NAME_LIMIT) × IsFaultAt IsName text.now at) }
        ensures memory { (result ≡ Err NameRefused.Memory)
            → IsName text.now × (length text.now ≤ NAME_LIMIT) }

        // The same as a test that computes.
        ensures test { AnswersTest (is_name text.now && nat_le (length text.now) NAME_LIMIT) result }
    {
        if text.len() > NAME_LIMIT {
            return Err(NameRefused::TooLong {
                len: text.len() as u64,
            });
        }
        if let Some(at) = name_fault(text) {
            return Err(NameRefused::Shape { at: at as u32 });
        }
        Ok(Name {
            bytes: Bytes::of(alloc, text)?,
        })
    }

    /// The bytes of the name.
    pub fn view(&self) -> &[u8]
        ensures value { result.now ≡ self.now }
        ensures is_name { IsName self.now }
        ensures short { length self.now ≤ NAME_LIMIT }
    {
        self.bytes.view()
    }

    /// An equal name.
    pub fn copy(&self, alloc: Global) -> Result<Name, Memory>
        ensures { IfOk result (λ made. made ≡ self.now) }
    {
        Ok(Name {
            bytes: self.bytes.copy(alloc)?,
        })
    }
}
