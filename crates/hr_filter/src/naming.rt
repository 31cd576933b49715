//! The names under which repositories go to a destination. (Our own, after Harbor's flattening.)
ghost use Rattle.std.specs.Prelude.{◌≡◌, ◌≤◌, ◌<◌, ◌↔◌, ◌++◌, ◌∷◌, ◌≤ℤ◌, ◌==◌, ℕ, pos, negsuc, length, IfOk};
ghost use Rattle.std.specs.List.{join_with_byte, position};
ghost use Rattle.std.specs.Option.{option_copied};
ghost use Rattle.hr_name.specs.Name.{IsName};
ghost use Rattle.hr_pattern.specs.Component.{components};
ghost use Rattle.hr_filter.specs.Naming.{behind_leading, destination_of, left_by};

use hr_base::Memory;
use hr_name::{NAME_LIMIT, Name, NameRefused};
use std::alloc::Global;

/// Why a repository has no name at the destination.
#[derive(Clone, Copy, Debug, PartialEq, Eq)]
pub enum DestRefused {
    /// The name would have `len` bytes, more than `NAME_LIMIT`.
    TooLong { len: u64 },
    /// There was no memory for it.
    Memory,
}

impl From<Memory> for DestRefused {
    ghost use Rattle.hr_filter.specs.declared.naming.DestRefused.TheVariants.{Memory as no_memory};

    ghost from_gives = { λ _ e. e ≡ no_memory };

    fn from(_: Memory) -> DestRefused {
        DestRefused::Memory
    }
}

/// The name of a repository at the destination. Without a namespace it keeps its name. Else its
/// leading components give way to the namespace: so many as the count says, but never the last, and
/// for the count -1 all but the last.
pub fn destination(
    alloc: Global,
    namespace: Option<&Name>,
    count: i8,
    name: &Name,
) -> Result<Name, DestRefused>
    requires least { negsuc 0 ≤ℤ count }
    requires most { count ≤ℤ pos 3 }
    ensures ok { IfOk result (λ made.
        made ≡ destination_of (option_copied namespace.entry) count name.now) }
    ensures too_long { (len : ℕ) → (result ≡ Err (DestRefused.TooLong len))
        ↔ ((len ≡ length (destination_of (option_copied namespace.entry) count name.now))
        × (NAME_LIMIT < len)) }
{
    let text = name.view();
    let Some(namespace) = namespace else {
        return Ok(name.copy(alloc)?);
    };
    let left = left_of(text, count);
    let len = namespace.view().len() + 1 + left.len();
    if len > NAME_LIMIT {
        return Err(DestRefused::TooLong { len: len as u64 });
    }
    Ok(joined(alloc, namespace.view(), left)?)
}

// The bytes of the components that a count leaves.
fn left_of(name: &[u8], count: i8) -> &[u8]
    requires named { IsName name.now }
    requires short { length name.now ≤ NAME_LIMIT }
    requires least { negsuc 0 ≤ℤ count }
    requires most { count ≤ℤ pos 3 }
    ensures left { result.now ≡ join_with_byte 47 (left_by count (components name.now)) }
    ensures named { IsName result.now }
    ensures short { length result.now ≤ NAME_LIMIT }
{
    if count < 0 {
        // It has no more components than bytes.
        return behind_leading(name, name.len());
    }
    behind_leading(name, count as usize)
}

// The bytes behind so many leading components and the `/` of each, but with the last component.
fn behind_leading(name: &[u8], count: usize) -> &[u8]
    requires { IsName name.now }
    ensures left { result.now ≡ join_with_byte 47 (behind_leading count (components name.now)) }
    ensures named { IsName result.now }
    ensures shorter { length result.now ≤ length name.now }
{
    let mut left = name;
    for _ in 0..count {
        let Some(end) = first_slash(left) else {
            return left;
        };
        left = &left[end + 1..];
    }
    left
}

fn first_slash(text: &[u8]) -> Option<usize>
    ensures { result ≡ position (λ byte. byte == 47) text.now }
{
    text.iter().position(|byte| *byte == b'/')
}

// The name of two with `/` between them.
fn joined(alloc: Global, front: &[u8], back: &[u8]) -> Result<Name, Memory>
    requires front { IsName front.now }
    requires back { IsName back.now }
    requires short { length (front.now ++ 47 ∷ back.now) ≤ NAME_LIMIT }
    ensures { IfOk result (λ name. name ≡ front.now ++ 47 ∷ back.now) }
{
    let mut text = front.to_vec(alloc)?;
    text.push(b'/')?;
    text.extend_from_slice(back)?;
    match Name::read(alloc, &text) {
        Ok(name) => Ok(name),
        Err(NameRefused::Memory) => Err(Memory),
        Err(NameRefused::Shape { .. }) => unreachable!(),
        Err(NameRefused::TooLong { .. }) => unreachable!(),
    }
}
