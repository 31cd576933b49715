//! The signs of a pattern's text: what each byte stands for, where a `\` makes the next byte plain.
ghost use Rattle.std.specs.Prelude.{◌≡◌, ◌<◌, ◌≤◌, ◌∷◌, length, drop, IfOk};
ghost use Rattle.hr_pattern.specs.Sign.{sign_of, signs_from};

use crate::item::Item;
use crate::pattern::LIMIT;
use crate::refusal::Why;
use hr_base::{List, Memory};
use std::alloc::Global;

/// What a byte of a pattern's text, or a byte behind a `\`, stands for.
#[derive(Clone, Copy, Debug, PartialEq, Eq)]
pub enum Sign {
    /// An item, within a group and outside.
    Stands(Item),
    /// A `{`.
    Open,
    /// A `,`, which is a plain byte outside a group.
    Comma,
    /// A `}`.
    Close,
    /// What is wrong within a group and outside.
    Wrong(Why),
}

/// A sign with its place in the text, in bytes from 0.
#[derive(Clone, Copy, Debug, PartialEq, Eq)]
pub struct Placed {
    pub at: u32,
    pub sign: Sign,
}

/// The signs of a text, in order.
pub fn signs_of(alloc: Global, text: &[u8]) -> Result<List<Placed>, Memory>
    requires { length text.now ≤ LIMIT }
    ensures { IfOk result (λ signs. signs ≡ signs_from 0 text.now) }
{
    let mut signs = List::new(alloc);
    let mut at = 0;
    while at < text.len() {
        let (sign, next) = sign_at(text, at);
        signs.push(Placed {
            at: at as u32,
            sign,
        })?;
        at = next;
    }
    Ok(signs)
}

/// The sign at a place of a text, and the place behind it.
pub fn sign_at(text: &[u8], at: usize) -> (Sign, usize)
    requires { at < length text.now }
    ensures sign { signs_from at (drop at text.now)
        ≡ record { at = at; sign = result.0 } ∷ signs_from result.1 (drop result.1 text.now) }
    ensures later { at < result.1 }
    ensures within { result.1 ≤ length text.now }
{
    if text[at] != b'\\' {
        return (sign_of(text[at]), at + 1);
    }
    if at + 1 == text.len() {
        return (Sign::Wrong(Why::Escape), at + 1);
    }
    (Sign::Stands(Item::Byte(text[at + 1])), at + 2)
}

// What a byte other than `\` stands for.
fn sign_of(byte: u8) -> Sign
    ensures { result ≡ sign_of byte }
{
    match byte {
        b'*' => Sign::Stands(Item::Any),
        b'?' => Sign::Stands(Item::One),
        b'{' => Sign::Open,
        b',' => Sign::Comma,
        b'}' => Sign::Close,
        b'[' => Sign::Wrong(Why::Class),
        _ => Sign::Stands(Item::Byte(byte)),
    }
}
