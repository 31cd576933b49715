//! The parts of a pattern: its items and its groups of alternatives, up to the first fault.
ghost use Rattle.std.specs.Prelude.{◌≡◌, ◌≤◌, [], ◌∷◌, length, IfOk, IfErr};
ghost use Rattle.hr_pattern.specs.Reading.{outside, inside, with_part, stopped, Whole, Broken};
ghost use Rattle.hr_pattern.specs.Reading.{UnlessMemory};

use crate::item::Item;
use crate::refusal::{PatternRefused, Why};
use crate::sign::{Placed, Sign};
use hr_base::{List, Memory};
use std::alloc::Global;
use std::mem;

/// A group of alternatives, with the place of its `{`. An item outside a group is a part with one
/// alternative, of one item.
#[derive(Debug, Drop, PartialEq, Eq)]
pub struct Part {
    pub at: u32,
    pub choices: List<List<Item>>,
}

/// What signs read as: the parts before the first fault, and that fault.
#[derive(Debug, Drop, PartialEq, Eq)]
pub struct Reading {
    pub parts: List<Part>,
    pub fault: Option<PatternRefused>,
}

/// What the signs of a text read as.
pub fn read_parts(alloc: Global, signs: &[Placed]) -> Result<Reading, Memory>
    ensures { IfOk result (λ reading. reading ≡ outside signs.now) }
{
    let mut parts = List::new(alloc);
    let mut left = signs;
    while let Some((placed, rest)) = left.split_first() {
        match read_part(alloc, *placed, rest) {
            Ok((part, later)) => {
                parts.push(part)?;
                left = later;
            }
            Err(PatternRefused::Memory) => return Err(Memory),
            Err(fault) => {
                return Ok(Reading {
                    parts,
                    fault: Some(fault),
                });
            }
        }
    }
    Ok(Reading { parts, fault: None })
}

// The part that begins with a sign, and the signs behind it.
fn read_part(
    alloc: Global,
    placed: Placed,
    rest: &[Placed],
) -> Result<(Part, &[Placed]), PatternRefused>
    ensures ok { IfOk result (λ read. outside (placed ∷ rest.now)
        ≡ with_part read.0 (outside read.1.now)) }
    ensures shorter { IfOk result (λ read. length read.1.now ≤ length rest.now) }
    ensures err { IfErr result (λ e. UnlessMemory e (outside (placed ∷ rest.now) ≡ stopped e)) }
{
    let at = placed.at;
    match placed.sign {
        Sign::Stands(item) => Ok((lone(alloc, at, item)?, rest)),
        Sign::Comma => Ok((lone(alloc, at, Item::Byte(b','))?, rest)),
        Sign::Open => match read_group(alloc, at, rest) {
            Ok((choices, later)) => Ok((Part { at, choices }, later)),
            Err(refused) => Err(refused),
        },
        Sign::Close => Err(PatternRefused::At {
            at,
            why: Why::Stray,
        }),
        Sign::Wrong(why) => Err(PatternRefused::At { at, why }),
    }
}

// The part of one item.
fn lone(alloc: Global, at: u32, item: Item) -> Result<Part, Memory>
    ensures { IfOk result (λ part. part ≡ record { at = at; choices = (item ∷ []) ∷ [] }) }
{
    let mut choice = List::new(alloc);
    choice.push(item)?;
    let mut choices = List::new(alloc);
    choices.push(choice)?;
    Ok(Part { at, choices })
}

// The alternatives of a group whose `{` stands at `brace`, and the signs behind its `}`.
fn read_group(
    alloc: Global,
    brace: u32,
    signs: &[Placed],
) -> Result<(List<List<Item>>, &[Placed]), PatternRefused>
    ensures ok { IfOk result (λ read. inside brace signs.now ≡ Whole read.0 (outside read.1.now)) }
    ensures shorter { IfOk result (λ read. length read.1.now ≤ length signs.now) }
    ensures err { IfErr result (λ e. UnlessMemory e (inside brace signs.now ≡ Broken e)) }
{
    let mut choices = List::new(alloc);
    let mut items = List::new(alloc);
    let mut left = signs;
    while let Some((placed, rest)) = left.split_first() {
        let at = placed.at;
        match placed.sign {
            Sign::Stands(item) => items.push(item)?,
            Sign::Comma => choices.push(mem::replace(&mut items, List::new(alloc)))?,
            Sign::Close => {
                choices.push(items)?;
                return Ok((choices, rest));
            }
            Sign::Open => {
                return Err(PatternRefused::At {
                    at,
                    why: Why::Nested,
                });
            }
            Sign::Wrong(why) => return Err(PatternRefused::At { at, why }),
        }
        left = rest;
    }
    Err(PatternRefused::At {
        at: brace,
        why: Why::Unclosed,
    })
}
