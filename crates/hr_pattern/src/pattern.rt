//! Patterns for the names of repositories and of tags. (Our own, after Harbor's filters.)
//!
//! In a pattern `\c` is the byte `c` itself. `*` stands for any run of bytes of one component, also
//! none, and `?` for one byte; `{a,b}` for one of its alternatives. Components are what `/`
//! separates, and one that is `**` and no more stands for any number of components, also none.
ghost use Rattle.std.specs.Prelude.{◌≡◌, ◌↔◌, IsTrue, IfOk, IfErr, OnOk, Some, None, nat_eq};
ghost use Rattle.std.specs.Cmp.{partial_equiv_from_equiv};
ghost use Rattle.std.specs.Cmp.Lexicographic.{nat_list_eq_equiv, pointwise};
ghost use Rattle.hr_pattern.specs.Form.{Fits, fault_of};
ghost use Rattle.hr_pattern.specs.Reading.{UnlessMemory};

use crate::expansion::some_covers;
use crate::form::count_forms;
use crate::part::read_parts;
use crate::refusal::{PatternRefused, Why};
use crate::sign::signs_of;
use hr_base::{Bytes, Memory};
use std::alloc::Global;
use std::marker::Model;

/// How many bytes a pattern has at most.
pub const LIMIT: usize = 1024;

/// A pattern, which contracts see as the bytes that were read.
#[derive(Debug, Drop)]
pub struct Pattern {
    text: Bytes,
    forms: usize,
}

impl Model for Pattern {
    ghost use Rattle.hr_base.specs.Bytes.{Text};

    ghost Value = { Text };

    ghost use Rattle.hr_pattern.specs.Form.{IsRead};

    ghost view = { λ p. p.text };

    ghost invariant = { λ p. IsRead p.text p.forms };
}

impl Pattern {
    /// Reads a pattern of at most `LIMIT` bytes, with at most `FORMS_LIMIT` expanded forms. It
    /// keeps the bytes and the count of the forms.
    pub fn read(alloc: Global, text: &[u8]) -> Result<Pattern, PatternRefused>
        ensures ok { OnOk result (fault_of text.now ≡ None) }
        ensures text { IfOk result (λ pattern. pattern ≡ text.now) }
        ensures refused { IfErr result (λ e. UnlessMemory e (fault_of text.now ≡ Some e)) }
    {
        if text.len() > LIMIT {
            return Err(PatternRefused::At {
                at: LIMIT as u32,
                why: Why::Long,
            });
        }
        let signs = signs_of(alloc, text)?;
        let reading = read_parts(alloc, signs.view())?;
        let forms = count_forms(reading.parts.view())?;
        if let Some(refused) = reading.fault {
            return Err(refused);
        }
        let text = Bytes::of(alloc, text)?;
        Ok(Pattern { text, forms })
    }

    /// Whether a text fits. It takes no memory: each expanded form is written into the same place
    /// of `LIMIT` items, and walked there. For one form it reads the pattern once and compares each
    /// item with each byte at most once, so that its time is within the count of the forms times
    /// the length of the pattern times the length of the text and one.
    pub fn fits(&self, text: &[u8]) -> bool
        ensures { IsTrue result ↔ Fits self.now text.now }
    {
        some_covers(self.text.view(), self.forms, text)
    }

    /// The bytes that were read. They are read again as an equal pattern.
    pub fn text(&self) -> &[u8]
        ensures value { result.now ≡ self.now }
        ensures sound { fault_of self.now ≡ None }
    {
        self.text.view()
    }

    /// An equal value.
    pub fn copy(&self, alloc: Global) -> Result<Pattern, Memory>
        ensures { IfOk result (λ made. made ≡ self.now) }
    {
        match Pattern::read(alloc, self.text()) {
            Ok(made) => Ok(made),
            Err(PatternRefused::Memory) => Err(Memory),
            Err(PatternRefused::At { .. }) => unreachable!(),
        }
    }
}

impl PartialEq for Pattern {
    ghost eq = { pointwise nat_eq };

    ghost laws = { partial_equiv_from_equiv nat_list_eq_equiv };

    fn eq(&self, other: &Pattern) -> bool {
        self.text() == other.text()
    }
}

impl Eq for Pattern {
    ghost laws = { nat_list_eq_equiv };
}

#[cfg(test)]
mod slow;
#[cfg(test)]
mod tests;
