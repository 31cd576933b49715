//! The field lines of requests and replies (RFC 9110, section 5).
ghost use Rattle.std.specs.Prelude.{◌≡◌, ◌∷◌, ◌++◌, [], OnOk};
ghost use Rattle.std.specs.Option.{option_copied};
ghost use Rattle.hr_frame.specs.Named.{named_value, values_named};
ghost use Rattle.hr_route.specs.Found.{IsFound, as_list};
ghost use Rattle.hr_wire.specs.Line.{line, only};

use hr_base::{Bytes, List, Memory};
use hr_http1::Head;
use hr_route::Found;
use std::alloc::Global;

/// The values of the lines with this name, in any case.
pub(crate) fn find_line<'a>(heads: &'a [Head], name: &[u8]) -> Found<'a>
    ensures { IsFound (values_named name.now heads.now) result }
{
    let mut found = Found::Absent;
    for head in heads {
        found = found.with(value_named(head, name));
    }
    found
}

/// The value of the one line with this name, in any case.
pub(crate) fn only_line<'a>(heads: &'a [Head], name: &[u8]) -> Option<&'a [u8]>
    ensures { option_copied result ≡ only (values_named name.now heads.now) }
{
    match find_line(heads, name) {
        Found::Absent => None,
        Found::One(value) => Some(value),
        Found::Many => None,
    }
}

// The value of a line, where it has this name.
fn value_named<'a>(head: &'a Head, name: &[u8]) -> Option<&'a [u8]>
    ensures { as_list (option_copied result) ≡ named_value name.now head.entry.now }
{
    if head.name.view().eq_ignore_ascii_case(name) {
        Some(head.value.view())
    } else {
        None
    }
}

/// Puts a line behind others.
pub(crate) fn put_line(
    alloc: Global,
    heads: &mut List<Head>,
    name: &[u8],
    value: &[u8],
) -> Result<(), Memory>
    ensures { OnOk result (heads.new ≡ heads.old ++ line name.now value.now ∷ []) }
{
    let name = Bytes::of(alloc, name)?;
    let value = Bytes::of(alloc, value)?;
    heads.push(Head { name, value })
}
