//! The field lines with one name (RFC 9110, section 5.1).
ghost use Rattle.std.specs.Prelude.{◌++◌, List};
ghost use Rattle.hr_base.specs.Bytes.{Text};
ghost use Rattle.hr_frame.specs.Named.{named_value, values_named, IsNamed};

use crate::Head;

/// The values of the field lines with one name.
#[derive(Clone, Copy)]
pub(crate) enum Named<'a> {
    /// There is no such line.
    Absent,
    /// There is one, with this value.
    One(&'a [u8]),
    /// There are several.
    Many,
}

// What was found before a line, and with it.
fn with_line<'a>(named: Named<'a>, head: &'a Head, name: &[u8]) -> Named<'a>
    ensures { (values : List Text) → IsNamed values named.entry
        → IsNamed (values ++ named_value name.now head.entry.now) result }
{
    if !head.name.view().eq_ignore_ascii_case(name) {
        return named;
    }
    match named {
        Named::Absent => Named::One(head.value.view()),
        Named::One(_) | Named::Many => Named::Many,
    }
}

/// The values of the lines with this name, in any case.
pub(crate) fn find_named<'a>(heads: &'a [Head], name: &[u8]) -> Named<'a>
    ensures { IsNamed (values_named name.now heads.now) result }
{
    let mut found = Named::Absent;
    for head in heads {
        found = with_line(found, head, name);
    }
    found
}
