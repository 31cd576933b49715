//! The lines of the chunked coding byte by byte: those that give the size of a chunk, and those of
//! the trailer section (RFC 9112, sections 7.1, 7.1.1 and 7.1.2).
ghost use Rattle.std.specs.Prelude.{◌≡◌, ◌+◌, ◌<◌, ◌≤◌, ◌==◌, IfSome, Some, None, if◌then◌else◌};
ghost use Rattle.std.specs.Char.{digit_value};
ghost use Rattle.hr_body.specs.Stage.{part_step, size_step, digit_step, digit_more, chunk_start};
ghost use Rattle.hr_body.specs.Stage.{ahead, part_ahead};

use crate::{Coding, LINE_LIMIT, Part, Stage};
use httparse::{is_header_name_token, is_header_value_token, is_space_or_tab, parse_hex_digit};

/// In this part of a line, which may have `room` bytes more.
pub(crate) fn in_line(room: u32, part: Part) -> Stage
    ensures { result ≡ Stage.Between (Coding.Line room part) }
{
    Stage::Between(Coding::Line { room, part })
}

// Behind the digits of a size, or the blanks that follow them.
fn behind_size(room: u32, value: u64, byte: u8) -> Option<Stage>
    ensures next { result ≡ size_step room value byte }
    ensures less { IfSome result (λ stage. ahead stage ≤ room + 65540) }
{
    if is_space_or_tab(byte) {
        Some(in_line(room, Part::Blank { value }))
    } else if byte == b';' {
        Some(in_line(room, Part::Extension { value }))
    } else if byte == b'\r' {
        Some(in_line(room, Part::SizeFeed { value }))
    } else {
        None
    }
}

// Behind one digit more. The size is below 2^64 where it was below 2^60.
fn behind_digit(room: u32, count: u8, value: u64, digit: u64, byte: u8) -> Option<Stage>
    requires value { digit ≡ digit_value byte }
    requires small { digit < 16 }
    ensures next { result ≡ digit_more room count value byte }
    ensures less { IfSome result (λ stage. ahead stage ≤ room + 65540) }
{
    if count < 16 && value < 1 << 60 {
        let value = value * 16 + digit;
        let count = count + 1;
        Some(in_line(room, Part::Size { count, value }))
    } else {
        None
    }
}

// Behind a byte among the digits of a size.
fn in_digits(room: u32, count: u8, value: u64, byte: u8) -> Option<Stage>
    ensures next { result ≡ digit_step room count value byte }
    ensures less { IfSome result (λ stage. ahead stage ≤ room + 65540) }
{
    match parse_hex_digit(byte) {
        Some(digit) => behind_digit(room, count, value, digit, byte),
        None => {
            if count == 0 {
                None
            } else {
                behind_size(room, value, byte)
            }
        }
    }
}

// Behind a whole size line.
fn chunk_of(value: u64) -> Stage
    ensures next { result ≡ chunk_start value }
    ensures less { ahead result ≤ 65537 }
{
    if value == 0 {
        in_line(LINE_LIMIT, Part::FieldStart)
    } else {
        Stage::Chunk { more: value - 1 }
    }
}

/// Behind a byte of a line, which may have `room` bytes more.
pub(crate) fn behind_part(room: u32, part: Part, byte: u8) -> Option<Stage>
    ensures next { result ≡ part_step room part byte }
    ensures less { IfSome result (λ stage. ahead stage ≤ room + part_ahead part) }
{
    match part {
        Part::Size { count, value } => in_digits(room, count, value, byte),
        Part::Blank { value } => behind_size(room, value, byte),
        Part::Extension { value } => match byte {
            b'\r' => Some(in_line(room, Part::SizeFeed { value })),
            b'\n' => None,
            _ => Some(in_line(room, Part::Extension { value })),
        },
        Part::SizeFeed { value } => at_feed(byte, chunk_of(value)),
        Part::FieldStart => in_field_start(room, byte),
        Part::FieldName => in_field_name(room, byte),
        Part::FieldValue => in_field_value(room, byte),
        Part::FieldFeed => at_feed(byte, in_line(room, Part::FieldStart)),
        Part::LastFeed => at_feed(byte, Stage::Done),
    }
}

// This stage, where the byte is a line feed.
fn at_feed(byte: u8, stage: Stage) -> Option<Stage>
    ensures { result ≡ (if byte == 10 then Some stage else None) }
{
    if byte == b'\n' { Some(stage) } else { None }
}

// Behind the first byte of a field line, or of the empty line behind the last one.
fn in_field_start(room: u32, byte: u8) -> Option<Stage>
    ensures next { result ≡ part_step room Part.FieldStart byte }
    ensures less { IfSome result (λ stage. ahead stage ≤ room + 1) }
{
    if is_header_name_token(byte) {
        Some(in_line(room, Part::FieldName))
    } else if byte == b'\r' {
        Some(in_line(room, Part::LastFeed))
    } else {
        at_feed(byte, Stage::Done)
    }
}

// Behind a byte of a field's name.
fn in_field_name(room: u32, byte: u8) -> Option<Stage>
    ensures next { result ≡ part_step room Part.FieldName byte }
    ensures less { IfSome result (λ stage. ahead stage ≤ room + 1) }
{
    if is_header_name_token(byte) {
        Some(in_line(room, Part::FieldName))
    } else if byte == b':' {
        Some(in_line(room, Part::FieldValue))
    } else {
        None
    }
}

// Behind a byte of a field's value.
fn in_field_value(room: u32, byte: u8) -> Option<Stage>
    ensures next { result ≡ part_step room Part.FieldValue byte }
    ensures less { IfSome result (λ stage. ahead stage ≤ room + 1) }
{
    if is_header_value_token(byte) {
        Some(in_line(room, Part::FieldValue))
    } else if byte == b'\r' {
        Some(in_line(room, Part::FieldFeed))
    } else {
        at_feed(byte, in_line(room, Part::FieldStart))
    }
}
