//! The numbers of paths and queries: decimal digits, without a sign, and without a zero in front of
//! others. (Our own.)
ghost use Rattle.std.specs.Prelude.{◌≡◌, ◌-◌, ◌^◌, ◌&&◌, min, nat_le, option_map};
ghost use Rattle.std.specs.Char.{is_ascii_digit};
ghost use Rattle.std.specs.List.{list_all};
ghost use Rattle.hr_setting.specs.Member.{passing};
ghost use Rattle.hr_text.specs.Number.{begins_number};
ghost use Rattle.hr_rest.specs.Number.{id_in, is_number, number_in, page_in, size_in};

use std::str::from_utf8;

/// The last number that an execution, a job or a policy can have.
pub(crate) const LAST_NUMBER: u32 = u32::MAX;

/// How many items a page has at most.
pub(crate) const PAGE_LIMIT: u32 = 100;

/// The number of an execution: 1 to `LAST_NUMBER`.
pub(crate) fn id_in(text: &[u8]) -> Option<u32>
    ensures { result ≡ id_in text.now }
{
    within(number_in(text)?, LAST_NUMBER)
}

/// How many items a page has: 1 to `PAGE_LIMIT`.
pub(crate) fn size_in(text: &[u8]) -> Option<u32>
    ensures { result ≡ size_in text.now }
{
    within(number_in(text)?, PAGE_LIMIT)
}

/// The number of a page, from 1. A page past `LAST_NUMBER` counts as that one.
pub(crate) fn page_in(text: &[u8]) -> Option<u32>
    ensures { result ≡ page_in text.now }
{
    let number = number_in(text)?;
    if number >= 1 {
        Some(number.min(u64::from(LAST_NUMBER)) as u32)
    } else {
        None
    }
}

// A number that is 1 to `last`.
fn within(number: u64, last: u32) -> Option<u32>
    ensures { result ≡ passing (λ n. nat_le 1 n && nat_le n last) number }
{
    if 1 <= number && number <= u64::from(last) {
        Some(number as u32)
    } else {
        None
    }
}

// The number that a text writes, or 2^64 - 1 where it is greater.
fn number_in(text: &[u8]) -> Option<u64>
    ensures { result ≡ option_map (λ n. min n (2 ^ 64 - 1)) (number_in text.now) }
{
    if !is_number(text) {
        return None;
    }
    let Ok(text) = from_utf8(text) else {
        return None;
    };
    match text.parse() {
        Ok(number) => Some(number),
        Err(_) => Some(u64::MAX),
    }
}

fn is_number(text: &[u8]) -> bool
    ensures { result ≡ is_number text.now }
{
    begins_number(text) && are_digits(text)
}

fn are_digits(text: &[u8]) -> bool
    ensures { result ≡ list_all is_ascii_digit text.now }
{
    text.iter().all(|byte| byte.is_ascii_digit())
}

// Whether a text is the digit zero, or begins with another digit.
fn begins_number(text: &[u8]) -> bool
    ensures { result ≡ begins_number text.now }
{
    matches!(text, [b'0'] | [b'1'..=b'9', ..])
}
