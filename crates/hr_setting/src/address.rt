//! Base addresses of registries (RFC 9110, section 4.2.1; the URL Standard, section 4.4).
ghost use Rattle.std.specs.Prelude.{◌≡◌, IfOk, option_copied};
ghost use Rattle.std.specs.List.{list_all};
ghost use Rattle.hr_setting.specs.Address.{are_base_bytes, is_bare, is_base, is_root, is_url, stands_in_authority};

use hr_base::Memory;
use hr_text::cut;
use std::alloc::Global;
use url::{ParseError, Url};

/// Whether some bytes are the base address of a registry: a text of `http://`, a host, a port where
/// it has one, and an empty path or `/`. Which hosts and ports there are is the URL Standard's.
/// There is no user, query or fragment.
pub fn is_base(alloc: Global, text: &[u8]) -> Result<bool, Memory>
    ensures { IfOk result (λ answer. answer ≡ is_base text.now) }
{
    if !are_base_bytes(text) {
        return Ok(false);
    }
    match str::from_utf8(text) {
        Ok(text) => is_url(alloc, text),
        Err(_) => Ok(false),
    }
}

// Whether a text is a URL.
fn is_url(alloc: Global, text: &str) -> Result<bool, Memory>
    ensures { IfOk result (λ answer. answer ≡ is_url text.now) }
{
    match Url::parse(alloc, text) {
        Ok(_) => Ok(true),
        Err(ParseError::OutOfMemory | ParseError::Overflow) => Err(Memory),
        Err(_) => Ok(false),
    }
}

// Whether no byte of the text makes it more than a scheme, a host, a port and an empty path.
fn are_base_bytes(text: &[u8]) -> bool
    ensures { result ≡ are_base_bytes text.now }
{
    match text.strip_prefix(b"http://".as_slice()) {
        Some(rest) => is_bare(rest),
        None => false,
    }
}

// Whether what follows the scheme is bytes of a host and a port, and an empty path or `/`.
fn is_bare(rest: &[u8]) -> bool
    ensures { result ≡ is_bare rest.now }
{
    let (authority, path) = cut(rest, b'/');
    stand_in_authority(authority) && is_root(path)
}

fn stand_in_authority(text: &[u8]) -> bool
    ensures { result ≡ list_all stands_in_authority text.now }
{
    text.iter().all(|b| stands_in_authority(*b))
}

// Whether a host or a port may have this byte.
fn stands_in_authority(byte: u8) -> bool
    ensures { result ≡ stands_in_authority byte }
{
    byte > b' ' && byte != b'#' && byte != b'?' && byte != b'@' && byte != b'\\'
}

// Whether what stands behind the first `/` is nothing.
fn is_root(path: Option<&[u8]>) -> bool
    ensures { result ≡ is_root (option_copied path.entry) }
{
    match path {
        Some(path) => path.is_empty(),
        None => true,
    }
}
