//! What one word of a line stands for, by its kind. (Our own, but for names and tags: OCI
//! Distribution 1.1, "Pulling manifests".)
ghost use Rattle.std.specs.Prelude.{◌≡◌, IfSome, IfNone, ℕ};
ghost use Rattle.hr_script.specs.Meaning.{Answers};
ghost use Rattle.hr_script.specs.Word.{IsSmallNumber, job_count_in, job_in, lane_in, lane_numbered, layer_in, media_in, name_in, operation_in, policy_in, registry_in, revision_in, seconds_in, small_in, tag_in};

use crate::refusal::{Refused, Why};
use hr_base::{Bytes, JobNo, Memory, PolicyNo, RegNo};
use hr_name::{Name, NameRefused, Tag};
use hr_text::{is_unescaped, read_hex, read_number};
use std::alloc::Global;

// The number below 2^32 that a word writes.
fn number_in(word: &[u8]) -> Option<u32>
    ensures some { IfSome result (IsSmallNumber word.now) }
    ensures none { IfNone result ((number : ℕ) → IsSmallNumber word.now number → ⊥) }
{
    match read_number(word) {
        Some(number) if number <= u32::MAX as u64 => Some(number as u32),
        _ => None,
    }
}

/// The number of a registry, 1 to 8.
pub(crate) fn read_registry(word: &[u8]) -> Result<RegNo, Refused>
    ensures { Answers (registry_in word.now) result }
{
    match number_in(word) {
        Some(number) if 1 <= number && number <= 8 => Ok(RegNo(number as u8)),
        _ => Err(Refused::Bad(Why::Number)),
    }
}

/// The number of a policy, any below 2^32.
pub(crate) fn read_policy(word: &[u8]) -> Result<PolicyNo, Refused>
    ensures { Answers (policy_in word.now) result }
{
    match number_in(word) {
        Some(number) => Ok(PolicyNo(number)),
        None => Err(Refused::Bad(Why::Number)),
    }
}

/// The number of a job, any below 2^32.
pub(crate) fn read_job(word: &[u8]) -> Result<JobNo, Refused>
    ensures { Answers (job_in word.now) result }
{
    match number_in(word) {
        Some(number) => Ok(JobNo(number)),
        None => Err(Refused::Bad(Why::Number)),
    }
}

/// The number of a revision, 0 to 3.
pub(crate) fn read_revision(word: &[u8]) -> Result<u8, Refused>
    ensures { Answers (revision_in word.now) result }
{
    match number_in(word) {
        Some(number) if number <= 3 => Ok(number as u8),
        _ => Err(Refused::Bad(Why::Number)),
    }
}

/// How many jobs there may be, 1 to 262,144.
pub(crate) fn read_job_count(word: &[u8]) -> Result<u32, Refused>
    ensures { Answers (job_count_in word.now) result }
{
    match number_in(word) {
        Some(number) if 1 <= number && number <= 262_144 => Ok(number),
        _ => Err(Refused::Bad(Why::Number)),
    }
}

/// How many seconds may pass at once, 1,000,000,000 at most.
pub(crate) fn read_seconds(word: &[u8]) -> Result<u32, Refused>
    ensures { Answers (seconds_in word.now) result }
{
    match number_in(word) {
        Some(number) if number <= 1_000_000_000 => Ok(number),
        _ => Err(Refused::Bad(Why::Number)),
    }
}

/// The number of an operation, from 1.
pub(crate) fn read_operation(word: &[u8]) -> Result<u32, Refused>
    ensures { Answers (operation_in word.now) result }
{
    match number_in(word) {
        Some(number) if 1 <= number => Ok(number),
        _ => Err(Refused::Bad(Why::Number)),
    }
}

/// The number of a lane, which today is 0.
pub(crate) fn read_lane(word: &[u8]) -> Result<u32, Refused>
    ensures { Answers (lane_in word.now) result }
{
    let number = read_small(word)?;
    match lane_numbered(number) {
        Ok(lane) => Ok(lane),
        Err(why) => Err(Refused::Bad(why)),
    }
}

// The lane of a number: today there is lane 0 alone.
fn lane_numbered(number: u32) -> Result<u32, Why>
    ensures { result ≡ lane_numbered number }
{
    if number == 0 { Ok(0) } else { Err(Why::NotYet) }
}

/// Any number below 2^32.
pub(crate) fn read_small(word: &[u8]) -> Result<u32, Refused>
    ensures { Answers (small_in word.now) result }
{
    match number_in(word) {
        Some(number) => Ok(number),
        None => Err(Refused::Bad(Why::Number)),
    }
}

/// The name of a repository.
pub(crate) fn read_name(alloc: Global, word: &[u8]) -> Result<Name, Refused>
    ensures { Answers (name_in word.now) result }
{
    match Name::read(alloc, word) {
        Ok(name) => Ok(name),
        Err(NameRefused::Shape { at: _ }) => Err(Refused::Bad(Why::Name)),
        Err(NameRefused::TooLong { len: _ }) => Err(Refused::Bad(Why::Name)),
        Err(NameRefused::Memory) => Err(Refused::Memory),
    }
}

/// A tag.
pub(crate) fn read_tag(alloc: Global, word: &[u8]) -> Result<Tag, Refused>
    ensures { Answers (tag_in word.now) result }
{
    match Tag::read(alloc, word) {
        Ok(tag) => Ok(tag),
        Err(NameRefused::Shape { at: _ }) => Err(Refused::Bad(Why::Tag)),
        Err(NameRefused::TooLong { len: _ }) => Err(Refused::Bad(Why::Tag)),
        Err(NameRefused::Memory) => Err(Refused::Memory),
    }
}

/// The bytes of a layer or of another blob, at least one, in lower-case hexadecimal.
pub(crate) fn read_layer(alloc: Global, word: &[u8]) -> Result<Bytes, Refused>
    ensures { Answers (layer_in word.now) result }
{
    if word.is_empty() {
        return Err(Refused::Bad(Why::Hex));
    }
    match read_hex(alloc, word) {
        Ok(Some(bytes)) => Ok(bytes),
        Ok(None) => Err(Refused::Bad(Why::Hex)),
        Err(Memory) => Err(Refused::Memory),
    }
}

/// A media type, without a byte that JSON escapes.
pub(crate) fn read_media(alloc: Global, word: &[u8]) -> Result<Bytes, Refused>
    ensures { Answers (media_in word.now) result }
{
    if !is_unescaped(word) {
        return Err(Refused::Bad(Why::Policy));
    }
    Ok(Bytes::of(alloc, word)?)
}
