//! The texts of a check, each a line. (Our own.)
ghost use Rattle.std.specs.Prelude.{◌≡◌, ◌≢◌, IfOk};
ghost use Rattle.hr_top.specs.Wording.{field_text, fit_text, key_text, missing_text, numbered_text, refused_text};

use hr_base::{Bytes, Memory};
use hr_policy::{ConfigRefused, Key};
use std::alloc::Global;

/// The bytes are a configuration with so many registries and policies.
pub(crate) fn fit_line(alloc: Global, registries: usize, policies: usize) -> Result<Bytes, Memory>
    ensures { IfOk result (λ text. text ≡ fit_text registries policies) }
{
    let line = format!(in alloc; "ok registries {registries} policies {policies}\n")?;
    Ok(Bytes::from(line.into_bytes()))
}

/// No file stands at the path.
pub(crate) fn missing_line(alloc: Global) -> Result<Bytes, Memory>
    ensures { IfOk result (λ text. text ≡ missing_text) }
{
    Bytes::of(alloc, b"config missing\n")
}

/// The bytes are no configuration, by their first fault.
pub(crate) fn refused_line(alloc: Global, why: ConfigRefused) -> Result<Bytes, Memory>
    ensures says { IfOk result (λ text. text ≡ refused_text why) }
    ensures memory { IfOk result (λ _. why ≢ ConfigRefused.Memory) }
{
    match why {
        ConfigRefused::TooLong { len } => numbered_line(alloc, "long", len),
        ConfigRefused::NotJson => Bytes::of(alloc, b"config json\n"),
        ConfigRefused::Field { policy, name } => field_line(alloc, policy, key_word(name)),
        ConfigRefused::Repeated { id } => numbered_line(alloc, "repeated", id as u64),
        ConfigRefused::Unknown { reg } => numbered_line(alloc, "unknown", reg as u64),
        ConfigRefused::SameRegistry { policy } => numbered_line(alloc, "same", policy as u64),
        ConfigRefused::Chain { reg } => numbered_line(alloc, "chain", reg as u64),
        ConfigRefused::Memory => Err(Memory),
    }
}

// A fault that is told by a word and a number.
fn numbered_line(alloc: Global, what: &str, number: u64) -> Result<Bytes, Memory>
    ensures { IfOk result (λ text. text ≡ numbered_text what.now number) }
{
    let line = format!(in alloc; "config {what} {number}\n")?;
    Ok(Bytes::from(line.into_bytes()))
}

// A member of the policy with this number is bad, or of none where the number is 0.
fn field_line(alloc: Global, policy: u32, key: &str) -> Result<Bytes, Memory>
    ensures { IfOk result (λ text. text ≡ field_text policy key.now) }
{
    let line = format!(in alloc; "config field {policy} {key}\n")?;
    Ok(Bytes::from(line.into_bytes()))
}

// A member, by the name that it has in a configuration.
fn key_word(key: Key) -> &'static str
    ensures { result.now ≡ key_text key }
{
    match key {
        Key::Version => "version",
        Key::Lanes => "lanes",
        Key::Jobs => "jobs",
        Key::Keep => "keep",
        Key::Registries => "registries",
        Key::Id => "id",
        Key::Kind => "kind",
        Key::At => "at",
        Key::Policies => "policies",
        Key::Name => "name",
        Key::Enabled => "enabled",
        Key::Src => "src",
        Key::Dst => "dst",
        Key::Namespace => "namespace",
        Key::Replace => "replace",
        Key::Override => "override",
        Key::Attempts => "attempts",
        Key::Trigger => "trigger",
        Key::Filters => "filters",
        Key::Value => "value",
        Key::Decoration => "decoration",
    }
}
