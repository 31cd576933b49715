//! A configuration, read from its bytes.
ghost use Rattle.std.specs.Prelude.{◌≡◌, ◌≢◌, ◌≤◌, length, IfOk, IfErr, Some, None, option_and_then};
ghost use Rattle.hr_json.specs.Doc.{content_of as document_content, document_of};
ghost use Rattle.hr_json.specs.Node.{value_of};
ghost use Rattle.hr_policy.specs.Reading.{config_in, config_of, content_of};
ghost use Rattle.hr_policy.specs.Step.{Gives};
ghost use Rattle.hr_setting.specs.Member.{object_in};

use crate::fault::fault_of;
use crate::policy::read_policies;
use crate::refusal::refused;
use crate::registry::read_registries;
use crate::{Config, ConfigRefused, Key};
use hr_json::{Doc, JsonRefused, Node};
use hr_setting::{list_at, whole_at, whole_or};
use std::alloc::Global;

/// How many bytes a configuration has at most. (Our own.)
pub const CONFIG_LIMIT: usize = 1_048_576;

impl Config {
    /// Reads a configuration: a JSON object of `version` 1, with `lanes`, `jobs`, `keep`,
    /// `registries` and `policies`. Other members are passed over, and of two members of one name
    /// the last one counts.
    pub fn read(alloc: Global, bytes: &[u8]) -> Result<Config, ConfigRefused>
        // What the bytes say, or their first fault, unless memory ran out.
        ensures { Gives result (config_of bytes.now) }
    {
        if bytes.len() > CONFIG_LIMIT {
            return Err(ConfigRefused::TooLong {
                len: bytes.len() as u64,
            });
        }
        let doc = match read_object(alloc, bytes) {
            Ok(doc) => doc,
            Err(why) => return Err(why),
        };
        read_config(alloc, &doc.root())
    }
}

// The object that the bytes are.
fn read_object(alloc: Global, bytes: &[u8]) -> Result<Doc, ConfigRefused>
    requires { length bytes.now ≤ CONFIG_LIMIT }
    ensures ok { IfOk result (λ doc. option_and_then object_in (document_of bytes.now)
        ≡ Some (document_content doc)) }
    ensures err { IfErr result (λ why. why ≢ ConfigRefused.Memory → (why ≡ ConfigRefused.NotJson)
        × (option_and_then object_in (document_of bytes.now) ≡ None)) }
{
    match Doc::read(alloc, bytes) {
        Ok(doc) if doc.root().is_object() => Ok(doc),
        Ok(_) | Err(JsonRefused::NotJson) => Err(ConfigRefused::NotJson),
        Err(JsonRefused::Memory) => Err(ConfigRefused::Memory),
        // A document may be longer than a configuration.
        Err(JsonRefused::TooLong { .. }) => unreachable!(),
    }
}

fn read_config(alloc: Global, root: &Node<'_>) -> Result<Config, ConfigRefused>
    ensures { Gives result (config_in (value_of root.now)) }
{
    let config = match read_content(alloc, root) {
        Ok(config) => config,
        Err(why) => return Err(why),
    };
    match fault_of(alloc, &config)? {
        None => Ok(config),
        Some(why) => Err(why),
    }
}

fn read_content(alloc: Global, root: &Node<'_>) -> Result<Config, ConfigRefused>
    ensures { Gives result (content_of (value_of root.now)) }
{
    let Some(_) = whole_at(root, "version", 1, 1) else {
        return Err(refused(0, Key::Version));
    };
    let Some(lanes) = whole_or(root, "lanes", 4, 1, 64) else {
        return Err(refused(0, Key::Lanes));
    };
    let Some(jobs) = whole_or(root, "jobs", 16_384, 1, 262_144) else {
        return Err(refused(0, Key::Jobs));
    };
    let Some(keep) = whole_or(root, "keep", 50, 0, 1_000_000) else {
        return Err(refused(0, Key::Keep));
    };
    let Some(registries) = list_at(root, "registries", 64) else {
        return Err(refused(0, Key::Registries));
    };
    let Some(policies) = list_at(root, "policies", 1024) else {
        return Err(refused(0, Key::Policies));
    };
    let registries = match read_registries(alloc, &registries) {
        Ok(registries) => registries,
        Err(why) => return Err(why),
    };
    let policies = match read_policies(alloc, &policies) {
        Ok(policies) => policies,
        Err(why) => return Err(why),
    };
    Ok(Config {
        lanes: lanes as u8,
        jobs: jobs as u32,
        keep: keep as u32,
        registries,
        policies,
    })
}
