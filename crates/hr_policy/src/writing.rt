//! The JSON text of a configuration.
ghost use Rattle.std.specs.Prelude.{◌≡◌, ◌≤◌, IfOk, Ok, codes, length, map};
ghost use Rattle.std.specs.List.{All};
ghost use Rattle.serde_json.specs.Data.{string};
ghost use Rattle.serde_json.specs.View.{view};
ghost use Rattle.serde_json.specs.Written.{compact_text};
ghost use Rattle.hr_policy.specs.Reading.{IsConfig, config_of};
ghost use Rattle.hr_policy.specs.Text.{IsText, IsTextConfig, IsTextCron, IsTextFilter, IsTextPolicy, IsTextRegistry};
ghost use Rattle.hr_policy.specs.Written.{config_value, decoration_text, filter_value, filter_with, kind_text, list_value, namespace_text, policy_value, registry_value, trigger_value};

use crate::reading::CONFIG_LIMIT;
use crate::{Config, Kind, Policy, RegAt};
use hr_base::{Bytes, Memory};
use hr_filter::{Decoration, Filter};
use hr_name::Name;
use serde_json::{Value, json};
use std::alloc::{AllocError, Global};

impl Config {
    /// The JSON text of a configuration that was read, without blanks: all members of each object
    /// in the order of their bytes, filters with their decoration, and patterns as they were read.
    pub fn write(&self, alloc: Global) -> Result<Bytes, Memory>
        requires { IsConfig self.now }
        ensures text { IfOk result (λ t. t ≡ compact_text (config_value self.now)) }

        // Escapes may have made it longer than what was read.
        ensures reads_back { IfOk result
            (λ t. length t ≤ CONFIG_LIMIT → config_of t ≡ Ok self.now) }
    {
        let value = config_value(alloc, self)?;
        let text = value.to_string(alloc)?;
        Ok(Bytes::from(text.into_bytes()))
    }
}

fn config_value(alloc: Global, config: &Config) -> Result<Value, AllocError>
    requires { IsTextConfig config.now }
    ensures { IfOk result (λ v. view v ≡ config_value config.now) }
{
    let policies = policies_value(alloc, config.policies.view())?;
    let registries = registries_value(alloc, config.registries.view())?;
    let jobs = config.jobs;
    let keep = config.keep;
    let lanes = config.lanes;
    json!(in alloc; {
        "jobs": jobs,
        "keep": keep,
        "lanes": lanes,
        "policies": policies,
        "registries": registries,
        "version": 1_u8
    })
}

fn registries_value(alloc: Global, registries: &[RegAt]) -> Result<Value, AllocError>
    requires { All IsTextRegistry registries.now }
    ensures { IfOk result (λ v. view v ≡ list_value (map registry_value registries.now)) }
{
    let mut list = Vec::new(alloc);
    for registry in registries {
        list.push(registry_value(alloc, registry)?)?;
    }
    Ok(Value::Array(list))
}

fn registry_value(alloc: Global, registry: &RegAt) -> Result<Value, AllocError>
    requires { IsTextRegistry registry.now }
    ensures { IfOk result (λ v. view v ≡ registry_value registry.now) }
{
    let at = text_value(alloc, registry.at.view())?;
    let id = registry.id.0;
    let kind = kind_text(registry.kind);
    json!(in alloc; {"at": at, "id": id, "kind": kind})
}

fn policies_value(alloc: Global, policies: &[Policy]) -> Result<Value, AllocError>
    requires { All IsTextPolicy policies.now }
    ensures { IfOk result (λ v. view v ≡ list_value (map policy_value policies.now)) }
{
    let mut list = Vec::new(alloc);
    for policy in policies {
        list.push(policy_value(alloc, policy)?)?;
    }
    Ok(Value::Array(list))
}

fn policy_value(alloc: Global, policy: &Policy) -> Result<Value, AllocError>
    requires { IsTextPolicy policy.now }
    ensures { IfOk result (λ v. view v ≡ policy_value policy.now) }
{
    let filters = filters_value(alloc, policy.filters.view())?;
    let name = text_value(alloc, policy.name.view())?;
    let namespace = namespace_value(alloc, &policy.namespace)?;
    let trigger = trigger_value(alloc, &policy.cron)?;
    let attempts = policy.attempts;
    let dst = policy.dst.0;
    let enabled = policy.enabled;
    let id = policy.id.0;
    let override_it = policy.override_it;
    let replace = policy.replace;
    let src = policy.src.0;
    json!(in alloc; {
        "attempts": attempts,
        "dst": dst,
        "enabled": enabled,
        "filters": filters,
        "id": id,
        "name": name,
        "namespace": namespace,
        "override": override_it,
        "replace": replace,
        "src": src,
        "trigger": trigger
    })
}

// The text of a namespace, empty where there is none.
fn namespace_value(alloc: Global, namespace: &Option<Name>) -> Result<Value, AllocError>
    requires { IsText (namespace_text namespace.now) }
    ensures { IfOk result (λ v. view v ≡ string (namespace_text namespace.now)) }
{
    match namespace {
        Some(name) => text_value(alloc, name.view()),
        None => Value::try_from_str(alloc, ""),
    }
}

fn trigger_value(alloc: Global, cron: &Option<Bytes>) -> Result<Value, AllocError>
    requires { IsTextCron cron.now }
    ensures { IfOk result (λ v. view v ≡ trigger_value cron.now) }
{
    match cron {
        Some(cron) => {
            let text = text_value(alloc, cron.view())?;
            json!(in alloc; {"cron": text})
        }
        None => Value::try_from_str(alloc, "manual"),
    }
}

fn filters_value(alloc: Global, filters: &[Filter]) -> Result<Value, AllocError>
    requires { All IsTextFilter filters.now }
    ensures { IfOk result (λ v. view v ≡ list_value (map filter_value filters.now)) }
{
    let mut list = Vec::new(alloc);
    for filter in filters {
        list.push(filter_value(alloc, filter)?)?;
    }
    Ok(Value::Array(list))
}

fn filter_value(alloc: Global, filter: &Filter) -> Result<Value, AllocError>
    requires { IsTextFilter filter.now }
    ensures { IfOk result (λ v. view v ≡ filter_value filter.now) }
{
    match filter {
        Filter::Name {
            pattern,
            decoration,
        } => {
            let value = text_value(alloc, pattern.text())?;
            filter_with(alloc, *decoration, "name", value)
        }
        Filter::Tag {
            pattern,
            decoration,
        } => {
            let value = text_value(alloc, pattern.text())?;
            filter_with(alloc, *decoration, "tag", value)
        }
        Filter::Label { labels, decoration } => {
            let value = labels_value(alloc, labels.view())?;
            filter_with(alloc, *decoration, "label", value)
        }
        Filter::Resource => {
            let value = Value::try_from_str(alloc, "image")?;
            filter_with(alloc, Decoration::Matches, "resource", value)
        }
    }
}

fn filter_with(
    alloc: Global,
    decoration: Decoration,
    kind: &str,
    value: Value,
) -> Result<Value, AllocError>
    ensures { IfOk result (λ v. view v ≡ filter_with decoration kind.now (view value)) }
{
    let decoration = decoration_text(decoration);
    json!(in alloc; {"decoration": decoration, "kind": kind, "value": value})
}

fn labels_value(alloc: Global, labels: &[Bytes]) -> Result<Value, AllocError>
    requires { All IsText labels.now }
    ensures { IfOk result (λ v. view v ≡ list_value (map (λ l. string l) labels.now)) }
{
    let mut list = Vec::new(alloc);
    for label in labels {
        list.push(text_value(alloc, label.view())?)?;
    }
    Ok(Value::Array(list))
}

fn text_value(alloc: Global, bytes: &[u8]) -> Result<Value, AllocError>
    requires { IsText bytes.now }
    ensures { IfOk result (λ v. view v ≡ string bytes.now) }
{
    match str::from_utf8(bytes) {
        Ok(text) => Value::try_from_str(alloc, text),
        Err(_) => unreachable!(),
    }
}

fn kind_text(kind: Kind) -> &'static str
    ensures { result.now ≡ kind_text kind }
{
    match kind {
        Kind::Memory => "memory",
        Kind::Folder => "folder",
        Kind::Http => "http",
    }
}

fn decoration_text(decoration: Decoration) -> &'static str
    ensures { result.now ≡ decoration_text decoration }
{
    match decoration {
        Decoration::Matches => "matches",
        Decoration::Excludes => "excludes",
    }
}
