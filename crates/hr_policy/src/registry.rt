//! Registries, read.
ghost use Rattle.std.specs.Prelude.{◌≡◌, IfOk, codes};
ghost use Rattle.hr_json.specs.Node.{value_of, values_of};
ghost use Rattle.hr_policy.specs.Choice.{is_place, place_in};
ghost use Rattle.hr_policy.specs.Reading.{registry_of};
ghost use Rattle.hr_policy.specs.Step.{Gives, each, field, mapped};
ghost use Rattle.hr_policy.specs.declared.key.Key.TheVariants as key;
ghost use Rattle.hr_setting.specs.Member.{must};

use crate::choice::kind_at;
use crate::refusal::refused;
use crate::{ConfigRefused, Key, Kind, RegAt};
use hr_base::{Bytes, List, Memory, RegNo};
use hr_json::{Items, Node};
use hr_setting::{is_base, text_at, whole_at};
use hr_tree::is_path;
use std::alloc::Global;

/// The registries of a list, in order.
pub(crate) fn read_registries(
    alloc: Global,
    items: &Items<'_>,
) -> Result<List<RegAt>, ConfigRefused>
    ensures { Gives result (each registry_of (values_of items.now)) }
{
    let mut found = List::new(alloc);
    for at in 0..items.count() {
        let Some(node) = items.at(at) else {
            continue;
        };
        let registry = match read_registry(alloc, &node) {
            Ok(registry) => registry,
            Err(why) => return Err(why),
        };
        found.push(registry)?;
    }
    Ok(found)
}

fn read_registry(alloc: Global, node: &Node<'_>) -> Result<RegAt, ConfigRefused>
    ensures { Gives result (registry_of (value_of node.now)) }
{
    let Some(id) = whole_at(node, "id", 1, 250) else {
        return Err(refused(0, Key::Id));
    };
    let Some(kind) = kind_at(node) else {
        return Err(refused(0, Key::Kind));
    };
    let at = match read_place(alloc, kind, node) {
        Ok(at) => at,
        Err(why) => return Err(why),
    };
    Ok(RegAt {
        id: RegNo(id as u8),
        kind,
        at: Bytes::of(alloc, at)?,
    })
}

// Where a registry of this kind lies.
fn read_place<'a>(alloc: Global, kind: Kind, node: &Node<'a>) -> Result<&'a [u8], ConfigRefused>
    ensures { Gives (mapped (λ t. t.now) result)
        (field 0 key.At (must (place_in kind) (codes "at") (value_of node.now))) }
{
    let Some(text) = text_at(node, "at") else {
        return Err(refused(0, Key::At));
    };
    if is_place(alloc, kind, text)? {
        Ok(text)
    } else {
        Err(refused(0, Key::At))
    }
}

// Whether a registry of this kind may lie there.
fn is_place(alloc: Global, kind: Kind, text: &[u8]) -> Result<bool, Memory>
    ensures { IfOk result (λ answer. answer ≡ is_place kind text.now) }
{
    match kind {
        Kind::Memory | Kind::Folder => Ok(text.is_empty() || is_path(text)),
        Kind::Http => is_base(alloc, text),
    }
}
