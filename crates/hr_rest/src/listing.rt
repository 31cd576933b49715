//! The JSON lists of replies. (After Harbor's replication API.)
ghost use Rattle.std.specs.Prelude.{◌≡◌, ◌++◌, ◌∷◌, [], ◌&&◌, if◌then◌else◌, IfOk, OnOk, length, map, reverse};
ghost use Rattle.serde_json.specs.View.{view};
ghost use Rattle.hr_rest.specs.Page.{is_on_page, page_of, rows_of};
ghost use Rattle.hr_rest.specs.Replying.{policy_value};
ghost use Rattle.hr_rest.specs.Value.{exec_value, list_value, row_value};

use crate::page::before_page;
use crate::value::{exec_value, row_value, text_value};
use hr_base::ExecNo;
use hr_event::{ExecView, RowView};
use hr_policy::Policy;
use serde_json::{Value, json};
use std::alloc::{AllocError, Global};

/// The list of these policies.
pub(crate) fn policies_value(alloc: Global, policies: &[Policy]) -> Result<Value, AllocError>
    ensures { IfOk result (λ v. view v ≡ list_value (map policy_value policies.now)) }
{
    let mut list = Vec::new(alloc);
    for policy in policies {
        list.push(policy_value(alloc, policy)?)?;
    }
    Ok(Value::Array(list))
}

fn policy_value(alloc: Global, policy: &Policy) -> Result<Value, AllocError>
    ensures { IfOk result (λ v. view v ≡ policy_value policy.now) }
{
    let enabled = policy.enabled;
    let id = policy.id.0;
    let name = text_value(alloc, policy.name.view())?;
    json!(in alloc; {"enabled": enabled, "id": id, "name": name})
}

/// The list of these executions, the last one first.
pub(crate) fn execs_value(alloc: Global, execs: &[ExecView]) -> Result<Value, AllocError>
    ensures { IfOk result (λ v. view v ≡ list_value (map exec_value (reverse execs.now))) }
{
    let mut list = Vec::new(alloc);
    for exec in execs {
        list.push(exec_value(alloc, exec)?)?;
    }
    list.reverse();
    Ok(Value::Array(list))
}

/// The list of a page of the rows of an execution, and how many it has in all.
pub(crate) fn rows_value(
    alloc: Global,
    rows: &[RowView],
    exec: ExecNo,
    page: u32,
    size: u32,
) -> Result<(Value, usize), AllocError>
    ensures list { IfOk result (λ found.
        view found.0 ≡ list_value (map row_value (page_of page size (rows_of exec.0 rows.now)))) }
    ensures total { IfOk result (λ found. found.1 ≡ length (rows_of exec.0 rows.now)) }
{
    let first = before_page(page, size);
    let mut list = Vec::new(alloc);
    let mut seen = 0usize;
    for row in rows {
        let own = row.exec.0 == exec.0;
        put_row(alloc, &mut list, row, is_shown(own, seen, first, size))?;
        seen += usize::from(own);
    }
    Ok((Value::Array(list), seen))
}

// Whether a row is one of the execution and stands on the page, where so many of its rows stand
// before it, and before the page.
fn is_shown(own: bool, seen: usize, first: usize, size: u32) -> bool
    ensures { result ≡ own && is_on_page seen first size }
{
    own && first <= seen && seen - first < size as usize
}

// Puts the value of a row behind others, where it is wanted.
fn put_row(
    alloc: Global,
    list: &mut Vec<Value>,
    row: &RowView,
    wanted: bool,
) -> Result<(), AllocError>
    ensures { OnOk result (map view list.new.items
        ≡ map view list.old.items ++ map row_value (if wanted then row.now ∷ [] else [])) }
{
    if wanted {
        list.push(row_value(alloc, row)?)?;
    }
    Ok(())
}
