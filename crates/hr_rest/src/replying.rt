//! The reply to what is asked, by a snapshot. (After Harbor's replication API.)
//!
//! | Asked | Reply |
//! |---|---|
//! | policies | 200, all in their order |
//! | a start | 201, with the `Location` of the execution; 404, 412 or 507 |
//! | executions | 200, a page, the newest first |
//! | an execution | 200, or 404 |
//! | a stop | 200 with no body, or 404 |
//! | tasks | 200, a page by job, or 404 |
//!
//! 404 is for an unknown number, 412 for a policy that is off, 507 where there was no room for an
//! execution. Lists have the number of all items in `X-Total-Count`. Bodies are compact JSON; a
//! refusal has none.
ghost use Rattle.std.specs.Prelude.{◌≡◌, IfOk, option_copied};
ghost use Rattle.hr_rest.specs.Page.{rows_of};
ghost use Rattle.hr_rest.specs.Replying.{executions_reply, made_reply, one_reply, policies_reply, reply_of, start_reply, stop_reply, tasks_reply};

use crate::finding::{policy_numbered, view_numbered};
use crate::listing::{execs_value, policies_value, rows_value};
use crate::page::page_from_last;
use crate::value::exec_value;
use crate::writing::{created_reply, empty_reply, list_reply, text_of};
use crate::{Asked, Snapshot};
use hr_base::{ExecNo, List, Memory};
use hr_event::{ExecView, RowView};
use hr_http1::Reply;
use hr_policy::Policy;
use std::alloc::Global;

/// The reply to what is asked. It takes time in proportion to the page, and to the policies,
/// executions or rows of the snapshot that are looked through.
pub fn reply(alloc: Global, asked: &Asked, view: &Snapshot) -> Result<Reply, Memory>
    ensures { IfOk result (λ reply. reply ≡ reply_of asked.now view.now) }
{
    let execs = view.execs.view();
    match *asked {
        Asked::Policies => policies_reply(alloc, view.policies.view()),
        Asked::Start { policy } => {
            start_reply(
                alloc,
                policy_numbered(view.policies.view(), policy),
                view.made,
            )
        }
        Asked::Executions { page, size } => executions_reply(alloc, execs, page, size),
        Asked::One { exec } => one_reply(alloc, view_numbered(execs, exec)),
        Asked::Stop { exec } => Ok(stop_reply(alloc, view_numbered(execs, exec))),
        Asked::Tasks { exec, page, size } => {
            let found = view_numbered(execs, exec);
            tasks_reply(alloc, found, view.rows.view(), exec, page, size)
        }
        Asked::Refused { status } => Ok(empty_reply(alloc, status)),
    }
}

fn policies_reply(alloc: Global, policies: &[Policy]) -> Result<Reply, Memory>
    ensures { IfOk result (λ reply. reply ≡ policies_reply policies.now) }
{
    let list = policies_value(alloc, policies)?;
    list_reply(alloc, policies.len(), &list)
}

fn start_reply(
    alloc: Global,
    policy: Option<&Policy>,
    made: Option<ExecNo>,
) -> Result<Reply, Memory>
    ensures { IfOk result (λ reply. reply ≡ start_reply (option_copied policy.entry) made) }
{
    let Some(policy) = policy else {
        return Ok(empty_reply(alloc, 404));
    };
    if !policy.enabled {
        return Ok(empty_reply(alloc, 412));
    }
    made_reply(alloc, made)
}

fn made_reply(alloc: Global, made: Option<ExecNo>) -> Result<Reply, Memory>
    ensures { IfOk result (λ reply. reply ≡ made_reply made) }
{
    match made {
        Some(exec) => created_reply(alloc, exec),
        None => Ok(empty_reply(alloc, 507)),
    }
}

fn executions_reply(
    alloc: Global,
    execs: &[ExecView],
    page: u32,
    size: u32,
) -> Result<Reply, Memory>
    ensures { IfOk result (λ reply. reply ≡ executions_reply page size execs.now) }
{
    let list = execs_value(alloc, page_from_last(execs, page, size))?;
    list_reply(alloc, execs.len(), &list)
}

fn one_reply(alloc: Global, exec: Option<&ExecView>) -> Result<Reply, Memory>
    ensures { IfOk result (λ reply. reply ≡ one_reply (option_copied exec.entry)) }
{
    let Some(exec) = exec else {
        return Ok(empty_reply(alloc, 404));
    };
    let value = exec_value(alloc, exec)?;
    Ok(Reply {
        status: 200,
        heads: List::new(alloc),
        body: text_of(alloc, &value)?,
    })
}

fn stop_reply(alloc: Global, exec: Option<&ExecView>) -> Reply
    ensures { result ≡ stop_reply (option_copied exec.entry) }
{
    match exec {
        Some(_) => empty_reply(alloc, 200),
        None => empty_reply(alloc, 404),
    }
}

// A page of the tasks of an execution, where that is found.
fn tasks_reply(
    alloc: Global,
    found: Option<&ExecView>,
    rows: &[RowView],
    exec: ExecNo,
    page: u32,
    size: u32,
) -> Result<Reply, Memory>
    ensures { IfOk result (λ reply.
        reply ≡ tasks_reply (option_copied found.entry) page size (rows_of exec.0 rows.now)) }
{
    let Some(_) = found else {
        return Ok(empty_reply(alloc, 404));
    };
    let (list, total) = rows_value(alloc, rows, exec, page, size)?;
    list_reply(alloc, total, &list)
}
