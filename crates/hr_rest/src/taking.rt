//! The snapshot of a store. (Our own.)
ghost use Rattle.std.specs.Prelude.{◌≡◌, ◌++◌, IfOk, OnOk, map};
ghost use Rattle.hr_store.specs.Execution.{exec_view};
ghost use Rattle.hr_rest.specs.Snapshot.{rows_kept, snapshot_of};

use crate::Snapshot;
use crate::copying::copy_policies;
use hr_base::{List, Memory};
use hr_event::{ExecView, RowView};
use hr_policy::Policy;
use hr_store::Store;
use std::alloc::{AllocError, Global};

/// All executions and rows that the store keeps, with these policies. It takes time and memory in
/// proportion to them all.
pub fn snapshot(alloc: Global, store: &Store, policies: &[Policy]) -> Result<Snapshot, Memory>
    ensures { IfOk result (λ view. view ≡ snapshot_of store.now policies.now) }
{
    let policies = copy_policies(alloc, policies)?;
    let execs = store.executions(alloc)?;
    let rows = rows_kept(alloc, store, execs.view())?;
    Ok(Snapshot {
        policies,
        execs,
        rows,
        made: None,
    })
}

// The rows of all executions of the store.
fn rows_kept(alloc: Global, store: &Store, execs: &[ExecView]) -> Result<List<RowView>, Memory>
    requires { execs.now ≡ map exec_view store.now.kept }
    ensures { IfOk result (λ rows. rows ≡ rows_kept store.now.kept) }
{
    store.is_sound();
    let mut all = Vec::new(alloc);
    for exec in execs {
        put_rows(&mut all, store.tasks(alloc, exec.exec)?)?;
    }
    Ok(List::from(all))
}

// Puts rows behind others.
fn put_rows(all: &mut Vec<RowView>, rows: List<RowView>) -> Result<(), AllocError>
    ensures { OnOk result (all.new.items ≡ all.old.items ++ rows) }
{
    let mut rows: Vec<RowView> = Vec::from(rows);
    all.append(&mut rows)
}
