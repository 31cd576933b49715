//! Files in memory. (Our own.)
ghost use Rattle.std.specs.Prelude.{◌≡◌, [], Some, IfOk};
ghost use Rattle.hr_cause.specs.Calls.{Called};
ghost use Rattle.hr_cause.specs.Stream.{FailsByFault, HasCause};
ghost use Rattle.hr_tree.specs.MemTree.{calls_of, Counts};
ghost use Rattle.hr_tree.specs.Path.{IsPath};
ghost use Rattle.hr_tree.specs.Tree.{files_of, ReadsFile, IsFailed, IsWithin};

use crate::{Tree, TreeFault};
use hr_base::{Bytes, List, Memory};
use hr_cause::{Counted, Failed, MemSink, Sink};
use std::alloc::Global;
use std::collections::BTreeMap;
use std::marker::Model;

/// Files in memory, which tell.
#[derive(Drop)]
pub struct MemTree {
    alloc: Global,
    files: BTreeMap<Bytes, Bytes>,
    /// It counts the calls, and fails by the list. Nothing is written to it.
    calls: MemSink,
}

impl Model for MemTree {
    ghost use Rattle.hr_tree.specs.MemTree.{calls_of, TreeState};

    ghost Value = { TreeState };

    ghost view = { λ t. record { files = t.files.entries; calls = calls_of t.calls } };
}

impl MemTree {
    /// These files, each a path and its bytes: of a path that is given twice the last counts.
    /// Exactly the calls whose numbers, from 1, stand in `failing` fail.
    pub fn new(
        alloc: Global,
        files: List<(Bytes, Bytes)>,
        failing: List<u64>,
    ) -> Result<MemTree, Memory>
        ensures { IfOk result (λ made. made ≡ record {
          files = files_of [] files;
          calls = record { failing = failing; calls = 0; faults = 0 };
        }) }
    {
        Ok(MemTree {
            alloc,
            files: by_path(alloc, files)?,
            calls: MemSink::new(alloc, failing)?,
        })
    }
}

impl Counted for MemTree {
    ghost faults = { λ t. t.calls.faults };

    fn faults(&self) -> u64 {
        self.calls.faults()
    }
}

impl Tree for MemTree {
    ghost files = { λ t. Some t.files };

    /// Want of memory comes only of a call that doesn't fail by the list.
    fn read_file(&mut self, path: &[u8], limit: u64) -> Result<Option<Bytes>, TreeFault>
        ensures exact { Counts self.old.calls result self.new.calls }
        ensures told { ReadsFile self.old.files path.now limit result }
        ensures within { IsWithin limit result }
        ensures unchanged { self.new.files ≡ self.old.files }
        ensures cause { HasCause IsFailed self.old.calls.faults self.new.calls.faults result }
    {
        count(&mut self.calls)?;
        read(self.alloc, &self.files, path, limit)
    }
}

// The files in byte order of their paths.
fn by_path(alloc: Global, files: List<(Bytes, Bytes)>) -> Result<BTreeMap<Bytes, Bytes>, Memory>
    ensures { IfOk result (λ kept. kept.entries ≡ files_of [] files) }
{
    let mut kept = BTreeMap::new(alloc);
    for (path, bytes) in Vec::from(files) {
        kept.insert(path, bytes)?;
    }
    Ok(kept)
}

// Counts a call.
fn count(calls: &mut MemSink) -> Result<(), Failed>
    ensures exact { Called (calls_of calls.old) result (calls_of calls.new) }
    ensures cause { FailsByFault calls.old.faults calls.new.faults result }
{
    calls.write(b"")?;
    Ok(())
}

// A call that doesn't fail by the list.
fn read(
    alloc: Global,
    files: &BTreeMap<Bytes, Bytes>,
    path: &[u8],
    limit: u64,
) -> Result<Option<Bytes>, TreeFault>
    ensures answer { ReadsFile files.now.entries path.now limit result }
    ensures within { IsWithin limit result }
    ensures calm { (result ≡ Err TreeFault.Failed) → ⊥ }
{
    let path = Bytes::of(alloc, path)?;
    let Some(bytes) = files.get(&path) else {
        return Ok(None);
    };
    let len = bytes.view().len() as u64;
    if len > limit {
        return Err(TreeFault::TooLong { len });
    }
    Ok(Some(bytes.copy(alloc)?))
}
