//! The files below the folder in which the program was started. (Our own.)
ghost use Rattle.std.specs.Prelude.{◌≡◌, None, IfErr};
ghost use Rattle.hr_cause.specs.Stream.{HasCause};
ghost use Rattle.hr_tree.specs.Tree.{IsFailed, IsWithin, NamesNoLength};

use crate::{Tree, TreeFault};
use hr_base::Bytes;
use hr_cause::Counted;
use std::fs::Metadata;
use std::io::{ErrorKind, Read};
use std::marker::Model;
use std::rt::Files;
use std::{fs, io, str};

/// The files below the folder in which the program was started, of which contracts know nothing:
///
/// ```text
/// fn main(rt: HostRuntime) {
///     let mut tree = FileTree::new(rt);
/// }
/// ```
#[derive(Drop)]
pub struct FileTree<R> {
    rt: R,
    faults: u64,
}

impl<R> Model for FileTree<R> {
    ghost use Rattle.hr_cause.specs.Edges.{Edge};

    ghost Value = { Edge R };

    ghost view = { λ t. record { device = t.rt; faults = t.faults } };
}

impl<R> FileTree<R> {
    /// A tree that hasn't failed yet.
    pub fn new(rt: R) -> FileTree<R>
        ensures { result ≡ record { device = rt; faults = 0 } }
    {
        FileTree { rt, faults: 0 }
    }
}

impl<R: Files + AllocGlobal + Drop> Counted for FileTree<R> {
    ghost faults = { λ t. t.faults };

    fn faults(&self) -> u64 {
        self.faults
    }
}

impl<R: Files + AllocGlobal + Drop> Tree for FileTree<R> {
    ghost files = { λ t. None };

    /// No symbolic link is followed: where one stands, on the way or at the end, no file does. A
    /// path that isn't UTF-8 is a fault, and so is each error of the system but that something is
    /// not there.
    fn read_file(&mut self, path: &[u8], limit: u64) -> Result<Option<Bytes>, TreeFault>
        ensures within { IsWithin limit result }
        ensures unchanged { self.new.device ≡ self.old.device }
        ensures cause { HasCause IsFailed self.old.faults self.new.faults result }
    {
        match read_below(&self.rt, path, limit) {
            Err(TreeFault::Failed) => {
                self.faults = self.faults.saturating_add(1);
                Err(TreeFault::Failed)
            }
            answer => answer,
        }
    }
}

// The file at a path, where folders alone stand on the way.
fn read_below<R: Files + AllocGlobal>(
    rt: &R,
    path: &[u8],
    limit: u64,
) -> Result<Option<Bytes>, TreeFault>
    ensures { IsWithin limit result }
{
    for (end, byte) in path.iter().enumerate() {
        if *byte == b'/' && !is_folder(rt, &path[..end])? {
            return Ok(None);
        }
    }
    match look(rt, path)? {
        Some(found) if found.is_file() => read_whole(rt, path, found.len(), limit),
        _ => Ok(None),
    }
}

fn is_folder(rt: &impl Files, path: &[u8]) -> Result<bool, TreeFault>
    ensures { IfErr result NamesNoLength }
{
    match look(rt, path)? {
        Some(found) => Ok(found.is_dir()),
        None => Ok(false),
    }
}

// What stands at a path: a symbolic link itself.
fn look(rt: &impl Files, path: &[u8]) -> Result<Option<Metadata>, TreeFault>
    ensures { IfErr result NamesNoLength }
{
    let Ok(path) = str::from_utf8(path) else {
        return Err(TreeFault::Failed);
    };
    match fs::symlink_metadata(rt, path) {
        Ok(found) => Ok(Some(found)),
        Err(why) => match why.kind() {
            ErrorKind::NotFound | ErrorKind::NotADirectory => Ok(None),
            _ => Err(TreeFault::Failed),
        },
    }
}

// All bytes of a file of this length. Where it has grown above the limit, one byte more than that
// is read.
fn read_whole<R: Files + AllocGlobal>(
    rt: &R,
    path: &[u8],
    len: u64,
    limit: u64,
) -> Result<Option<Bytes>, TreeFault>
    ensures { IsWithin limit result }
{
    let Ok(path) = str::from_utf8(path) else {
        return Err(TreeFault::Failed);
    };
    if len > limit {
        return Err(TreeFault::TooLong { len });
    }
    let mut bytes = Vec::new(rt.alloc());
    let file = fs::open(rt, path).map_err(fault_of)?;
    let mut rest = file.take(limit.saturating_add(1));
    rest.read_to_end(&mut bytes).map_err(fault_of)?;
    let len = bytes.len() as u64;
    if len > limit {
        return Err(TreeFault::TooLong { len });
    }
    Ok(Some(Bytes::from(bytes)))
}

// The fault that an error of the system is.
fn fault_of(why: io::Error) -> TreeFault
    ensures { NamesNoLength result }
{
    match why.kind() {
        ErrorKind::OutOfMemory => TreeFault::Memory,
        _ => TreeFault::Failed,
    }
}
