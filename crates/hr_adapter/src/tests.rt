//! The contract of a connection over a registry that tells nothing, and the cases over it.

use crate::cases::{Difference, OPERATIONS, run, run_blobs, run_failing};
use crate::pieces::put_blob;
use crate::{RegFault, Registry, Silent};
use hr_base::List;
use hr_digest::Digest;
use hr_name::Name;
use std::alloc::{AllocFailed, Global};
use std::test::Fail;

// A registry whose calls of these numbers fail.
fn silent(alloc: Global, failing: &[u64]) -> Result<Silent, AllocFailed<u64>> {
    let mut numbers = Vec::new(alloc);
    for number in failing {
        numbers.push(*number)?;
    }
    Ok(Silent::new(alloc, List::from(numbers)))
}

#[test]
fn a_silent_registry_fails_where_it_was_told(rt: HostRuntime) -> Result<(), Fail> {
    let alloc = rt.alloc();
    let mut registry = silent(alloc, &[1, 3])?;
    assert_eq!(rt; registry.repos(), Err(RegFault::Failed));
    assert_eq!(rt; registry.repos(), Ok(List::new(alloc)));
    assert_eq!(rt; registry.repos(), Err(RegFault::Failed));
    assert_eq!(rt; registry.count(), 2);
    assert_eq!(rt; registry.shown()?, List::new(alloc));
    Ok(())
}

#[test]
fn each_planned_fault_is_found(rt: HostRuntime) -> Result<(), Fail> {
    let alloc = rt.alloc();
    for failing in 0..=OPERATIONS {
        let mut registry = silent(alloc, &[failing])?;
        let came = run_failing(alloc, &mut registry, failing);
        assert_eq!(rt; came, Ok(()), "{failing}");
    }
    let came = run_failing(alloc, &mut silent(alloc, &[2])?, 3);
    assert_eq!(rt; came, Err(Difference::At("a fault of tags")));
    Ok(())
}

#[test]
fn a_blob_comes_whole_from_pieces_of_odd_sizes(rt: HostRuntime) -> Result<(), Fail> {
    let alloc = rt.alloc();
    let mut registry = silent(alloc, &[])?;
    assert_eq!(rt; run_blobs(alloc, &mut registry), Ok(()));
    let repo = Name::read(alloc, b"library/one").ok().ok_or("a name")?;
    assert_eq!(rt; put_blob(&mut registry, &repo, b"piece"), Ok(()));
    let mut buf = [0u8; 4];
    let Ok(true) = registry.open_blob(&repo, &Digest::of(b"piece")) else {
        return Err(Fail::from("it is there"));
    };
    let Ok(1) = registry.read_blob(&mut buf) else {
        return Err(Fail::from("a piece of one byte"));
    };
    assert_eq!(rt; registry.read_blob(&mut buf), Ok(2));
    assert_eq!(rt; buf, [b'i', b'e', 0, 0]);
    let no_manifest = Difference::At("a manifest under its digest");
    assert_eq!(rt; run(alloc, &mut registry), Err(no_manifest));
    Ok(())
}
