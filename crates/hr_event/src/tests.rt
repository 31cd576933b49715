//! Copies succeed, where there is ample memory. That they are equal is proved.

use crate::{Cause, Entry, Fetched, Reference, RowView, TaskSpec, Told, What};
use hr_base::{Bytes, ExecNo, JobNo, List, PolicyNo, RegNo, Status};
use hr_name::{Name, Tag};
use std::test::Fail;

#[test]
fn a_task_is_copied(rt: HostRuntime) -> Result<(), Fail> {
    let alloc = rt.alloc();
    let mut tags = List::new(alloc);
    tags.push(Tag::read(alloc, b"v1").ok().ok_or("a tag")?)?;
    tags.push(Tag::read(alloc, b"v2").ok().ok_or("a tag")?)?;
    let spec = TaskSpec {
        policy: PolicyNo(1),
        src: RegNo(1),
        dst: RegNo(2),
        from: Name::read(alloc, b"a/b").ok().ok_or("a name")?,
        to: Name::read(alloc, b"c").ok().ok_or("a name")?,
        tags,
        override_it: false,
        attempts: 3,
    };
    assert_eq!(rt; spec.copy(alloc)?, spec);
    Ok(())
}

#[test]
fn a_row_is_copied(rt: HostRuntime) -> Result<(), Fail> {
    let alloc = rt.alloc();
    let row = RowView {
        job: JobNo(1),
        exec: ExecNo(2),
        rev: 3,
        status: Status::Success,
        from: Name::read(alloc, b"a").ok().ok_or("a name")?,
        to: Name::read(alloc, b"b").ok().ok_or("a name")?,
    };
    assert_eq!(rt; row.copy(alloc)?, row);
    Ok(())
}

#[test]
fn an_entry_and_an_answer_are_copied(rt: HostRuntime) -> Result<(), Fail> {
    let alloc = rt.alloc();
    let fetched = Fetched {
        media: Bytes::of(alloc, b"a/b")?,
        bytes: Bytes::of(alloc, b"{}")?,
    };
    let Fetched { media, bytes } = fetched.copy(alloc)?;
    let entry = Entry {
        job: JobNo(1),
        rev: 0,
        what: What::ReadTag {
            tag: Tag::read(alloc, b"v1").ok().ok_or("a tag")?,
            media,
            bytes,
        },
    };
    assert_eq!(rt; entry.copy(alloc)?, entry);
    let told = Told::Ended {
        job: JobNo(1),
        status: Status::Error,
        cause: Some(Cause::Gone {
            reference: Reference::Tag(Tag::read(alloc, b"v1").ok().ok_or("a tag")?),
        }),
    };
    assert_eq!(rt; told.copy(alloc)?, told);
    Ok(())
}
