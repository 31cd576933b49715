use crate::{FileTree, MemTree, Tree, TreeFault, is_path};
use hr_base::{Bytes, List};
use hr_cause::Counted;
use std::alloc::Global;
use std::fs;
use std::os::unix::fs::symlink;
use std::test::Fail;

// What a path is answered: the bytes of its file as a list, or `None` where it is no path.
fn asked<T: Tree>(
    tree: &mut T,
    path: &[u8],
    limit: u64,
) -> Option<Result<Option<Bytes>, TreeFault>> {
    if is_path(path) {
        Some(tree.read_file(path, limit))
    } else {
        None
    }
}

fn file(alloc: Global, text: &str) -> Result<Option<Bytes>, Fail> {
    Ok(Some(Bytes::of(alloc, text.as_bytes())?))
}

fn mem_tree(alloc: Global) -> Result<MemTree, Fail> {
    let mut files = List::new(alloc);
    for (path, text) in [("a/b", "one"), ("c", "two"), ("a/b", "three")] {
        let path = Bytes::of(alloc, path.as_bytes())?;
        files.push((path, Bytes::of(alloc, text.as_bytes())?))?;
    }
    let mut failing = List::new(alloc);
    failing.push(3)?;
    Ok(MemTree::new(alloc, files, failing)?)
}

#[test]
fn names_that_lead_nowhere_else_make_a_path(rt: HostRuntime) {
    for (text, is) in [
        ("a", true),
        ("a/b.c/d", true),
        (".a/...", true),
        ("", false),
        ("/a", false),
        ("a/", false),
        ("a//b", false),
        (".", false),
        ("a/../b", false),
        ("./a", false),
        ("a/..", false),
    ] {
        assert_eq!(rt; is_path(text.as_bytes()), is, "{text}");
    }
}

#[test]
fn the_last_file_at_a_path_is_read_and_no_longer_one(rt: HostRuntime) -> Result<(), Fail> {
    let alloc = rt.alloc();
    let mut tree = mem_tree(alloc)?;
    let wanted = [
        ("a/b", 5, Ok(file(alloc, "three")?), 0),
        ("a/b", 4, Err(TreeFault::TooLong { len: 5 }), 0),
        ("c", 9, Err(TreeFault::Failed), 1),
        ("c", 3, Ok(file(alloc, "two")?), 1),
        ("a", 9, Ok(None), 1),
        ("c/d", 9, Ok(None), 1),
    ];
    for (path, limit, answer, faults) in wanted {
        assert!(rt;
            asked(&mut tree, path.as_bytes(), limit) == Some(answer),
            "{path} {limit}"
        );
        assert_eq!(rt; tree.faults(), faults, "{path} {limit}");
    }
    Ok(())
}

#[test]
fn a_file_below_the_folder_is_read_and_no_link_is_followed(rt: HostRuntime) -> Result<(), Fail> {
    let alloc = rt.alloc();
    let _ = fs::remove_dir_all(&rt, "hr_tree_test");
    fs::create_dir_all(&rt, "hr_tree_test/folder")?;
    fs::write(&rt, "hr_tree_test/folder/file", b"12345".as_slice())?;
    symlink(&rt, "folder", "hr_tree_test/link")?;
    symlink(&rt, "file", "hr_tree_test/folder/alias")?;
    let mut tree = FileTree::new(rt.clone()?);
    let wanted = [
        ("hr_tree_test/folder/file", 5, Ok(file(alloc, "12345")?)),
        (
            "hr_tree_test/folder/file",
            4,
            Err(TreeFault::TooLong { len: 5 }),
        ),
        ("hr_tree_test/folder", 9, Ok(None)),
        ("hr_tree_test/folder/none", 9, Ok(None)),
        ("hr_tree_test/none/file", 9, Ok(None)),
        ("hr_tree_test/folder/file/file", 9, Ok(None)),
        ("hr_tree_test/link/file", 9, Ok(None)),
        ("hr_tree_test/folder/alias", 9, Ok(None)),
    ];
    for (path, limit, answer) in wanted {
        assert!(rt;
            asked(&mut tree, path.as_bytes(), limit) == Some(answer),
            "{path} {limit}"
        );
    }
    assert_eq!(rt; tree.faults(), 0);
    assert!(rt; asked(&mut tree, b"\xff", 9) == Some(Err(TreeFault::Failed)));
    assert_eq!(rt; tree.faults(), 1);
    fs::remove_dir_all(&rt, "hr_tree_test")?;
    Ok(())
}
