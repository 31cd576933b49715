use crate::Decoration::{Excludes, Matches};
use crate::{Decoration, DestRefused, Filter, Listed, destination, select};
use hr_base::{Bytes, List};
use hr_name::{Name, Tag};
use hr_pattern::Pattern;
use std::alloc::Global;
use std::test::Fail;

// A filter by its word and what stands behind it: labels have a `,` between them.
fn filter(alloc: Global, word: &str, text: &str, decoration: Decoration) -> Result<Filter, Fail> {
    let text = text.as_bytes();
    match word {
        "name" => Ok(Filter::Name {
            pattern: Pattern::read(alloc, text)?,
            decoration,
        }),
        "tag" => Ok(Filter::Tag {
            pattern: Pattern::read(alloc, text)?,
            decoration,
        }),
        "label" => Ok(Filter::Label {
            labels: labels_of(alloc, text)?,
            decoration,
        }),
        _ => Ok(Filter::Resource),
    }
}

fn labels_of(alloc: Global, text: &[u8]) -> Result<List<Bytes>, Fail> {
    let mut labels = List::new(alloc);
    for label in text.split(|byte| *byte == b',') {
        labels.push(Bytes::of(alloc, label)?)?;
    }
    Ok(labels)
}

fn listed(alloc: Global, repo: &str, tag: &str, labels: &str) -> Result<Listed, Fail> {
    Ok(Listed {
        repo: Name::read(alloc, repo.as_bytes())?,
        tag: Tag::read(alloc, tag.as_bytes())?,
        labels: labels_of(alloc, labels.as_bytes())?,
    })
}

fn listing(alloc: Global) -> Result<Vec<Listed>, Fail> {
    let mut listing = Vec::new(alloc);
    for (repo, tag, labels) in [
        ("library/b", "v2", "stable,new"),
        ("app", "v10", "stable"),
        ("library/b", "v10", "old"),
        ("library/a", "latest", "new"),
        ("library/b", "v2", "new"),
    ] {
        listing.push(listed(alloc, repo, tag, labels)?)?;
    }
    Ok(listing)
}

// What is selected, as lines of a repository and its tags.
fn selected(alloc: Global, filters: &[Filter]) -> Result<Vec<u8>, Fail> {
    let picks = select(alloc, filters, &listing(alloc)?)?;
    let mut text = Vec::new(alloc);
    for pick in picks.view() {
        text.extend_from_slice(pick.repo.view())?;
        for tag in pick.tags.view() {
            text.push(b' ')?;
            text.extend_from_slice(tag.view())?;
        }
        text.push(b'\n')?;
    }
    Ok(text)
}

#[test]
fn tags_that_meet_each_filter_are_picked_in_byte_order(rt: HostRuntime) -> Result<(), Fail> {
    let alloc = rt.alloc();
    let all = ("resource", "", Matches);
    for (first, second, wanted) in [
        (all, all, "app v10\nlibrary/a latest\nlibrary/b v10 v2\n"),
        (
            ("name", "library/**", Matches),
            all,
            "library/a latest\nlibrary/b v10 v2\n",
        ),
        (("name", "library/**", Excludes), all, "app v10\n"),
        (
            ("tag", "v*", Matches),
            ("name", "*/*", Matches),
            "library/b v10 v2\n",
        ),
        (
            ("tag", "v1?", Excludes),
            all,
            "library/a latest\nlibrary/b v2\n",
        ),
        (("label", "new,stable", Matches), all, "library/b v2\n"),
        (("label", "new", Excludes), all, "app v10\nlibrary/b v10\n"),
        (
            ("label", "stable", Matches),
            ("tag", "v2", Excludes),
            "app v10\n",
        ),
        (("name", "none", Matches), all, ""),
    ] {
        let filters = [
            filter(alloc, first.0, first.1, first.2)?,
            filter(alloc, second.0, second.1, second.2)?,
        ];
        let lines = selected(alloc, &filters)?;
        assert_eq!(rt; lines.as_slice(), wanted.as_bytes(), "{first:?} {second:?}");
    }
    Ok(())
}

#[test]
fn leading_components_give_way_to_a_namespace(rt: HostRuntime) -> Result<(), Fail> {
    let alloc = rt.alloc();
    let namespace = Name::read(alloc, b"ns")?;
    for (name, count, wanted) in [
        ("a/b/c/d/img", -1, "ns/img"),
        ("a/b/c/d/img", 0, "ns/a/b/c/d/img"),
        ("a/b/c/d/img", 1, "ns/b/c/d/img"),
        ("a/b/c/d/img", 2, "ns/c/d/img"),
        ("a/b/c/d/img", 3, "ns/d/img"),
        ("img", 1, "ns/img"),
    ] {
        let name = Name::read(alloc, name.as_bytes())?;
        let made = destination(alloc, Some(&namespace), count, &name)?;
        assert_eq!(rt; made.view(), wanted.as_bytes());
        assert_eq!(rt; destination(alloc, None, count, &name)?, name);
    }
    Ok(())
}

#[test]
fn a_name_of_255_bytes_is_made_and_one_byte_more_is_not(rt: HostRuntime) -> Result<(), Fail> {
    let alloc = rt.alloc();
    let letters = vec![in alloc; b'a'; 252]?;
    let namespace = Name::read(alloc, &letters)?;
    let name = Name::read(alloc, b"b/im")?;
    let made = destination(alloc, Some(&namespace), 1, &name)?;
    assert_eq!(rt; made.view().len(), 255);
    let name = Name::read(alloc, b"img")?;
    let refused = destination(alloc, Some(&namespace), 1, &name);
    assert_eq!(rt; refused, Err(DestRefused::TooLong { len: 256 }));
    Ok(())
}

#[test]
fn copies_are_equal(rt: HostRuntime) -> Result<(), Fail> {
    let alloc = rt.alloc();
    for word in ["name", "tag", "label", "resource"] {
        let filter = filter(alloc, word, "a,b", Excludes)?;
        assert!(rt; filter.copy(alloc)? == filter);
    }
    let listing = listing(alloc)?;
    for pick in select(alloc, &[], &listing)?.view() {
        assert!(rt; pick.copy(alloc)? == *pick);
    }
    for listed in &listing {
        assert!(rt; listed.copy(alloc)? == *listed);
    }
    Ok(())
}
