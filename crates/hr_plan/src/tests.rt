//! Plans of a registry in memory and of one that tells nothing, and the owners of names.
ghost use Rattle.std.specs.Prelude.{◌≡◌, IfOk, pos};

use crate::{PlanRefused, lane_of, plan};
use hr_adapter::Silent;
use hr_base::{Bytes, List, PolicyNo, RegNo};
use hr_digest::Digest;
use hr_event::TaskSpec;
use hr_filter::Decoration::{Excludes, Matches};
use hr_filter::{Decoration, Filter};
use hr_memreg::{Change, Content, MemRegistry, Planned, RepoContent, TagAt};
use hr_name::{Name, Tag};
use hr_pattern::Pattern;
use hr_policy::Policy;
use std::alloc::Global;
use std::test::Fail;

// What the source has: a repository, its tags and their labels.
const SOURCE: [(&str, &str, &str, &str, &str); 3] = [
    ("library/b", "v2", "old", "v1", "stable"),
    ("app", "v1", "new", "latest", "stable"),
    ("library/a", "v1", "new", "v1", "new"),
];

fn one<T: Drop>(alloc: Global, item: T) -> Result<List<T>, Fail> {
    let mut list = List::new(alloc);
    list.push(item)?;
    Ok(list)
}

fn tag_at(alloc: Global, tag: &str, label: &str) -> Result<TagAt, Fail> {
    Ok(TagAt {
        tag: Tag::read(alloc, tag.as_bytes())?,
        digest: Digest::of(b"{}"),
        labels: one(alloc, Bytes::of(alloc, label.as_bytes())?)?,
    })
}

// The source, whose operation of that number fails, and where library/b gets a tag just before its
// operation 3.
fn source(alloc: Global, failing: u64) -> Result<MemRegistry, Fail> {
    let mut repos = List::new(alloc);
    for (name, first, first_label, second, second_label) in SOURCE {
        let mut tags = one(alloc, tag_at(alloc, first, first_label)?)?;
        tags.push(tag_at(alloc, second, second_label)?)?;
        repos.push(RepoContent {
            name: Name::read(alloc, name.as_bytes())?,
            blobs: List::new(alloc),
            manifests: List::new(alloc),
            tags,
        })?;
    }
    let mut registry = MemRegistry::new(alloc, Content { repos })?;
    let fault = Planned {
        op: failing,
        lands: false,
    };
    registry.with_faults(one(alloc, fault)?);
    let change = Change {
        op: 3,
        repo: Name::read(alloc, b"library/b")?,
        tag: Tag::read(alloc, b"next")?,
        digest: Digest::of(b"{}"),
    };
    registry.with_changes(one(alloc, change)?);
    Ok(registry)
}

// A filter by its word.
fn filter(alloc: Global, word: &str, text: &str, decoration: Decoration) -> Result<Filter, Fail> {
    if word == "label" {
        return Ok(Filter::Label {
            labels: one(alloc, Bytes::of(alloc, text.as_bytes())?)?,
            decoration,
        });
    }
    Ok(Filter::Name {
        pattern: Pattern::read(alloc, text.as_bytes())?,
        decoration,
    })
}

// Policy 7, from registry 1 to registry 2.
fn policy(alloc: Global, filter: Filter, namespace: &[u8]) -> Result<Policy, Fail>
    ensures { IfOk result (λ policy. policy.replace ≡ pos 1) }
{
    let namespace = if namespace.is_empty() {
        None
    } else {
        Some(Name::read(alloc, namespace)?)
    };
    Ok(Policy {
        id: PolicyNo(7),
        name: Bytes::of(alloc, b"")?,
        enabled: true,
        src: RegNo(1),
        dst: RegNo(2),
        namespace,
        replace: 1,
        override_it: false,
        attempts: 3,
        cron: None,
        filters: one(alloc, filter)?,
    })
}

// The destinations of tasks with their tags, a line each.
fn lines(alloc: Global, specs: &[TaskSpec]) -> Result<Vec<u8>, Fail> {
    let mut text = Vec::new(alloc);
    for spec in specs {
        text.extend_from_slice(spec.to.view())?;
        for tag in spec.tags.view() {
            text.push(b' ')?;
            text.extend_from_slice(tag.view())?;
        }
        text.push(b'\n')?;
    }
    Ok(text)
}

// What comes of a plan.
fn planned(alloc: Global, policy: &Policy, source: &mut MemRegistry) -> Result<Vec<u8>, Fail>
    requires { policy.now.replace ≡ pos 1 }
{
    let text: &[u8] = match plan(alloc, policy, source) {
        Ok(specs) => return lines(alloc, specs.view()),
        Err(
            PlanRefused::Fault {
                before: 0,
                after: 1,
            },
        ) => b"fault",
        Err(PlanRefused::Dest { repo }) => return Ok(repo.view().to_vec(alloc)?),
        Err(_) => b"other",
    };
    Ok(text.to_vec(alloc)?)
}

// A name of 252 letters.
const LONG: [u8; 252] = [b'n'; 252];

// What is planned of the source, by a filter and a namespace: the operation of that number fails.
#[test]
fn a_plan_has_what_the_filters_pick_and_asks_for_no_more(rt: HostRuntime) -> Result<(), Fail> {
    let alloc = rt.alloc();
    let none: &[u8] = b"";
    let all = "app latest v1\nlibrary/a v1\nlibrary/b next v1 v2\n";
    let no_stable = "app v1\nlibrary/a v1\nlibrary/b next v2\n";
    for (word, text, decoration, namespace, failing, wanted) in [
        ("name", "**", Matches, none, 0, all),
        (
            "name",
            "library/*",
            Matches,
            b"ns",
            4,
            "ns/a v1\nns/b next v1 v2\n",
        ),
        ("name", "library/*", Matches, none, 3, "fault"),
        (
            "name",
            "library/*",
            Excludes,
            b"a/b",
            3,
            "a/b/app latest v1\n",
        ),
        ("name", "none", Matches, none, 2, ""),
        ("name", "**", Matches, &LONG, 0, "app"),
        ("label", "stable", Excludes, none, 0, no_stable),
        ("label", "stable", Matches, none, 1, "fault"),
    ] {
        let policy = policy(alloc, filter(alloc, word, text, decoration)?, namespace)?;
        let got = planned(alloc, &policy, &mut source(alloc, failing)?)?;
        assert_eq!(rt;
            got.as_slice(),
            wanted.as_bytes(),
            "{word} {text} {decoration:?}"
        );
    }
    Ok(())
}

#[test]
fn a_source_that_tells_nothing_is_planned_until_it_fails(rt: HostRuntime) -> Result<(), Fail> {
    let alloc = rt.alloc();
    let policy = policy(alloc, Filter::Resource, b"ns")?;
    let mut source = Silent::new(alloc, List::from([2].to_vec(alloc)?));
    assert_eq!(rt; plan(alloc, &policy, &mut source), Ok(List::new(alloc)));
    assert_eq!(rt;
        plan(alloc, &policy, &mut source),
        Err(PlanRefused::Fault {
            before: 0,
            after: 1
        })
    );
    Ok(())
}

// The sums of bytes are Python's.
#[test]
fn names_go_to_lanes_by_the_sum_of_their_bytes(rt: HostRuntime) -> Result<(), Fail> {
    let longest = [b'a'; 255];
    for (name, dst, lanes, wanted) in [
        (b"app".as_slice(), 2, 1, 0),
        (b"ns/img", 2, 4, 3),
        (b"library/alpine", 250, 64, 23),
        (&longest, 250, 64, 25),
    ] {
        let name = Name::read(rt.alloc(), name)?;
        assert_eq!(rt; lane_of(&name, RegNo(dst), lanes), wanted, "{dst} {lanes}");
    }
    Ok(())
}
