use crate::{Bytes, Hook, JobNo, LAST_MOMENT, List, Mark, Moment, Status, Trace, join, join_all};
use std::test::Fail;

#[test]
fn bytes_and_lists_keep_what_they_are_given(rt: HostRuntime) -> Result<(), Fail> {
    let alloc = rt.alloc();
    let bytes = Bytes::of(alloc, b"abc")?;
    assert_eq!(rt; bytes.view(), b"abc".as_slice());
    assert_eq!(rt; bytes.copy(alloc)?, bytes);
    assert_eq!(rt; Bytes::from(b"abc".to_vec(alloc)?), bytes);
    assert_ne!(rt; Bytes::of(alloc, b"abd")?, bytes);

    let mut list = List::new(alloc);
    list.push(7)?;
    list.push(5)?;
    assert_eq!(rt; list.view(), [7, 5].as_slice());
    assert_eq!(rt; List::from([7, 5].to_vec(alloc)?), list);
    Ok(())
}

#[test]
fn each_mark_has_its_word_and_code(rt: HostRuntime) {
    let table = [
        (0, Mark::Unopened),
        (1, Mark::At(Status::Pending)),
        (2, Mark::At(Status::Scheduled)),
        (3, Mark::At(Status::Running)),
        (4, Mark::At(Status::Stopped)),
        (5, Mark::At(Status::Error)),
        (6, Mark::At(Status::Success)),
    ];
    for (word, mark) in table {
        assert_eq!(rt; mark.word(), word, "{mark:?}");
        assert_eq!(rt; Mark::of_word(word), Some(mark), "word {word}");
    }
    for word in [7, 8, u64::MAX] {
        assert_eq!(rt; Mark::of_word(word), None, "word {word}");
    }
    let codes = [
        (Status::Pending, 0, false),
        (Status::Scheduled, 1, false),
        (Status::Running, 2, false),
        (Status::Stopped, 3, true),
        (Status::Error, 3, true),
        (Status::Success, 3, true),
    ];
    for (status, code, is_final) in codes {
        assert_eq!(rt; status.code(), code, "{status:?}");
        assert_eq!(rt; status.is_final(), is_final, "{status:?}");
        assert!(rt; Mark::At(status).covers(status), "{status:?}");
        assert!(rt; !Mark::Unopened.covers(status), "{status:?}");
    }
    assert!(rt; Mark::At(Status::Error).covers(Status::Running));
    assert!(rt; !Mark::At(Status::Error).covers(Status::Success));
}

#[test]
fn moments_end_at_the_last(rt: HostRuntime) {
    let table = [
        (0, 10, 10),
        (252_999_999_999, 1, LAST_MOMENT),
        (LAST_MOMENT, 1, LAST_MOMENT),
        (5, u64::MAX, LAST_MOMENT),
    ];
    for (from, seconds, sum) in table {
        assert_eq!(rt; Moment(from).plus(seconds), Moment(sum), "{from} {seconds}");
    }
    assert_eq!(rt; Moment::capped(u64::MAX), Moment(253_000_000_000));
}

// What goes to other threads, or is shared by them.
fn shared<T: Send + Sync>(_: &T) {}

#[test]
fn a_trace_takes_no_bytes(rt: HostRuntime) {
    let trace = Trace::new().then(&1u8).then_all(&[2, 3]);
    shared(&trace);
    assert_eq!(rt; size_of::<Trace<u8>>(), 0);
}

fn hook(rev: u8, status: Status) -> Hook {
    Hook {
        job: JobNo(1),
        rev,
        status,
    }
}

/// Two revisions that failed and a third that runs: the hooks are delivered as 5, 2, 2, 1, 5, and
/// as 1, 2, 5, and end alike.
#[test]
fn hooks_in_any_order_tell_the_same(rt: HostRuntime) {
    let one = hook(0, Status::Running);
    let two = hook(0, Status::Error);
    let five = hook(2, Status::Running);
    for rows in [[five, two, two, one, five], [one, two, five, one, two]] {
        assert_eq!(rt; join_all(&rows), (2, Status::Running), "{rows:?}");
    }
    assert_eq!(rt; join_all(&[]), (0, Status::Pending));
    assert_eq!(rt; join((0, Status::Pending), one), (0, Status::Running));
    assert_eq!(rt; join((0, Status::Running), two), (0, Status::Error));
    assert_eq!(rt;
        join((0, Status::Error), hook(1, Status::Scheduled)),
        (1, Status::Scheduled)
    );
    assert_eq!(rt;
        join((1, Status::Running), hook(0, Status::Success)),
        (1, Status::Running)
    );
    assert_eq!(rt;
        join((1, Status::Stopped), hook(1, Status::Success)),
        (1, Status::Stopped)
    );
}
