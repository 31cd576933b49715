//! Next matches by another program's search, and texts that are refused.

use super::*;

// The moments are those of Python's datetime, as `bench/next_match_rows.py` finds them. Many more
// rows are the input of the program `hr_next_match`.
#[test]
fn the_next_match_is_that_of_a_plain_search(rt: HostRuntime) {
    let rows = [
        ("0 0 0 29 2 *", 3981312000, Some(4233686400)),
        ("0 0 0 30 2 *", 3981312000, None),
        ("1-5/2 * * * * *", 5, Some(61)),
        ("0 0 0 13 * 5", 1708732800, Some(1709251200)),
        ("0 0 0 ? * 5", 1708732800, Some(1709251200)),
        ("0 0 0 29 2 *", 18446744073709551615, Some(253028707200)),
    ];
    for (text, after, next) in rows {
        let cron = Cron::read(text.as_bytes()).expect(&rt, text);
        let found = cron.next(Moment(after));
        assert_eq!(rt; found, next.map(Moment), "{text} after {after}");
    }
}

#[test]
fn a_bounded_search_ends_at_its_bound(rt: HostRuntime) {
    let cron = Cron::read(b"0 0 * * * *".as_slice()).expect(&rt, "each hour");
    let last = cron.next_until(Moment(3600), Moment(7200));
    assert_eq!(rt; last, Some(Moment(7200)));
    assert_eq!(rt; cron.next_until(Moment(3600), Moment(7199)), None);
    assert_eq!(rt; cron.next_until(Moment(7200), Moment(3600)), None);
}

#[test]
fn a_text_is_refused_at_its_first_bad_field(rt: HostRuntime) {
    let refused = [
        ("0 60 * * * *", 2),
        ("* * 24 * * *", 3),
        ("* * * 0 * *", 4),
        ("* * * * 13 *", 5),
        ("* * * * * 7", 6),
        ("* * * * * SUN", 6),
        ("5-4 * * * * *", 1),
        ("*/0 * * * * *", 1),
        ("000 * * * * *", 1),
        ("*,5 * * * * *", 1),
        ("?/5 * * * * *", 1),
        ("1,,2 * * * * *", 1),
        ("1-2-3 * * * * *", 1),
        ("* 5/ * * * *", 2),
        ("+1 * * * * *", 1),
        ("* * * * * * ", 7),
        ("* * * * *", 6),
        ("", 1),
        ("*\t* * * * *", 1),
        ("60 60 * * * * *", 1),
    ];
    for (text, field) in &refused {
        let want = Err(CronRefused::Field { field: *field });
        assert_eq!(rt; Cron::read(text.as_bytes()), want, "{text}");
    }
}
