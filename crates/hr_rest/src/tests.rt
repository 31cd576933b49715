//! Worked requests with their replies, off one device and onto another, with ample memory.

use crate::{Snapshot, asked, raise, recount, reply, snapshot};
use hr_base::{Bytes, ExecNo, JobNo, List, Mark, Memory, Moment, PolicyNo, RegNo, Status};
use hr_cause::{MemSink, MemSource};
use hr_event::{ExecStatus, ExecView, RowView, TaskSpec, Trigger};
use hr_http1::{WireFault, read_request, write_response};
use hr_name::{Name, NameRefused};
use hr_policy::Policy;
use hr_store::Store;
use std::alloc::Global;
use std::test::Fail;

// The reply to a request, as both stand on a device; nothing where no request came.
fn answered(alloc: Global, request: Bytes, view: &Snapshot) -> Result<Vec<u8>, WireFault> {
    let mut link = MemSource::new(alloc, request, List::new(alloc), List::new(alloc))?;
    let mut out = MemSink::new(alloc, List::new(alloc))?;
    if let Some(request) = read_request(alloc, &mut link, 16_777_216)? {
        let asked = asked(alloc, &request)?;
        let reply = reply(alloc, &asked, view)?;
        write_response(alloc, &mut out, &reply, false)?;
    }
    Ok(out.into_sent())
}

fn request(alloc: Global, verb: &str, path: &str, body: &[u8]) -> Result<Bytes, Memory> {
    let len = body.len();
    let head = format!(in alloc;
        "{verb} /api/v2.0/replication{path} HTTP/1.1\r\nContent-Length: {len}\r\n\r\n"
    )?;
    let mut text = head.into_bytes();
    text.extend_from_slice(body)?;
    Ok(Bytes::from(text))
}

fn policy(alloc: Global, id: u32, name: &[u8], enabled: bool) -> Result<Policy, Memory> {
    Ok(Policy {
        id: PolicyNo(id),
        name: Bytes::of(alloc, name)?,
        enabled,
        src: RegNo(1),
        dst: RegNo(2),
        namespace: None,
        replace: 1,
        override_it: true,
        attempts: 3,
        cron: None,
        filters: List::new(alloc),
    })
}

fn exec(number: u32, trigger: Trigger) -> ExecView {
    ExecView {
        exec: ExecNo(number),
        policy: PolicyNo(1),
        trigger,
        began: Moment(1_700_000_000),
        status: ExecStatus::InProgress,
        total: 2,
        succeed: 1,
        failed: 0,
        in_progress: 1,
        stopped: 0,
    }
}

fn row(alloc: Global, job: u32, exec: u32, status: Status) -> Result<RowView, NameRefused> {
    Ok(RowView {
        job: JobNo(job),
        exec: ExecNo(exec),
        rev: 1,
        status,
        from: Name::read(alloc, b"a/img")?,
        to: Name::read(alloc, b"ns/img")?,
    })
}

fn view(alloc: Global) -> Result<Snapshot, Fail> {
    let mut policies = List::new(alloc);
    policies.push(policy(alloc, 1, b"p", true)?)?;
    policies.push(policy(alloc, 2, b"a\"\xff", false)?)?;
    let mut execs = List::new(alloc);
    execs.push(exec(1, Trigger::Manual))?;
    execs.push(exec(2, Trigger::Scheduled))?;
    execs.push(exec(5, Trigger::Manual))?;
    let mut rows = List::new(alloc);
    rows.push(row(alloc, 1, 1, Status::Success)?)?;
    rows.push(row(alloc, 2, 2, Status::Running)?)?;
    rows.push(row(alloc, 3, 2, Status::Error)?)?;
    Ok(Snapshot {
        policies,
        execs,
        rows,
        made: None,
    })
}

#[test]
fn requests_are_taken_or_refused_by_the_table(rt: HostRuntime) -> Result<(), Fail> {
    let alloc = rt.alloc();
    let view = view(alloc)?;
    let rows: [(&str, &str, &str, &str); 28] = [
        ("DELETE", "/policies", "", "405"),
        ("GET", "/policies/", "", "404"),
        ("POST", "/policy", "", "404"),
        ("POST", "/executions", "{\"policy_id\":7}", "404"),
        ("POST", "/executions", "{\"policy_id\":2}", "412"),
        (
            "POST",
            "/executions",
            " {\"x\":[1],\"policy_id\":0,\"policy_id\":1} ",
            "507",
        ),
        ("POST", "/executions", "{\"policy_id\":1.0}", "400"),
        ("POST", "/executions", "{\"policy_id\":4294967296}", "400"),
        ("POST", "/executions", "{\"id\":1}", "400"),
        ("POST", "/executions", "[1]", "400"),
        ("POST", "/executions", "", "400"),
        ("PUT", "/executions", "", "405"),
        ("GET", "/executions?page=0", "", "400"),
        ("GET", "/executions?page=%31", "", "400"),
        (
            "GET",
            "/executions?page=18446744073709551616&page=0&page_size=100",
            "",
            "200",
        ),
        ("GET", "/executions?page_size=0", "", "400"),
        ("GET", "/executions?page_size=101", "", "400"),
        ("GET", "/executions?page_size", "", "400"),
        ("GET", "/executions/5?page=0", "", "200"),
        ("GET", "/executions/0", "", "400"),
        ("GET", "/executions/+5", "", "400"),
        ("GET", "/executions/05", "", "400"),
        ("GET", "/executions/4294967296", "", "400"),
        ("GET", "/executions/4294967295", "", "404"),
        ("PUT", "/executions/5", "", "200"),
        ("PUT", "/executions/6", "", "404"),
        ("DELETE", "/executions/0/tasks", "", "405"),
        ("GET", "/executions/5/tasks/", "", "404"),
    ];
    for (verb, path, body, status) in rows {
        let sent = answered(alloc, request(alloc, verb, path, body.as_bytes())?, &view)?;
        let start = format!(in alloc; "HTTP/1.1 {status} ")?;
        assert!(rt; sent.starts_with(start.as_bytes()), "{verb} {path} {body}");
    }
    Ok(())
}

#[test]
fn each_path_has_its_verbs(rt: HostRuntime) -> Result<(), Fail> {
    let alloc = rt.alloc();
    let view = view(alloc)?;
    let rows: [(&str, [&str; 4]); 6] = [
        ("GET", ["200", "200", "200", "200"]),
        ("POST", ["405", "400", "405", "405"]),
        ("PUT", ["405", "405", "200", "405"]),
        ("DELETE", ["405", "405", "405", "405"]),
        ("PATCH", ["405", "405", "405", "405"]),
        ("OPTIONS", ["405", "405", "405", "405"]),
    ];
    for (verb, [policies, executions, one, tasks]) in rows {
        for (path, status) in [
            ("/policies", policies),
            ("/executions", executions),
            ("/executions/5", one),
            ("/executions/5/tasks", tasks),
        ] {
            let sent = answered(alloc, request(alloc, verb, path, b"")?, &view)?;
            let start = format!(in alloc; "HTTP/1.1 {status} ")?;
            assert!(rt; sent.starts_with(start.as_bytes()), "{verb} {path}");
        }
    }
    Ok(())
}

#[test]
fn replies_are_written_as_clients_read_them(rt: HostRuntime) -> Result<(), Fail> {
    let alloc = rt.alloc();
    let view = view(alloc)?;
    let five =
        "{\"failed\":0,\"id\":5,\"in_progress\":1,\"policy_id\":1,\"start_time\":1700000000,\"status\":\"InProgress\",\"stopped\":0,\"succeed\":1,\"total\":2,\"trigger\":\"manual\"}";
    let two =
        "{\"failed\":0,\"id\":2,\"in_progress\":1,\"policy_id\":1,\"start_time\":1700000000,\"status\":\"InProgress\",\"stopped\":0,\"succeed\":1,\"total\":2,\"trigger\":\"scheduled\"}";
    let newest = format!(in alloc; "[{five},{two}]")?;
    let three =
        "[{\"dst_resource\":\"ns/img\",\"execution_id\":2,\"id\":3,\"revision\":1,\"src_resource\":\"a/img\",\"status\":\"Error\"}]";
    let policies =
        "[{\"enabled\":true,\"id\":1,\"name\":\"p\"},{\"enabled\":false,\"id\":2,\"name\":\"a\\\"\u{fffd}\"}]";
    let rows: [(&str, &str, &str); 5] = [
        ("/policies", "X-Total-Count: 2\r\n", policies),
        (
            "/executions?page_size=2&page_size=1",
            "X-Total-Count: 3\r\n",
            newest.as_str(),
        ),
        ("/executions?page=2", "X-Total-Count: 3\r\n", "[]"),
        ("/executions/5", "", five),
        (
            "/executions/2/tasks?page=2&page_size=1&x=y",
            "X-Total-Count: 2\r\n",
            three,
        ),
    ];
    for (path, heads, body) in rows {
        let sent = answered(alloc, request(alloc, "GET", path, b"")?, &view)?;
        let len = body.len();
        let text = format!(in alloc;
            "HTTP/1.1 200 OK\r\n{heads}Content-Length: {len}\r\n\r\n{body}"
        )?;
        assert_eq!(rt; sent.as_slice(), text.as_bytes(), "{path}");
    }
    Ok(())
}

#[test]
fn a_start_has_the_place_of_what_it_made(rt: HostRuntime) -> Result<(), Fail> {
    let alloc = rt.alloc();
    let mut view = view(alloc)?;
    view.made = Some(ExecNo(7));
    let sent = answered(
        alloc,
        request(alloc, "POST", "/executions", b"{\"policy_id\":1}")?,
        &view,
    )?;
    let text =
        "HTTP/1.1 201 Created\r\nLocation: /api/v2.0/replication/executions/7\r\nContent-Length: 0\r\n\r\n";
    assert_eq!(rt; sent.as_slice(), text.as_bytes());
    Ok(())
}

#[test]
fn a_row_rises_to_the_first_greatest_mark(rt: HostRuntime) {
    let (error, scheduled) = (Mark::At(Status::Error), Mark::At(Status::Scheduled));
    let none = Mark::Unopened;
    let row = (0, Status::Running);
    assert_eq!(rt;
        raise(row, &[error, scheduled, none, none]),
        (1, Status::Scheduled)
    );
    assert_eq!(rt;
        raise((0, Status::Stopped), &[error, none, none, none]),
        (0, Status::Stopped)
    );
    assert_eq!(rt; raise(row, &[none; 4]), row);
}

#[test]
fn a_snapshot_is_taken_and_counted_anew(rt: HostRuntime) -> Result<(), Fail> {
    let alloc = rt.alloc();
    let mut store = Store::new(alloc, 16);
    let mut specs = List::new(alloc);
    for _ in 0..2u8 {
        specs.push(TaskSpec {
            policy: PolicyNo(1),
            src: RegNo(1),
            dst: RegNo(2),
            from: Name::read(alloc, b"a/img")?,
            to: Name::read(alloc, b"ns/img")?,
            tags: List::new(alloc),
            override_it: true,
            attempts: 1,
        })?;
    }
    store.create(alloc, PolicyNo(1), Trigger::Manual, specs, Moment(3))?;
    let policies = [policy(alloc, 1, b"p", true)?];
    let view = snapshot(alloc, &store, &policies)?;
    assert_eq!(rt; view.policies.view(), policies.as_slice());
    let [exec] = view.execs.view() else {
        return Err(Fail::new("one execution"));
    };
    let rows = view.rows.view();
    assert_eq!(rt; rows.len(), 2);
    assert_eq!(rt; rows.len() as u32, exec.total);
    assert_eq!(rt; recount(*exec, rows), *exec);
    Ok(())
}

#[test]
fn long_lists_and_long_bodies_are_taken(rt: HostRuntime) -> Result<(), Fail> {
    let alloc = rt.alloc();
    let mut view = view(alloc)?;
    view.execs = List::new(alloc);
    for number in 1..=10_000u32 {
        view.execs.push(exec(number, Trigger::Manual))?;
    }
    let page = request(alloc, "GET", "/executions?page=100&page_size=100", b"")?;
    let sent = answered(alloc, page, &view)?;
    let head = "HTTP/1.1 200 OK\r\nX-Total-Count: 10000\r\nContent-Length: 14993\r\n\r\n";
    let text = format!(in alloc; "{head}[{{\"failed\":0,\"id\":100,")?;
    assert!(rt; sent.starts_with(text.as_bytes()));
    let mut body = vec![in alloc; b' '; 16_777_201]?;
    body.extend_from_slice(b"{\"policy_id\":1}")?;
    let sent = answered(alloc, request(alloc, "POST", "/executions", &body)?, &view)?;
    assert!(rt; sent.starts_with(b"HTTP/1.1 507 ".as_slice()));
    Ok(())
}
