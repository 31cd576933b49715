//! What a request asks for, by this table. (After Harbor's replication API.)
//!
//! | Path behind `/api/v2.0/replication` | Verbs | Keys |
//! |---|---|---|
//! | `/policies` | `GET` | |
//! | `/executions` | `GET`, `POST` | `page`, `page_size`, of `GET` |
//! | `/executions/ID` | `GET`, `PUT` | |
//! | `/executions/ID/tasks` | `GET` | `page`, `page_size` |
//!
//! The verb is looked at before the number, the query and the body. Other keys, and other members of
//! a body than `policy_id`, are passed over.
ghost use Rattle.std.specs.Prelude.{◌≡◌, [], IfOk, codes, option_copied, option_map, unwrap_or};
ghost use Rattle.hr_base.specs.Bytes.{ByteList, Text};
ghost use Rattle.hr_json.specs.Doc.{content_of};
ghost use Rattle.hr_setting.specs.Member.{must, whole_in};
ghost use Rattle.hr_rest.specs.Asking.{IsAsked, asks_of, executions_at, or_bad, policy_in, start_of, tasks_at};
ghost use Rattle.hr_rest.specs.Number.{id_in};
ghost use Rattle.hr_rest.specs.Path.{executions, one, place_in, policies, tasks};
ghost use Rattle.hr_rest.specs.Query.{paging_of};

use crate::Asked;
use crate::number::{LAST_NUMBER, id_in};
use crate::path::{Way, way_of};
use crate::query::paging_of;
use hr_base::{ExecNo, Memory, PolicyNo};
use hr_head::Verb;
use hr_http1::Request;
use hr_json::{Doc, JsonRefused};
use hr_setting::whole_at;
use hr_text::cut;
use std::alloc::Global;

const BAD: Asked = Asked::Refused { status: 400 };

const UNKNOWN: Asked = Asked::Refused { status: 404 };

const OTHER_VERB: Asked = Asked::Refused { status: 405 };

/// What a request asks for.
pub fn asked(alloc: Global, request: &Request) -> Result<Asked, Memory>
    ensures { IfOk result (IsAsked request.now) }
{
    let (path, behind) = cut(request.target.view(), b'?');
    let Some(way) = way_of(path) else {
        return Ok(UNKNOWN);
    };
    asks_of(
        alloc,
        request.verb,
        way,
        query_in(behind),
        request.body.view(),
    )
}

// What stands behind the `?` of a target, which is empty where there is none.
fn query_in(behind: Option<&[u8]>) -> &[u8]
    ensures { result.now ≡ unwrap_or (option_copied behind.entry) [] }
{
    match behind {
        Some(query) => query,
        None => b"",
    }
}

fn asks_of(
    alloc: Global,
    verb: Verb,
    way: Way<'_>,
    query: &[u8],
    body: &[u8],
) -> Result<Asked, Memory>
    ensures { IfOk result (λ asked. asked ≡ asks_of verb (place_in way.entry) query.now body.now) }
{
    match way {
        Way::Policies => Ok(policies_asked(verb)),
        Way::Executions => executions_asked(alloc, verb, query, body),
        Way::One { id } => Ok(one_asked(verb, id)),
        Way::Tasks { id } => Ok(tasks_asked(verb, id, query)),
    }
}

fn policies_asked(verb: Verb) -> Asked
    ensures { (query : Text) (body : ByteList) → result ≡ asks_of verb policies query body }
{
    match verb {
        Verb::Get => Asked::Policies,
        Verb::Head | Verb::Post | Verb::Put | Verb::Patch | Verb::Delete | Verb::Other =>
            OTHER_VERB,
    }
}

fn executions_asked(alloc: Global, verb: Verb, query: &[u8], body: &[u8]) -> Result<Asked, Memory>
    ensures { IfOk result (λ asked. asked ≡ asks_of verb executions query.now body.now) }
{
    match verb {
        Verb::Get => Ok(page_asked(query)),
        Verb::Post => start_asked(alloc, body),
        Verb::Head | Verb::Put | Verb::Patch | Verb::Delete | Verb::Other => Ok(OTHER_VERB),
    }
}

fn page_asked(query: &[u8]) -> Asked
    ensures { result ≡ or_bad (option_map executions_at (paging_of query.now)) }
{
    match paging_of(query) {
        Some((page, size)) => Asked::Executions { page, size },
        None => BAD,
    }
}

fn start_asked(alloc: Global, body: &[u8]) -> Result<Asked, Memory>
    ensures { IfOk result (λ asked. asked ≡ or_bad (option_map start_of (policy_in body.now))) }
{
    match policy_in(alloc, body)? {
        Some(policy) => Ok(Asked::Start {
            policy: PolicyNo(policy),
        }),
        None => Ok(BAD),
    }
}

// The policy that a body names.
fn policy_in(alloc: Global, body: &[u8]) -> Result<Option<u32>, Memory>
    ensures { IfOk result (λ policy. policy ≡ policy_in body.now) }
{
    match Doc::read(alloc, body) {
        Ok(doc) => Ok(policy_of(&doc)),
        Err(JsonRefused::TooLong { .. }) => Ok(None),
        Err(JsonRefused::NotJson) => Ok(None),
        Err(JsonRefused::Memory) => Err(Memory),
    }
}

fn policy_of(doc: &Doc) -> Option<u32>
    ensures { result ≡ must (whole_in 1 LAST_NUMBER) (codes "policy_id") (content_of doc.now) }
{
    let policy = whole_at(&doc.root(), "policy_id", 1, u64::from(LAST_NUMBER))?;
    Some(policy as u32)
}

fn one_asked(verb: Verb, id: &[u8]) -> Asked
    ensures { (query : Text) (body : ByteList) → result ≡ asks_of verb (one id.now) query body }
{
    match verb {
        Verb::Get => match id_in(id) {
            Some(exec) => Asked::One { exec: ExecNo(exec) },
            None => BAD,
        },
        Verb::Put => match id_in(id) {
            Some(exec) => Asked::Stop { exec: ExecNo(exec) },
            None => BAD,
        },
        Verb::Head | Verb::Post | Verb::Patch | Verb::Delete | Verb::Other => OTHER_VERB,
    }
}

fn tasks_asked(verb: Verb, id: &[u8], query: &[u8]) -> Asked
    ensures { (body : ByteList) → result ≡ asks_of verb (tasks id.now) query.now body }
{
    match verb {
        Verb::Get => task_page_asked(id, query),
        Verb::Head | Verb::Post | Verb::Put | Verb::Patch | Verb::Delete | Verb::Other =>
            OTHER_VERB,
    }
}

fn task_page_asked(id: &[u8], query: &[u8]) -> Asked
    ensures { result ≡ or_bad (tasks_at (id_in id.now) (paging_of query.now)) }
{
    let Some(exec) = id_in(id) else {
        return BAD;
    };
    let Some((page, size)) = paging_of(query) else {
        return BAD;
    };
    Asked::Tasks {
        exec: ExecNo(exec),
        page,
        size,
    }
}
