//! Laws of the REST front, whatever reads requests and writes replies. (Our own.)
ghost use Rattle.std.specs.Prelude.{◌≡◌, ◌⊎◌, ◌≤◌, ◌+◌, ◌++◌, ℕ, List, drop, map, option_map};
ghost use Rattle.std.specs.Str.Lossy.{utf8_lossy};
ghost use Rattle.hr_base.specs.Bytes.{Text};
ghost use Rattle.hr_http1.specs.declared.message.Request.{Request};
ghost use Rattle.hr_name.specs.Name.{IsName};
ghost use Rattle.hr_store.specs.Execution.{ExecState, exec_view};
ghost use Rattle.hr_store.specs.Store.{AreOrdered, FailsBare, exec_numbered, tasks_in};
ghost use Rattle.hr_rest.specs.Asking.{IsAsked};
ghost use Rattle.hr_rest.specs.Counting.{recounted};
ghost use Rattle.hr_rest.specs.Page.{before_page, page_of, rows_of};
ghost use Rattle.hr_rest.specs.Path.{LeadsTo, Place};
ghost use Rattle.hr_rest.specs.Replying.{view_numbered};
ghost use Rattle.hr_rest.specs.Snapshot.{rows_kept, tasks_of};
ghost use Rattle.hr_rest.specs.declared.question.Asked.{Asked};
ghost use Rattle.hr_rest.specs.declared.question.Asked.TheVariants.{Refused};

/// A law: a path leads to one place.
pub fn a_path_leads_to_one_place()
    ensures { (path : Text) (one other : Place) → LeadsTo path one → LeadsTo path other
        → one ≡ other }
{}

/// A law: a request asks for one thing.
pub fn a_request_asks_for_one_thing()
    ensures { (request : Request) (one other : Asked) → IsAsked request one
        → IsAsked request other → one ≡ other }
{}

/// A law: a request is refused with 400, 404 or 405 alone.
pub fn a_request_is_refused_in_three_ways()
    ensures { (request : Request) (status : ℕ) → IsAsked request (Refused status)
        → (status ≡ 400) ⊎ (status ≡ 404) ⊎ (status ≡ 405) }
{}

/// A law: the items of a page and what stands behind them are what stands behind the pages before:
/// the pages of a list, one after the other, are the list.
pub fn pages_follow_one_another<T>()
    ensures { (page size : ℕ) (items : List T) → 1 ≤ page
        → page_of page size items ++ drop (before_page (page + 1) size) items
        ≡ drop (before_page page size) items }
{}

/// A law: a snapshot of a store has the execution of a number where the store keeps it, and all of
/// its rows.
pub fn a_snapshot_has_what_is_kept()
    ensures exec { (number : ℕ) (execs : List ExecState)
        → view_numbered number (map exec_view execs)
        ≡ option_map exec_view (exec_numbered number execs) }
    ensures rows { (number : ℕ) (execs : List ExecState) → AreOrdered 0 0 execs
        → rows_of number (rows_kept execs) ≡ tasks_in (exec_numbered number execs) }
{}

/// A law: rows that were not raised are counted as the store counts them.
pub fn rows_as_told_are_counted_alike()
    ensures { (exec : ExecState) → FailsBare exec
        → recounted (exec_view exec) (tasks_of exec) ≡ exec_view exec }
{}

/// A law: the name of a repository stands in a reply as it is.
pub fn names_are_written_as_they_are()
    ensures { (name : Text) → IsName name → utf8_lossy name ≡ name }
{}
