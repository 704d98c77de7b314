//! The answers to requests.

ghost use Rattle.std.specs.Prelude.{◌≡◌, IfOk, Ok};
ghost use Rattle.sqlite.specs.State.{HasCleanDisk};
ghost use Rattle.http_stream.specs.Answers.{response_told};
ghost use Rattle.line_answers.specs.State.{state_text};
ghost use Rattle.book_store.specs.Lists.{Serves, book_state};
ghost use Rattle.line_http.specs.Asked.{asked_by};
ghost use Rattle.line_http.specs.Gives.{Gives};
ghost use Rattle.line_http.specs.Rule.{asked_outcome, book_told, counts_told, leaving, line_rule, state_told};

use crate::asked::{Asked, read_request};
use crate::desk::answer_desk;
use crate::routes::{Route, route_of};
use crate::sayings::answer_saying;
use book_store::BookStore;
use desk_types::{Id, Text};
use gateway_http::{
    AskFault, Response, RouteTable, Status, Unavailable, answer_fault, csv, cut_target, json,
};
use line_answers::{Kind, Wanted, counts_text, not_found_text};
use sqlite::Alter;
use state_rows::KeepsRows;
use std::alloc::Global;

/// Answers a request: to one of the line's own routes, or else to the desk. First it loads what the store dropped when
/// memory was refused.
pub fn answer_request<S: Alter, D: KeepsRows + Drop>(
    alloc: Global,
    store: &mut BookStore<S, D>,
    routes: Option<&RouteTable>,
    method: &[u8],
    target: &[u8],
    body: &[u8],
) -> Result<Response, Unavailable>
    requires serves { Serves S.Store D.Stands store.old }
    ensures gives { Gives S.Store D.Stands store.old store.new result (λ line. line_rule line
        (record { method = method.now; target = target.now; body = body.now })) }
    ensures clean { HasCleanDisk (book_state S.Store store.new)
        → HasCleanDisk (book_state S.Store store.old) }
    ensures serves { Serves S.Store D.Stands store.new }
{
    store.ready()?;
    answer_ready(alloc, store, routes, method, target, body)
}

/// The same by a store that is ready.
fn answer_ready<S: Alter, D: KeepsRows + Drop>(
    alloc: Global,
    store: &mut BookStore<S, D>,
    routes: Option<&RouteTable>,
    method: &[u8],
    target: &[u8],
    body: &[u8],
) -> Result<Response, Unavailable>
    requires serves { Serves S.Store D.Stands store.old }
    ensures gives { Gives S.Store D.Stands store.old store.new result (λ line. line_rule line
        (record { method = method.now; target = target.now; body = body.now })) }
    ensures clean { HasCleanDisk (book_state S.Store store.new)
        → HasCleanDisk (book_state S.Store store.old) }
    ensures serves { Serves S.Store D.Stands store.new }
{
    let (path, query) = cut_target(target);
    match route_of(path) {
        Some(route) => answer_own(alloc, store, route, method, query, body),
        None => answer_desk(alloc, store, routes, method, target, body),
    }
}

/// Answers a request to one of the line's own routes.
fn answer_own<S: Alter, D: KeepsRows + Drop>(
    alloc: Global,
    store: &mut BookStore<S, D>,
    route: Route,
    method: &[u8],
    query: &[u8],
    body: &[u8],
) -> Result<Response, Unavailable>
    requires serves { Serves S.Store D.Stands store.old }
    ensures gives { Gives S.Store D.Stands store.old store.new result
        (λ line. asked_outcome line body.now (asked_by route method.now query.now)) }
    ensures clean { HasCleanDisk (book_state S.Store store.new)
        → HasCleanDisk (book_state S.Store store.old) }
    ensures serves { Serves S.Store D.Stands store.new }
{
    match read_request(alloc, route, method, query) {
        Ok(asked) => answer_asked(alloc, store, asked, body),
        Err(AskFault::NoMemory) => Err(Unavailable),
        Err(fault) => answer_fault(alloc, fault),
    }
}

/// Answers a request that could be read.
fn answer_asked<S: Alter, D: KeepsRows + Drop>(
    alloc: Global,
    store: &mut BookStore<S, D>,
    asked: Asked,
    body: &[u8],
) -> Result<Response, Unavailable>
    requires serves { Serves S.Store D.Stands store.old }
    ensures gives { Gives S.Store D.Stands store.old store.new result
        (λ line. asked_outcome line body.now (Ok asked)) }
    ensures clean { HasCleanDisk (book_state S.Store store.new)
        → HasCleanDisk (book_state S.Store store.old) }
    ensures serves { Serves S.Store D.Stands store.new }
{
    match asked {
        Asked::Say(noted) => answer_saying(alloc, store, noted, body),
        Asked::State(machine) => answer_state(alloc, store, &machine),
        Asked::Book(wanted) => answer_book(store, wanted),
        Asked::Counts => answer_counts(alloc, store),
    }
}

/// Answers whether the machine may work.
fn answer_state<S: Alter, D: KeepsRows + Drop>(
    alloc: Global,
    store: &mut BookStore<S, D>,
    machine: &Id,
) -> Result<Response, Unavailable>
    requires serves { Serves S.Store D.Stands store.old }
    ensures gives { Gives S.Store D.Stands store.old store.new result
        (λ line. leaving line (state_told (state_text line.desk.history line.notes machine.now))) }
    ensures clean { HasCleanDisk (book_state S.Store store.new)
        → HasCleanDisk (book_state S.Store store.old) }
    ensures serves { Serves S.Store D.Stands store.new }
{
    let found = store.state(machine)?;
    tell_state(alloc, found)
}

/// Answers with rows of the book.
fn answer_book<S: Alter, D: KeepsRows + Drop>(
    store: &mut BookStore<S, D>,
    wanted: Wanted,
) -> Result<Response, Unavailable>
    requires serves { Serves S.Store D.Stands store.old }
    ensures gives { Gives S.Store D.Stands store.old store.new result
        (λ line. leaving line (book_told line wanted)) }
    ensures clean { HasCleanDisk (book_state S.Store store.new)
        → HasCleanDisk (book_state S.Store store.old) }
    ensures serves { Serves S.Store D.Stands store.new }
{
    let text = store.book(wanted)?;
    Ok(csv(text))
}

/// Answers how many commands and entries there are.
fn answer_counts<S: Alter, D: KeepsRows + Drop>(
    alloc: Global,
    store: &BookStore<S, D>,
) -> Result<Response, Unavailable>
    ensures gives { Gives S.Store D.Stands store.now store.now result
        (λ line. leaving line (counts_told line)) }
{
    let counts = store.counts()?;
    let text = counts_text(alloc, counts)?;
    Ok(json(Status::Ok, text))
}

fn tell_state(alloc: Global, found: Option<Text>) -> Result<Response, Unavailable>
    ensures { IfOk result (λ response. response_told response ≡ state_told found) }
{
    match found {
        Some(text) => Ok(json(Status::Ok, text)),
        None => Ok(json(Status::NotFound, not_found_text(alloc, Kind::Machine)?)),
    }
}
