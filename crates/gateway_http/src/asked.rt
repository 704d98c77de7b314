//! The content of a request.

ghost use Rattle.std.specs.Prelude.{◌≡◌, ◌≢◌, Ok, Err, IfOk, IfErr};
ghost use Rattle.std.specs.Cow.{cow_str_bytes};
ghost use Rattle.std.specs.List.{position};
ghost use Rattle.cfx_profile.specs.Forms.{id_of};
ghost use Rattle.gateway_http.specs.Asked.{is_mark, path_of, query_of, parameter_value, id_in, minute_in, detail_in, boards_in, number_in, import_in, asked_at, check_method, asked_of};
ghost use Rattle.gateway_http.specs.Fault.{IsAsked};

use crate::fault::AskFault;
use crate::parameter::Parameter;
use crate::query::value_of;
use crate::routes::{Method, Route, RouteTable};
use crate::values::{boards_of, detail_of, number_of};
use cfx_profile::read_minute;
use desk_types::{Boards, Id, Minute, TraceDetail};
use imports::{Content, Import};
use std::alloc::Global;
use std::borrow::CowStr;

/// The content of a request, with its parameters.
#[derive(Clone, Copy, PartialEq, Eq)]
pub enum Asked {
    /// `POST /messages`: the body is a message.
    Message,
    /// `POST /imports/setup` and `/imports/counts`: the body is the file of an import.
    Import(Import),
    Report(Report),
}

/// A report with its parameters, one variant for each route.
#[derive(Clone, Copy, PartialEq, Eq)]
pub enum Report {
    /// `GET /trace/board`: the pieces on a board.
    BoardTrace {
        board: Id,
        detail: TraceDetail,
    },
    /// `GET /trace/lot`: the boards with a piece from a lot.
    LotTrace {
        lot: Id,
        detail: TraceDetail,
    },
    /// `GET /reel`: a reel's card.
    ReelCard {
        reel: Id,
    },
    /// `GET /slots`: the reels mounted on a machine.
    SlotList {
        machine: Id,
    },
    /// `GET /kit`: the reels for a number of boards of a product.
    KitList {
        product: Id,
        machine: Id,
        boards: Boards,
    },
    /// `GET /overdue`: the pieces placed from expired reels.
    OverdueList,
}

impl RouteTable {
    /// Reads a request's method and target.
    ///
    /// Path, method and parameters are checked in this order. Parameters are read in the order of
    /// the route; any others are skipped.
    #[tactic(auto, unfolding(crate::specs::Asked::asked_of))]
    pub fn read_request(
        &self,
        alloc: Global,
        method: &[u8],
        target: &[u8],
    ) -> Result<Asked, AskFault>
        ensures { IsAsked (asked_of method.now target.now) result }
    {
        let (path, query) = cut_target(target);
        let route = self.route_of(path).ok_or(AskFault::NoPath)?;
        check_method(method, route.method())?;
        read_parameters(alloc, route, query)
    }
}

/// Returns the path and the query of a request's target.
pub fn cut_target(target: &[u8]) -> (&[u8], &[u8])
    ensures path { result.0.now ≡ path_of target.now }
    ensures query { result.1.now ≡ query_of target.now }
{
    match first_mark(target) {
        Some(at) => (&target[..at], &target[at + 1..]),
        None => (target, &[]),
    }
}

fn first_mark(target: &[u8]) -> Option<usize>
    ensures { result ≡ position is_mark target.now }
{
    target.iter().position(|byte| *byte == b'?')
}

/// Checks the method of a request to a route that allows only this one.
pub fn check_method(method: &[u8], wanted: Method) -> Result<(), AskFault>
    ensures { result ≡ check_method method.now wanted }
{
    if method == wanted.as_str().as_bytes() {
        Ok(())
    } else {
        Err(AskFault::BadMethod(wanted))
    }
}

#[tactic(auto, unfolding(crate::specs::Asked::asked_at))]
fn read_parameters(alloc: Global, route: Route, query: &[u8]) -> Result<Asked, AskFault>
    ensures { IsAsked (asked_at route query.now) result }
{
    match route {
        Route::Messages => Ok(Asked::Message),
        Route::ImportSetup => {
            let import = import_in(alloc, query)?;
            let product = id_in(alloc, query, Parameter::Product)?;
            let machine = id_in(alloc, query, Parameter::Machine)?;
            let content = Content::Sheet { product, machine };
            Ok(Asked::Import(Import { content, ..import }))
        }
        Route::ImportCounts => {
            let import = import_in(alloc, query)?;
            Ok(Asked::Import(import))
        }
        Route::TraceBoard => {
            let board = id_in(alloc, query, Parameter::Board)?;
            let detail = detail_in(alloc, query)?;
            Ok(Asked::Report(Report::BoardTrace { board, detail }))
        }
        Route::TraceLot => {
            let lot = id_in(alloc, query, Parameter::Lot)?;
            let detail = detail_in(alloc, query)?;
            Ok(Asked::Report(Report::LotTrace { lot, detail }))
        }
        Route::Reel => {
            let reel = id_in(alloc, query, Parameter::Reel)?;
            Ok(Asked::Report(Report::ReelCard { reel }))
        }
        Route::Slots => {
            let machine = id_in(alloc, query, Parameter::Machine)?;
            Ok(Asked::Report(Report::SlotList { machine }))
        }
        Route::Kit => {
            let product = id_in(alloc, query, Parameter::Product)?;
            let machine = id_in(alloc, query, Parameter::Machine)?;
            let boards = boards_in(alloc, query)?;
            Ok(Asked::Report(Report::KitList {
                product,
                machine,
                boards,
            }))
        }
        Route::Overdue => Ok(Asked::Report(Report::OverdueList)),
    }
}

/// Returns the import of a count file with these parameters.
#[tactic(auto, unfolding(crate::specs::Asked::import_in))]
fn import_in(alloc: Global, query: &[u8]) -> Result<Import, AskFault>
    ensures { IsAsked (import_in query.now) result }
{
    let uid = id_in(alloc, query, Parameter::Id)?;
    let source = id_in(alloc, query, Parameter::Source)?;
    let minute = minute_in(alloc, query)?;
    Ok(Import {
        uid,
        source,
        minute,
        content: Content::Counts,
    })
}

/// Returns the name in a query's parameter, which must occur exactly once.
#[tactic(auto, unfolding(crate::specs::Asked::id_in))]
pub fn id_in(alloc: Global, query: &[u8], parameter: Parameter) -> Result<Id, AskFault>
    ensures { IsAsked (id_in parameter query.now) result }
{
    let text = parameter_value(alloc, query, parameter)?;
    id_of(text.as_str()).ok_or(AskFault::BadQuery(parameter))
}

fn id_of(text: &str) -> Option<Id>
    ensures { result ≡ id_of text.now }
{
    Id::read(text.as_bytes())
}

#[tactic(auto, unfolding(crate::specs::Asked::minute_in, cfx_profile::specs::Minute::minute_said))]
fn minute_in(alloc: Global, query: &[u8]) -> Result<Minute, AskFault>
    ensures { IsAsked (minute_in query.now) result }
{
    let text = parameter_value(alloc, query, Parameter::Time)?;
    read_minute(text.as_str()).map_err(|_| AskFault::BadQuery(Parameter::Time))
}

#[tactic(auto, unfolding(crate::specs::Asked::detail_in))]
fn detail_in(alloc: Global, query: &[u8]) -> Result<TraceDetail, AskFault>
    ensures { IsAsked (detail_in query.now) result }
{
    let text = parameter_value(alloc, query, Parameter::Detail)?;
    detail_of(text.as_str()).ok_or(AskFault::BadQuery(Parameter::Detail))
}

#[tactic(auto, unfolding(crate::specs::Asked::boards_in))]
fn boards_in(alloc: Global, query: &[u8]) -> Result<Boards, AskFault>
    ensures { IsAsked (boards_in query.now) result }
{
    let text = parameter_value(alloc, query, Parameter::Boards)?;
    boards_of(text.as_str()).ok_or(AskFault::BadQuery(Parameter::Boards))
}

/// Returns the number of 1 to 9 digits in a query's parameter, which must occur exactly once.
#[tactic(auto, unfolding(crate::specs::Asked::number_in))]
pub fn number_in(alloc: Global, query: &[u8], parameter: Parameter) -> Result<u32, AskFault>
    ensures { IsAsked (number_in parameter query.now) result }
{
    let text = parameter_value(alloc, query, parameter)?;
    number_of(text.as_str(), 9).ok_or(AskFault::BadQuery(parameter))
}

#[tactic(auto, unfolding(crate::specs::Asked::parameter_value))]
fn parameter_value<'a>(
    alloc: Global,
    query: &'a [u8],
    parameter: Parameter,
) -> Result<CowStr<'a>, AskFault>
    ensures ok { IfOk result
        (λ text. parameter_value parameter query.now ≡ Ok (cow_str_bytes text)) }
    ensures err { IfErr result
        (λ fault. fault ≢ AskFault.NoMemory → parameter_value parameter query.now ≡ Err fault) }
{
    value_of(alloc, query, parameter.as_str())?.ok_or(AskFault::BadQuery(parameter))
}
