//! Answers to requests, and reports.

ghost use Rattle.std.specs.Prelude.{◌≡◌, IfOk};
ghost use Rattle.gateway_http.specs.Asked.{asked_of};
ghost use Rattle.http_stream.specs.Answers.{response_told};
ghost use Rattle.gateway_http.specs.Gateways.{Meets};
ghost use Rattle.gateway_http.specs.Requests.{kind_of, none_told, report_told, outcome_leaving, asked_outcome};

use crate::asked::{Asked, Report};
use crate::fault::AskFault;
use crate::message_answers::{answer_fault, answer_import, answer_message, csv, json};
use crate::reported::ReportedOwner;
use crate::routes::RouteTable;
use desk_types::Text;
use http_stream::{Response, Status};
use line_schema::Unavailable;
use std::alloc::Global;
use trace_reports::not_found_text;

/// Answers a request, if there was memory for the routes.
pub fn answer_request<L: ReportedOwner>(
    alloc: Global,
    owner: &mut L,
    routes: Option<&RouteTable>,
    method: &[u8],
    target: &[u8],
    body: &[u8],
) -> Result<Response, Unavailable>
    requires ready { L.Ready owner.old }
    ensures ready { L.Ready owner.new }
    ensures trusts { L.Trusts owner.new → L.Trusts owner.old }
    // Without a response the history is as before, and the caller answers Unavailable.
    ensures told { Meets L.Stands L.Trusts owner.old owner.new result
        (λ G. asked_outcome L.reports G body.now (asked_of method.now target.now)) }
{
    let routes = routes.ok_or(Unavailable)?;
    match routes.read_request(alloc, method, target) {
        Ok(Asked::Message) => answer_message(alloc, owner, body),
        Ok(Asked::Import(import)) => answer_import(alloc, owner, &import, body),
        Ok(Asked::Report(report)) => answer_report(alloc, owner, report),
        Err(AskFault::NoMemory) => Err(Unavailable),
        Err(fault) => answer_fault(alloc, fault),
    }
}

/// Answers a question for a report.
pub fn answer_report<L: ReportedOwner>(
    alloc: Global,
    owner: &mut L,
    report: Report,
) -> Result<Response, Unavailable>
    requires ready { L.Ready owner.old }
    ensures ready { L.Ready owner.new }
    ensures trusts { L.Trusts owner.new → L.Trusts owner.old }
    ensures told { Meets L.Stands L.Trusts owner.old owner.new result
        (λ G. outcome_leaving G (report_told report (L.reports report G.history))) }
{
    let found = owner.report(alloc, report)?;
    Ok(report_response(alloc, report, found)?)
}

/// Returns the answer with a report, or that its subject isn't found.
pub fn report_response(
    alloc: Global,
    report: Report,
    found: Option<Text>,
) -> Result<Response, Unavailable>
    ensures { IfOk result (λ response. response_told response ≡ report_told report found) }
{
    match found {
        Some(text) => Ok(csv(text)),
        None => answer_none(alloc, kind_of(report)),
    }
}

fn answer_none(alloc: Global, about: Option<trace_reports::Kind>) -> Result<Response, Unavailable>
    ensures { IfOk result (λ response. response_told response ≡ none_told about) }
{
    match about {
        Some(kind) => Ok(json(Status::NotFound, not_found_text(alloc, kind)?)),
        None => Err(Unavailable),
    }
}

fn kind_of(report: Report) -> Option<trace_reports::Kind>
    ensures { result ≡ kind_of report }
{
    match report {
        Report::BoardTrace { .. } => Some(trace_reports::Kind::Board),
        Report::LotTrace { .. } => Some(trace_reports::Kind::Lot),
        Report::ReelCard { .. } => Some(trace_reports::Kind::Reel),
        Report::SlotList { .. } => Some(trace_reports::Kind::Machine),
        Report::KitList { .. } => Some(trace_reports::Kind::Sheet),
        Report::OverdueList => None,
    }
}
