//! The answers on the desk's routes: those of `tracedesk serve`. What a message adds to the book is on
//! disk before its answer goes out.

ghost use Rattle.std.specs.Prelude.{◌≡◌, IfOk, Ok};
ghost use Rattle.sqlite.specs.State.{HasCleanDisk};
ghost use Rattle.desk_feed.specs.declared.message.Verdict.TheVariants as Verdict;
ghost use Rattle.imports.specs.Answer.{fault_text};
ghost use Rattle.http_stream.specs.Answers.{response_told};
ghost use Rattle.gateway_http.specs.Requests.{import_outcome, report_told, told};
ghost use Rattle.gateway_http.specs.Reports.{report_of};
ghost use Rattle.gateway_http.specs.declared.asked.Asked.TheVariants as Asked;
ghost use Rattle.book_store.specs.Lists.{Serves, book_state};
ghost use Rattle.line_http.specs.Desk.{desk_asked, desk_outcome, with_outcome};
ghost use Rattle.line_http.specs.Gives.{Gives};
ghost use Rattle.line_http.specs.Rule.{leaving};

use book_store::BookStore;
use desk_feed::{AnswerText, Verdict};
use desk_types::Stamped;
use gateway_http::{
    AskFault, Asked, Report, Response, RouteTable, Unavailable, answer_fault, answer_response,
    report_of, report_response,
};
use imports::{Import, ImportFault};
use sqlite::Alter;
use state_rows::KeepsRows;
use std::alloc::Global;

/// Answers a request to the desk, if there was memory for its routes.
pub fn answer_desk<S: Alter, D: KeepsRows + Drop>(
    alloc: Global,
    store: &mut BookStore<S, D>,
    routes: Option<&RouteTable>,
    method: &[u8],
    target: &[u8],
    body: &[u8],
) -> Result<Response, Unavailable>
    requires serves { Serves S.Store D.Stands store.old }
    ensures gives { Gives S.Store D.Stands store.old store.new result (λ line. desk_outcome line
        (record { method = method.now; target = target.now; body = body.now })) }
    ensures clean { HasCleanDisk (book_state S.Store store.new)
        → HasCleanDisk (book_state S.Store store.old) }
    ensures serves { Serves S.Store D.Stands store.new }
{
    let routes = routes.ok_or(Unavailable)?;
    match routes.read_request(alloc, method, target) {
        Ok(asked) => answer_asked(alloc, store, asked, body),
        Err(AskFault::NoMemory) => Err(Unavailable),
        Err(fault) => answer_fault(alloc, fault),
    }
}

/// Answers a request that could be read.
fn answer_asked<S: Alter, D: KeepsRows + Drop>(
    alloc: Global,
    store: &mut BookStore<S, D>,
    asked: Asked,
    body: &[u8],
) -> Result<Response, Unavailable>
    requires serves { Serves S.Store D.Stands store.old }
    ensures gives { Gives S.Store D.Stands store.old store.new result
        (λ line. desk_asked line body.now (Ok asked)) }
    ensures clean { HasCleanDisk (book_state S.Store store.new)
        → HasCleanDisk (book_state S.Store store.old) }
    ensures serves { Serves S.Store D.Stands store.new }
{
    match asked {
        Asked::Message => answer_message(store, body),
        Asked::Import(import) => answer_import(alloc, store, &import, body),
        Asked::Report(report) => answer_report(alloc, store, report),
    }
}

/// Answers a message.
fn answer_message<S: Alter, D: KeepsRows + Drop>(
    store: &mut BookStore<S, D>,
    body: &[u8],
) -> Result<Response, Unavailable>
    requires serves { Serves S.Store D.Stands store.old }
    ensures gives { Gives S.Store D.Stands store.old store.new result
        (λ line. desk_asked line body.now (Ok Asked.Message)) }
    ensures clean { HasCleanDisk (book_state S.Store store.new)
        → HasCleanDisk (book_state S.Store store.old) }
    ensures serves { Serves S.Store D.Stands store.new }
{
    let answer = store.answer(body)?;
    Ok(answer_response(answer))
}

/// Answers the file of an import.
fn answer_import<S: Alter, D: KeepsRows + Drop>(
    alloc: Global,
    store: &mut BookStore<S, D>,
    import: &Import,
    body: &[u8],
) -> Result<Response, Unavailable>
    requires serves { Serves S.Store D.Stands store.old }
    ensures gives { Gives S.Store D.Stands store.old store.new result
        (λ line. desk_asked line body.now (Ok (Asked.Import import.now))) }
    ensures clean { HasCleanDisk (book_state S.Store store.new)
        → HasCleanDisk (book_state S.Store store.old) }
    ensures serves { Serves S.Store D.Stands store.new }
{
    match import.command(alloc, body) {
        Ok(stamped) => answer_command(store, &stamped),
        Err(ImportFault::NoMemory) => Err(Unavailable),
        Err(fault) => answer_file_fault(alloc, &fault),
    }
}

/// Answers the command of a file. It has no message, so its refusal makes no entry.
fn answer_command<S: Alter, D: KeepsRows + Drop>(
    store: &mut BookStore<S, D>,
    stamped: &Stamped,
) -> Result<Response, Unavailable>
    requires serves { Serves S.Store D.Stands store.old }
    ensures gives { Gives S.Store D.Stands store.old store.new result
        (λ line. with_outcome line (import_outcome line.desk (Ok stamped.now))) }
    ensures clean { HasCleanDisk (book_state S.Store store.new)
        → HasCleanDisk (book_state S.Store store.old) }
    ensures serves { Serves S.Store D.Stands store.new }
{
    let answer = store.command(stamped)?;
    Ok(answer_response(answer))
}

/// Answers a question for a report.
fn answer_report<S: Alter, D: KeepsRows + Drop>(
    alloc: Global,
    store: &mut BookStore<S, D>,
    report: Report,
) -> Result<Response, Unavailable>
    requires serves { Serves S.Store D.Stands store.old }
    ensures gives { Gives S.Store D.Stands store.old store.new result
        (λ line. leaving line (report_told report (report_of report line.desk.history))) }
    ensures clean { HasCleanDisk (book_state S.Store store.new)
        → HasCleanDisk (book_state S.Store store.old) }
    ensures serves { Serves S.Store D.Stands store.new }
{
    // A copy of its own: no second call may take `report` again.
    let asked = report;
    let found = report_of(alloc, store.history(), asked)?;
    report_response(alloc, report, found)
}

/// Answers a file with a fault.
fn answer_file_fault(alloc: Global, fault: &ImportFault) -> Result<Response, Unavailable>
    ensures { IfOk result (λ response. response_told response
        ≡ told (record { text = fault_text fault.now; verdict = Verdict.Faulty })) }
{
    Ok(answer_response(AnswerText {
        text: fault.write_text(alloc)?,
        verdict: Verdict::Faulty,
    }))
}
