//! Answers to messages, files and faulty requests.

ghost use Rattle.std.specs.Prelude.{◌≡◌, IfOk};
ghost use Rattle.gateway_http.specs.Answer.{fault_text};
ghost use Rattle.http_stream.specs.Answers.{response_told};
ghost use Rattle.imports.specs.Import.{command_said};
ghost use Rattle.gateway_http.specs.Gateways.{Meets};
ghost use Rattle.gateway_http.specs.Requests.{csv, json, told, import_outcome, message_outcome};
ghost use Rattle.gateway_http.specs.Statuses.{request_fault_status};

use crate::fault::AskFault;
use crate::statuses::{request_fault_status, verdict_status};
use desk_answers::Owner;
use desk_feed::AnswerText;
use desk_types::Text;
use http_stream::{Body, MediaType, Response, Status};
use imports::Import;
use line_schema::Unavailable;
use std::alloc::Global;

/// Returns an answer with a JSON text.
pub fn json(status: Status, text: Text) -> Response
    ensures { response_told result ≡ json status text }
{
    Response {
        status,
        kind: MediaType::Json,
        body: Body::Made(text),
    }
}

/// Returns an answer with a list or a trace.
pub fn csv(text: Text) -> Response
    ensures { response_told result ≡ csv text }
{
    Response {
        status: Status::Ok,
        kind: MediaType::Csv,
        body: Body::Made(text),
    }
}

/// Answers a request that can't be read.
pub fn answer_fault(alloc: Global, fault: AskFault) -> Result<Response, Unavailable>
    ensures { IfOk result (λ response. response_told response
        ≡ json (request_fault_status fault) (fault_text fault)) }
{
    Ok(json(request_fault_status(fault), fault.write_text(alloc)?))
}

/// Answers a message.
pub fn answer_message<L: Owner>(
    alloc: Global,
    owner: &mut L,
    body: &[u8],
) -> Result<Response, Unavailable>
    requires ready { L.Ready owner.old }
    ensures ready { L.Ready owner.new }
    ensures trusts { L.Trusts owner.new → L.Trusts owner.old }
    // A message without a response changed nothing, and may be sent again.
    ensures told { Meets L.Stands L.Trusts owner.old owner.new result
        (λ G. message_outcome G body.now) }
{
    Ok(answer_response(desk_feed::answer_message(alloc, owner, body)?))
}

/// Answers the file of an import.
pub fn answer_import<L: Owner>(
    alloc: Global,
    owner: &mut L,
    import: &Import,
    body: &[u8],
) -> Result<Response, Unavailable>
    requires ready { L.Ready owner.old }
    ensures ready { L.Ready owner.new }
    ensures trusts { L.Trusts owner.new → L.Trusts owner.old }
    ensures told { Meets L.Stands L.Trusts owner.old owner.new result
        (λ G. import_outcome G (command_said import.now body.now)) }
{
    Ok(answer_response(desk_feed::answer_import(alloc, owner, import, body)?))
}

/// Returns the answer to a message or a file, with the status of its verdict.
pub fn answer_response(answer: AnswerText) -> Response
    ensures { response_told result ≡ told answer }
{
    json(verdict_status(answer.verdict), answer.text)
}
