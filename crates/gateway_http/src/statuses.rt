//! The statuses of answers.

ghost use Rattle.std.specs.Prelude.{◌≡◌};
ghost use Rattle.gateway_http.specs.Statuses.{allow_of, request_fault_status, verdict_status};

use crate::fault::AskFault;
use crate::routes::Method;
use desk_feed::Verdict;
use http_stream::{Allow, Status};

/// Returns the status for a request that can't be read.
pub fn request_fault_status(fault: AskFault) -> Status
    ensures { result ≡ request_fault_status fault }
{
    match fault {
        AskFault::NoPath => Status::NotFound,
        AskFault::BadMethod(method) => Status::MethodNotAllowed(allow_of(method)),
        AskFault::BadQuery(_) => Status::BadRequest,
        AskFault::NoMemory => Status::ServiceUnavailable,
    }
}

fn allow_of(method: Method) -> Allow
    ensures { result ≡ allow_of method }
{
    match method {
        Method::Get => Allow::Get,
        Method::Post => Allow::Post,
    }
}

/// Returns the status of an answer.
pub fn verdict_status(verdict: Verdict) -> Status
    ensures { result ≡ verdict_status verdict }
{
    match verdict {
        Verdict::Accepted => Status::Ok,
        Verdict::Ignored => Status::Accepted,
        Verdict::Refused => Status::Conflict,
        Verdict::Unreadable => Status::BadRequest,
        Verdict::Faulty => Status::UnprocessableEntity,
        Verdict::Unavailable => Status::ServiceUnavailable,
    }
}
