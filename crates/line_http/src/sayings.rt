//! The answers to what people decide, hold and release.

ghost use Rattle.std.specs.Prelude.{◌≡◌, false, IfOk, Ok, length};
ghost use Rattle.cfx_profile.specs.Fault.{IsSaidBut};
ghost use Rattle.gateway_http.specs.Requests.{json};
ghost use Rattle.http_stream.specs.Answers.{response_told};
ghost use Rattle.line_answers.specs.Fault.{fault_text};
ghost use Rattle.line_answers.specs.declared.fault.LineFault.TheVariants as LineFault;
ghost use Rattle.sqlite.specs.State.{HasCleanDisk};
ghost use Rattle.book_store.specs.Lists.{Serves, book_state};
ghost use Rattle.line_http.specs.Gives.{Gives};
ghost use Rattle.line_http.specs.Rule.{body_said, body_status, is_memory, said_outcome};

use book_store::BookStore;
use gateway_http::{Response, Status, Unavailable, json};
use line_answers::{LineFault, Noted, noted_text, read_decision, read_hold, read_release};
use line_book::Matter;
use sqlite::Alter;
use state_rows::KeepsRows;
use std::alloc::Global;

/// Answers a body that says something. Its entry is on disk before this returns.
pub fn answer_saying<S: Alter, D: KeepsRows + Drop>(
    alloc: Global,
    store: &mut BookStore<S, D>,
    noted: Noted,
    body: &[u8],
) -> Result<Response, Unavailable>
    requires serves { Serves S.Store D.Stands store.old }
    ensures gives { Gives S.Store D.Stands store.old store.new result (λ line.
        said_outcome line noted body.now (body_said noted (length line.notes) body.now)) }
    ensures clean { HasCleanDisk (book_state S.Store store.new)
        → HasCleanDisk (book_state S.Store store.old) }
    ensures serves { Serves S.Store D.Stands store.new }
{
    match read_body(alloc, noted, store.last_entry(), body) {
        Ok(matter) => say(alloc, store, noted, matter, body),
        Err(fault) => answer_body_fault(alloc, fault),
    }
}

/// Writes what was said, and answers with the number of its entry. The answer is made first, so nothing
/// is written without it.
fn say<S: Alter, D: KeepsRows + Drop>(
    alloc: Global,
    store: &mut BookStore<S, D>,
    noted: Noted,
    matter: Matter,
    body: &[u8],
) -> Result<Response, Unavailable>
    requires serves { Serves S.Store D.Stands store.old }
    ensures gives { Gives S.Store D.Stands store.old store.new result
        (λ line. said_outcome line noted body.now (Ok matter)) }
    ensures clean { HasCleanDisk (book_state S.Store store.new)
        → HasCleanDisk (book_state S.Store store.old) }
    ensures serves { Serves S.Store D.Stands store.new }
{
    let place = store.place()?;
    let text = noted_text(alloc, noted, place.number)?;
    store.say(matter, body)?;
    Ok(json(Status::Ok, text))
}

/// Reads what a body says in a book of so many entries.
fn read_body(alloc: Global, noted: Noted, entries: u32, body: &[u8]) -> Result<Matter, LineFault>
    ensures { IsSaidBut LineFault.NoMemory (body_said noted entries body.now) result }
{
    match noted {
        Noted::Decided => read_decision(alloc, entries, body),
        Noted::Held => read_hold(alloc, body),
        Noted::Released => read_release(alloc, body),
    }
}

/// Answers a body that isn't taken. If memory was refused, there is no answer.
fn answer_body_fault(alloc: Global, fault: LineFault) -> Result<Response, Unavailable>
    ensures told { IfOk result (λ response. response_told response
        ≡ json (body_status fault) (fault_text fault)) }
    ensures fault { IfOk result (λ _. is_memory fault ≡ false) }
{
    if is_memory(fault) {
        return Err(Unavailable);
    }
    Ok(json(body_status(fault), fault.write_text(alloc)?))
}

/// Returns whether memory was refused, which is no fault of a body.
fn is_memory(fault: LineFault) -> bool
    ensures { result ≡ is_memory fault }
{
    match fault {
        LineFault::NoMemory => true,
        _ => false,
    }
}

fn body_status(fault: LineFault) -> Status
    ensures { result ≡ body_status fault }
{
    match fault {
        LineFault::NotJson | LineFault::NotObject => Status::BadRequest,
        LineFault::BodyMember(_) => Status::UnprocessableEntity,
        LineFault::NotFound(_) => Status::NotFound,
        LineFault::NoMemory => Status::ServiceUnavailable,
    }
}
