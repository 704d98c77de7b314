//! A connection to a line's routes, over both lists in memory.

use super::wires::Sink;
use book_store::BookStore;
use desk_answers::{Owner, Served};
use desk_file::in_memory;
use desk_types::Wire;
use feeder_state::StateDesk;
use line_http::serve;
use line_schema::LineStore;
use sqlite::Alter;
use std::alloc::Global;
use std::test::Fail;

/// Requests of one connection, each with its body, and the status and body of its answer.
const CALLS: [(&str, &str, &str, &str); 15] = [
    (
        "POST /messages",
        r#"{"MessageName":"TraceDesk.PartDefined","UniqueID":"u1","Source":"S","TimeStamp":"2026-03-01T06:00:00Z","MessageBody":{"PartNumber":"P"}}"#,
        "200 OK",
        r#"{"Answer":"Accepted","Number":1,"UniqueID":"u1"}"#,
    ),
    (
        "POST /imports/setup?id=u2&source=S&time=2026-03-01T06:00:00Z&product=PR&machine=M1",
        "slot,part,designators\n1,P,R1\n",
        "200 OK",
        r#"{"Answer":"Accepted","Number":2,"UniqueID":"u2"}"#,
    ),
    (
        "POST /messages",
        r#"{"MessageName":"TraceDesk.ProductSelected","UniqueID":"u3","Source":"S","TimeStamp":"2026-03-01T06:00:00Z","MessageBody":{"Machine":"M1","Product":"PR"}}"#,
        "200 OK",
        r#"{"Answer":"Accepted","Number":3,"UniqueID":"u3"}"#,
    ),
    // The first entry: a start of work without a reel.
    (
        "POST /messages",
        r#"{"MessageName":"TraceDesk.WorkStarted","UniqueID":"u4","Source":"S","TimeStamp":"2026-03-01T06:01:00Z","MessageBody":{"Machine":"M1","Board":"B1"}}"#,
        "409 Conflict",
        r#"{"Answer":"Refused","At":"1","Refusal":"SlotEmpty","UniqueID":"u4"}"#,
    ),
    // The same again is no new entry.
    (
        "POST /messages",
        r#"{"MessageName":"TraceDesk.WorkStarted","UniqueID":"u5","Source":"S","TimeStamp":"2026-03-01T06:02:00Z","MessageBody":{"Machine":"M1","Board":"B1"}}"#,
        "409 Conflict",
        r#"{"Answer":"Refused","At":"1","Refusal":"SlotEmpty","UniqueID":"u5"}"#,
    ),
    // The second entry: a load without its reel.
    (
        "POST /messages",
        r#"{"MessageName":"TraceDesk.MaterialsLoaded","UniqueID":"u6","Source":"S","TimeStamp":"2026-03-01T06:03:00Z","MessageBody":{"Machine":"M1","Slot":"1"}}"#,
        "422 Unprocessable Entity",
        r#"{"Answer":"Faulty","Fault":"BodyMember","Member":"Reel"}"#,
    ),
    (
        "GET /overdue",
        "",
        "200 OK",
        "board,designator,reel,minute\n",
    ),
    (
        "GET /line/state?machine=M1",
        "",
        "200 OK",
        r#"{"Answer":"State","Board":null,"Causes":[{"Cause":"NoWork"},{"Cause":"Open","Entry":1,"Kind":"work","Reel":null,"Refusal":"SlotEmpty","Slot":"1"},{"Cause":"AtSlot","Reel":null,"Refusal":"SlotEmpty","Slot":"1"}],"Machine":"M1","Number":3,"State":"stop"}"#,
    ),
    // The third entry, which closes the first.
    (
        "POST /line/decisions",
        r#"{"Of":1,"Became":"not built","By":"A","Reason":"no reel"}"#,
        "200 OK",
        r#"{"Answer":"Decided","Entry":3}"#,
    ),
    (
        "GET /line/state?machine=M1",
        "",
        "200 OK",
        r#"{"Answer":"State","Board":null,"Causes":[{"Cause":"NoWork"},{"Cause":"AtSlot","Reel":null,"Refusal":"SlotEmpty","Slot":"1"}],"Machine":"M1","Number":3,"State":"stop"}"#,
    ),
    (
        "GET /line/state?machine=M",
        "",
        "404 Not Found",
        r#"{"Answer":"NotFound","Kind":"Machine"}"#,
    ),
    (
        "GET /line/undecided",
        "",
        "200 OK",
        "n,after,kind,source,uid,machine,slot,board,reel,word,of,told,state\n2,3,unread,,,,,,,BodyMember,0,\"{\"\"MessageName\"\":\"\"TraceDesk.MaterialsLoaded\"\",\"\"UniqueID\"\":\"\"u6\"\",\"\"Source\"\":\"\"S\"\",\"\"TimeStamp\"\":\"\"2026-03-01T06:03:00Z\"\",\"\"MessageBody\"\":{\"\"Machine\"\":\"\"M1\"\",\"\"Slot\"\":\"\"1\"\"}}\",undecided\n",
    ),
    (
        "GET /line/book?after=3",
        "",
        "200 OK",
        "n,after,kind,source,uid,machine,slot,board,reel,word,of,told,state\n",
    ),
    (
        "GET /line/book",
        "",
        "400 Bad Request",
        r#"{"Answer":"Faulty","Fault":"BadQuery","Member":"after"}"#,
    ),
    (
        "GET /line/counts",
        "",
        "200 OK",
        r#"{"Answer":"Counts","Commands":3,"Entries":3,"Open":0,"Undecided":1}"#,
    ),
];

/// Returns the bytes of the requests, and those of their answers.
fn texts(alloc: Global) -> Result<(Vec<u8>, Vec<u8>), Fail> {
    let mut requests = Vec::new(alloc);
    let mut answers = Vec::new(alloc);
    for (asked, body, status, answer) in CALLS {
        let length = body.len();
        let request = format!(in alloc;
            "{asked} HTTP/1.1\r\nContent-Length: {length}\r\n\r\n{body}"
        )?;
        requests.extend_from_slice(request.as_bytes())?;
        let kind = if answer.starts_with('{') {
            "application/json"
        } else {
            "text/csv"
        };
        let length = answer.len();
        let told = format!(in alloc;
            "HTTP/1.1 {status}\r\nContent-Type: {kind}\r\nContent-Length: {length}\r\n\r\n{answer}"
        )?;
        answers.extend_from_slice(told.as_bytes())?;
    }
    Ok((requests, answers))
}

/// Serves a connection with the requests by a store, whose file gets its book. Returns what it sent, too.
fn answered<S: Alter>(
    alloc: Global,
    store: LineStore<S, StateDesk>,
    requests: &[u8],
) -> (Option<Served>, Sink, LineStore<S, StateDesk>)
    requires { ⟦<LineStore<S, StateDesk> as Owner>⟧.Ready store }
{
    let mut output = Wire::new(Sink::new(alloc));
    match BookStore::open(alloc, store) {
        Ok(book) => {
            let mut book = book;
            let mut input = Wire::new(requests);
            let served = serve(alloc, &mut input, &mut output, &mut book);
            (served.ok(), output.into_inner(), book.into_store())
        }
        Err((_fault, store)) => (None, output.into_inner(), store),
    }
}

/// Messages, a file, a report, a decision, states and the book are answered by the lists that those before them
/// left.
#[test]
fn both_kinds_of_routes(rt: HostRuntime) -> Result<(), Fail> {
    let (requests, answers) = texts(rt.alloc())?;
    match in_memory::<StateDesk>(rt.alloc(), 1_000) {
        Ok(store) => {
            let (served, sent, store) = answered(rt.alloc(), store, requests.as_slice());
            // A drop would need a proof of how each part of the store is dropped.
            let _ = store.into_connection().close();
            let served = served.ok_or("a fault")?;
            assert_eq!(rt; sent.taken.as_slice(), answers.as_slice());
            assert_eq!(rt; (served.answered, served.refused), (15, 5));
            Ok(())
        }
        Err(_) => Err(Fail::from("no desk")),
    }
}
