//! Both lists over files in memory, by a store of both.

ghost use Rattle.std.specs.Prelude.{IfOk};
ghost use Rattle.book_store.specs.Lists.{Serves};

use super::{close, new_files};
use book_store::BookStore;
use cfx_profile::{Said, read_message};
use desk_feed::{AnswerText, Verdict};
use desk_types::{Desk, Id, Stamped, Text};
use feeder_state::StateDesk;
use line_answers::Wanted;
use line_book::{BookRow, Cause, Matter, Stock};
use line_book_store::BookFault;
use line_schema::{LineStore, Unavailable};
use sqlite::{Alter, Connection};
use std::alloc::{AllocError, Global};
use std::process::Abort;
use std::test::Fail;

const PART: &str =
    "{\"MessageName\":\"TraceDesk.PartDefined\",\"UniqueID\":\"u1\",\"Source\":\"S\",\"TimeStamp\":\"1970-01-01T00:00:00Z\",\"MessageBody\":{\"PartNumber\":\"P\"}}";

const SHEET: &str =
    "{\"MessageName\":\"TraceDesk.SheetDefined\",\"UniqueID\":\"u2\",\"Source\":\"S\",\"TimeStamp\":\"1970-01-01T00:00:00Z\",\"MessageBody\":{\"Product\":\"PR\",\"Machine\":\"M\",\"Rows\":[{\"Slot\":\"1\",\"PartNumber\":\"P\",\"Designators\":[\"R1\"]}]}}";

const START: &str =
    "{\"MessageName\":\"TraceDesk.WorkStarted\",\"UniqueID\":\"u3\",\"Source\":\"S\",\"TimeStamp\":\"1970-01-01T00:00:00Z\",\"MessageBody\":{\"Machine\":\"M\",\"Board\":\"B\"}}";

const OTHER: &str =
    "{\"MessageName\":\"Other\",\"UniqueID\":\"u4\",\"Source\":\"S\",\"TimeStamp\":\"1970-01-01T00:00:00Z\",\"MessageBody\":{}}";

/// The answer to the start.
const REFUSED: &str =
    "{\"Answer\":\"Refused\",\"At\":\"M\",\"Refusal\":\"NoProduct\",\"UniqueID\":\"u3\"}";

/// The rows behind the second: the decision and the hold.
const LATER: &str = "n,after,kind,source,uid,machine,slot,board,reel,word,of,told,state
3,2,decision,,,,,,,,2,counted,
4,2,hold,,,,,,K1,,0,held,
";

/// What waits for a decision: the refused start.
const WAITING: &str = "n,after,kind,source,uid,machine,slot,board,reel,word,of,told,state
1,2,work,S,u3,M,,B,,NoProduct,0,\"{\"\"MessageName\"\":\"\"TraceDesk.WorkStarted\"\",\"\"UniqueID\"\":\"\"u3\"\",\"\"Source\"\":\"\"S\"\",\"\"TimeStamp\"\":\"\"1970-01-01T00:00:00Z\"\",\"\"MessageBody\"\":{\"\"Machine\"\":\"\"M\"\",\"\"Board\"\":\"\"B\"\"}}\",open
";

/// The state of the machine: no board in work, the refused start, and no product.
const STATE: &str =
    "{\"Answer\":\"State\",\"Board\":null,\"Causes\":[{\"Cause\":\"NoWork\"},{\"Cause\":\"Open\",\"Entry\":1,\"Kind\":\"work\",\"Reel\":null,\"Refusal\":\"NoProduct\",\"Slot\":null},{\"Cause\":\"NoSheet\"}],\"Machine\":\"M\",\"Number\":2,\"State\":\"stop\"}";

/// Opens both lists of a file. A desk without a book gets one.
fn opened<S: Alter>(
    alloc: Global,
    conn: Connection<S>,
) -> Result<BookStore<S, StateDesk>, Connection<S>>
    ensures { IfOk result (Serves S.Store (⟦<StateDesk as Desk>⟧.Stands)) }
{
    match LineStore::<S, StateDesk>::open(alloc, conn) {
        Ok(store) => match BookStore::open(alloc, store) {
            Ok(both) => Ok(both),
            Err((_fault, store)) => Err(store.into_connection()),
        },
        Err((_fault, conn)) => Err(conn),
    }
}

/// What came of some messages, of an import, and of what somebody said.
#[derive(Drop)]
struct Written {
    part: Result<AnswerText, Unavailable>,
    sheet: Result<AnswerText, Unavailable>,
    refused: Result<AnswerText, Unavailable>,
    again: Result<AnswerText, Unavailable>,
    faulty: Result<AnswerText, Unavailable>,
    ignored: Result<AnswerText, Unavailable>,
    decided: Result<u32, Unavailable>,
    held: Result<u32, Unavailable>,
    undecidable: Result<u32, Unavailable>,
}

/// A message, an import, a refused start of work, twice, and a fault, with the entries of both, and another message; a
/// decision about the fault, a hold, and a decision about an entry that isn't there.
fn write_both<S: Alter>(both: &mut BookStore<S, StateDesk>, sheet: &Stamped, reel: Id) -> Written
    requires { Serves S.Store (⟦<StateDesk as Desk>⟧.Stands) both.old }
{
    let stock = Stock::Reel(reel);
    Written {
        part: both.answer(PART.as_bytes()),
        sheet: both.command(sheet),
        refused: both.answer(START.as_bytes()),
        again: both.answer(START.as_bytes()),
        faulty: both.answer(b"no message"),
        ignored: both.answer(OTHER.as_bytes()),
        decided: both.say(Matter::Decision { about: 2 }, b"counted"),
        held: both.say(Matter::Hold { stock }, b"held"),
        undecidable: both.say(Matter::Decision { about: 5 }, b"of itself"),
    }
}

fn written_over<S: Alter>(
    alloc: Global,
    conn: Connection<S>,
    sheet: &Stamped,
    reel: Id,
) -> (Option<Written>, Connection<S>) {
    match opened(alloc, conn) {
        Ok(both) => {
            let mut both = both;
            let written = write_both(&mut both, sheet, reel);
            (Some(written), both.into_store().into_connection())
        }
        Err(conn) => (None, conn),
    }
}

/// What a store shows of both lists.
#[derive(Drop)]
struct Read {
    last: u32,
    commands: u32,
    rows: Result<Vec<BookRow>, Unavailable>,
    later: Result<Text, Unavailable>,
    waiting: Result<Text, Unavailable>,
    state: Result<Option<Text>, Unavailable>,
    causes: Result<Vec<Cause>, Unavailable>,
}

fn read_both<S: Alter>(both: &mut BookStore<S, StateDesk>, machine: &Id) -> Read
    requires { Serves S.Store (⟦<StateDesk as Desk>⟧.Stands) both.old }
{
    Read {
        last: both.last_entry(),
        commands: both.history().count(),
        rows: both.entries(1, 2),
        later: both.book(Wanted::After(2)),
        waiting: both.book(Wanted::Undecided),
        state: both.state(machine),
        causes: both.causes(machine),
    }
}

fn read_over<S: Alter>(
    alloc: Global,
    conn: Connection<S>,
    machine: &Id,
) -> (Option<(Read, Result<u32, BookFault>)>, Connection<S>) {
    match opened(alloc, conn) {
        Ok(both) => {
            let mut both = both;
            let read = read_both(&mut both, machine);
            let mut store = both.into_store();
            let checked = store.check_book();
            (Some((read, checked)), store.into_connection())
        }
        Err(conn) => (None, conn),
    }
}

fn is_told(answer: &Result<AnswerText, Unavailable>, verdict: Verdict) -> bool {
    match answer {
        Ok(told) => told.verdict == verdict,
        Err(_) => false,
    }
}

fn is_text(found: &Result<Text, Unavailable>, text: &str) -> bool {
    match found {
        Ok(found) => found.as_slice() == text.as_bytes(),
        Err(_) => false,
    }
}

fn are_written(rt: &impl Abort, written: Written) -> Result<(), Fail> {
    let Written {
        part,
        sheet,
        refused,
        again,
        faulty,
        ignored,
        decided,
        held,
        undecidable,
    } = written;
    assert!(rt; is_told(&part, Verdict::Accepted) && is_told(&sheet, Verdict::Accepted));
    assert!(rt; is_told(&refused, Verdict::Refused) && is_told(&again, Verdict::Refused));
    assert!(rt; is_told(&faulty, Verdict::Unreadable) && is_told(&ignored, Verdict::Ignored));
    let Ok(refused) = refused else {
        return Err(Fail::from("no answer"));
    };
    assert!(rt; refused.text.as_slice() == REFUSED.as_bytes());
    assert!(rt; decided == Ok(3) && held == Ok(4) && undecidable.is_err());
    Ok(())
}

fn are_read(rt: &impl Abort, read: Read) -> Result<(), Fail> {
    let Read {
        last,
        commands,
        rows,
        later,
        waiting,
        state,
        causes,
    } = read;
    assert!(rt; last == 4 && commands == 2);
    assert!(rt; is_text(&later, LATER) && is_text(&waiting, WAITING));
    let Ok(rows) = rows else {
        return Err(Fail::from("no rows"));
    };
    assert!(rt; rows.len() == 2 && rows[0].kind.as_str() == "unread" && rows[1].of == 2);
    let Ok(Some(state)) = state else {
        return Err(Fail::from("no state"));
    };
    assert!(rt; state.as_slice() == STATE.as_bytes());
    let Ok(causes) = causes else {
        return Err(Fail::from("no causes"));
    };
    assert!(rt; causes.len() == 3);
    assert!(rt; matches!(&causes[1], Cause::Open(entry) if entry.number == 1));
    Ok(())
}

fn made_together<S: Alter>(alloc: Global, conn: Connection<S>) -> Connection<S> {
    match LineStore::<S, StateDesk>::create_with_book(alloc, conn, 1_000) {
        Ok(store) => store.into_connection(),
        Err((_fault, conn)) => conn,
    }
}

fn made_alone<S: Alter>(alloc: Global, conn: Connection<S>) -> Connection<S> {
    match LineStore::<S, StateDesk>::create(alloc, conn, 1_000) {
        Ok(store) => store.into_connection(),
        Err((_fault, conn)) => conn,
    }
}

/// Writes to both lists of a file, and reads them again by another store, whether the file was made with its book or
/// gets it later.
#[test]
fn both_lists_are_read_again(rt: HostRuntime) -> Result<(), Fail> {
    let machine = Id::read(b"M").ok_or("no machine")?;
    let reel = Id::read(b"K1").ok_or("no reel")?;
    let Ok(Said::Asked(sheet)) = read_message(rt.alloc(), SHEET.as_bytes()) else {
        return Err(Fail::from("no sheet"));
    };
    for is_together in [true, false] {
        let conn = new_files(rt.alloc())?;
        let conn = if is_together {
            made_together(rt.alloc(), conn)
        } else {
            made_alone(rt.alloc(), conn)
        };
        let (written, conn) = written_over(rt.alloc(), conn, &sheet, reel);
        let (read, conn) = read_over(rt.alloc(), conn, &machine);
        close(conn);
        are_written(&rt, written.ok_or(AllocError)?)?;
        let (read, checked) = read.ok_or(AllocError)?;
        assert!(rt; checked == Ok(4));
        are_read(&rt, read)?;
    }
    Ok(())
}
