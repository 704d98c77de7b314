//! The texts of a line's own routes.

use super::id;
use super::sending::{messages, replies_of};
use desk_types::{Desk, Listing, Rules, Stamped, Text};
use feeder_state::StateDesk;
use line_answers::{
    Kind, LineFault, Member, Noted, Point, Wanted, book_text, not_found_text, noted_text,
    read_decision, read_hold, read_release, state_text,
};
use line_book::{BookRow, Guard, Matter, Note, Stock, restore};
use line_entries::{Sender, row_of};
use std::alloc::Global;
use std::test::Fail;

/// Machine M1 has product X, and nothing on its slot 1.
const WORKING: &str = "PartDefined\tP
SheetDefined\tX\tM1\t1\t1\tP\t1\tC1
ProductSelected\tM1\tX";

/// A load of reel R9 is refused, board B1 isn't in work, and slot 1 is empty.
const STOPPED: &str = "{\"Answer\":\"State\",\"Board\":null,\"Causes\":[\
{\"Cause\":\"NoWork\"},\
{\"Cause\":\"Open\",\"Entry\":1,\"Kind\":\"handling\",\"Reel\":\"R9\",\"Refusal\":\"UnknownReel\",\"Slot\":\"1\"},\
{\"Cause\":\"AtSlot\",\"Reel\":null,\"Refusal\":\"SlotEmpty\",\"Slot\":\"1\"}],\
\"Machine\":\"M1\",\"Number\":3,\"State\":\"stop\"}";

/// Returns the answer about the machine after the messages, which are accepted.
fn state_of<D: Desk + Drop>(
    alloc: Global,
    guard: &Guard,
    messages: &[Stamped],
    machine: &str,
) -> Result<Option<Text>, Fail> {
    let machine = id(machine)?;
    let mut desk = D::fresh(alloc, Rules::Two);
    let _ = replies_of(alloc, &mut desk, messages)?;
    let point = Point {
        number: messages.len() as u64,
        board: None,
    };
    Ok(state_text(alloc, &desk, guard, &machine, &point)?)
}

/// A refused load of reel R9 on slot 1.
fn refused_load(alloc: Global) -> Result<Note, Fail> {
    Ok(Note {
        number: 1,
        after: 3,
        carries: 0,
        matter: Matter::Handling {
            machine: id("M1")?,
            slot: id("1")?,
            reel: Some(id("R9")?),
            word: id("UnknownReel")?,
        },
        text: Listing::new(Vec::new(alloc)),
    })
}

#[test]
fn all_causes_are_told(rt: HostRuntime) -> Result<(), Fail> {
    let alloc = rt.alloc();
    let messages = messages(alloc, WORKING)?;
    let mut guard = restore(alloc, messages.as_slice(), &[])?;
    guard.noted(&refused_load(alloc)?)?;
    let told = state_of::<StateDesk>(alloc, &guard, messages.as_slice(), "M1")?.ok_or("no text")?;
    assert!(rt; told.as_slice() == STOPPED.as_bytes());
    let unknown = state_of::<StateDesk>(alloc, &guard, messages.as_slice(), "M2")?;
    assert!(rt; unknown.is_none());
    let text = not_found_text(alloc, Kind::Machine)?;
    assert!(rt; text.as_slice() == "{\"Answer\":\"NotFound\",\"Kind\":\"Machine\"}".as_bytes());
    Ok(())
}

/// Returns the row of the refused load, which this message told.
fn row(alloc: Global, note: &Note, told: &[u8]) -> Result<BookRow, Fail> {
    let sender = Sender {
        source: Some(id("S")?),
        uid: None,
    };
    Ok(row_of(alloc, note, &sender, told)?)
}

/// The refused load, with a quote in what was told.
const OPEN: &str = "n,after,kind,source,uid,machine,slot,board,reel,word,of,told,state
1,3,handling,S,,M1,1,,R9,UnknownReel,0,\"a \"\"load\"\"\",open
";

const NO_ROWS: &str = "n,after,kind,source,uid,machine,slot,board,reel,word,of,told,state
";

#[test]
fn entries_are_records(rt: HostRuntime) -> Result<(), Fail> {
    let alloc = rt.alloc();
    let mut notes = Vec::new(alloc);
    notes.push(refused_load(alloc)?)?;
    let mut rows = Vec::new(alloc);
    rows.push(row(alloc, &refused_load(alloc)?, b"a \"load\"")?)?;
    let told = book_text(
        alloc,
        rows.as_slice(),
        notes.as_slice(),
        &[],
        Wanted::After(0),
    )?;
    assert!(rt; told.as_slice() == OPEN.as_bytes());
    let later = book_text(
        alloc,
        rows.as_slice(),
        notes.as_slice(),
        &[],
        Wanted::After(1),
    )?;
    assert!(rt; later.as_slice() == NO_ROWS.as_bytes());
    let waiting = book_text(
        alloc,
        rows.as_slice(),
        notes.as_slice(),
        &[],
        Wanted::Undecided,
    )?;
    assert!(rt; waiting.as_slice() == NO_ROWS.as_bytes());
    Ok(())
}

#[test]
fn decisions_are_read(rt: HostRuntime) -> Result<(), Fail> {
    let alloc = rt.alloc();
    let body =
        "{\"Of\":2,\"Became\":\"scrapped\",\"By\":\"A. Person\",\"Reason\":\"cracked\"}".as_bytes();
    assert!(rt; read_decision(alloc, 2, body) == Ok(Matter::Decision { about: 2 }));
    assert!(rt; read_decision(alloc, 1, body) == Err(LineFault::NotFound(Kind::Entry)));
    let fault = read_decision(alloc, 2, "{\"Of\":2,\"Became\":\"\"}".as_bytes());
    assert!(rt; fault == Err(LineFault::BodyMember(Member::Became)));
    let text = LineFault::BodyMember(Member::Became).write_text(alloc)?;
    assert!(rt;
        text.as_slice()
            == "{\"Answer\":\"Faulty\",\"Fault\":\"BodyMember\",\"Member\":\"Became\"}".as_bytes()
    );
    let told = noted_text(alloc, Noted::Decided, 13)?;
    assert!(rt; told.as_slice() == "{\"Answer\":\"Decided\",\"Entry\":13}".as_bytes());
    Ok(())
}

#[test]
fn holds_are_read(rt: HostRuntime) -> Result<(), Fail> {
    let alloc = rt.alloc();
    let stock = Stock::Lot(id("L1")?);
    let hold =
        "{\"Hold\":\"lot\",\"Name\":\"L1\",\"By\":\"A. Person\",\"Reason\":\"label\"}".as_bytes();
    assert!(rt; read_hold(alloc, hold) == Ok(Matter::Hold { stock }));
    assert!(rt; read_release(alloc, hold) == Err(LineFault::BodyMember(Member::Release)));
    let release =
        "{\"Release\":\"lot\",\"Name\":\"L1\",\"By\":\"A. Person\",\"Reason\":\"ok\"}".as_bytes();
    assert!(rt; read_release(alloc, release) == Ok(Matter::Release { stock }));
    assert!(rt; read_hold(alloc, "[]".as_bytes()) == Err(LineFault::NotObject));
    assert!(rt; read_hold(alloc, "{".as_bytes()) == Err(LineFault::NotJson));
    Ok(())
}
