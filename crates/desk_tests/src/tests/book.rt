//! A desk with the guard of its book, and the rows of a book.

mod model;
mod random;

ghost use Rattle.std.specs.Prelude.{IfOk};
ghost use Rattle.desk_types.specs.Desk.{HasRoom};

use super::id;
use super::sending::{messages, replies_of};
use desk_types::{Desk, Listing, Reply, Rules, Stamped};
use feeder_state::StateDesk;
use line_book::{BookRow, Cause, Guard, Matter, Note, Reading, RowFault, Stock, restore};
use std::alloc::Global;
use std::test::Fail;

/// Reel R1 of lot L is on slot 1 of machine M1, and board B1 in work.
const WORKING: &str = "PartDefined\tP
SheetDefined\tX\tM1\t1\t1\tP\t1\tC1
ProductSelected\tM1\tX
ReelReceived\tR1\tP\tL\t3\t5\t0
MaterialsLoaded\tM1\t1\tR1
WorkStarted\tM1\tB1";

/// The same, and reel R1 is loaded again.
const HANDLED: &str = "PartDefined\tP
SheetDefined\tX\tM1\t1\t1\tP\t1\tC1
ProductSelected\tM1\tX
ReelReceived\tR1\tP\tL\t3\t5\t0
MaterialsLoaded\tM1\t1\tR1
WorkStarted\tM1\tB1
MaterialsUnloaded\tM1\t1
MaterialsLoaded\tM1\t1\tR1";

fn is_refused(reply: &Reply) -> bool {
    matches!(reply, Reply::Refused(_))
}

/// Sends messages that are accepted.
fn send<D: Desk>(alloc: Global, desk: &mut D, messages: &[Stamped]) -> Result<(), Fail>
    requires { HasRoom D.Stands desk.old 1000 }
    ensures { IfOk result (λ done. HasRoom D.Stands desk.new 0) }
{
    let replies = replies_of(alloc, desk, messages)?;
    if replies.as_slice().iter().any(is_refused) {
        return Err("a message is refused")?;
    }
    Ok(())
}

/// Returns the causes of machine M1 after messages that are accepted.
fn causes_of<D: Desk + Drop>(
    alloc: Global,
    guard: &Guard,
    messages: &[Stamped],
) -> Result<Vec<Cause>, Fail> {
    let machine = id("M1")?;
    let mut desk = D::fresh(alloc, Rules::Two);
    send(alloc, &mut desk, messages)?;
    Ok(guard.causes(alloc, &desk, &machine)?)
}

fn note(alloc: Global, number: u32, matter: Matter) -> Note {
    Note {
        number,
        after: 6,
        carries: 0,
        matter,
        text: Listing::new(Vec::new(alloc)),
    }
}

/// Returns the guard of the first six messages, the entries and the other messages, in this order.
fn guard_of(alloc: Global, messages: &[Stamped], matters: &[Matter]) -> Result<Guard, Fail> {
    let (before, after) = messages.split_at_checked(6).ok_or("too few messages")?;
    let mut guard = restore(alloc, before, &[])?;
    let mut number = 0;
    for matter in matters {
        number = if number < 9 { number + 1 } else { number };
        guard.noted(&note(alloc, number, *matter))?;
    }
    for message in after {
        guard.accepted(message)?;
    }
    Ok(guard)
}

/// Returns the causes of machine M1 after the messages and the entries.
fn stopped(alloc: Global, lines: &str, matters: &[Matter]) -> Result<Vec<Cause>, Fail> {
    let messages = messages(alloc, lines)?;
    let guard = guard_of(alloc, messages.as_slice(), matters)?;
    causes_of::<StateDesk>(alloc, &guard, messages.as_slice())
}

fn refused() -> Result<Matter, Fail> {
    Ok(Matter::Handling {
        machine: id("M1")?,
        slot: id("1")?,
        reel: Some(id("R9")?),
        word: id("UnknownReel")?,
    })
}

#[test]
fn a_refusal_stops_until_the_slot_is_handled(rt: HostRuntime) -> Result<(), Fail> {
    let alloc = rt.alloc();
    let matter = refused()?;
    assert!(rt; stopped(alloc, WORKING, &[])?.is_empty());
    let open = stopped(alloc, WORKING, &[matter])?;
    assert!(rt; open.as_slice() == [Cause::Open(note(alloc, 1, matter))].as_slice());
    assert!(rt; stopped(alloc, HANDLED, &[matter])?.is_empty());
    Ok(())
}

#[test]
fn a_held_lot_stops(rt: HostRuntime) -> Result<(), Fail> {
    let alloc = rt.alloc();
    let stock = Stock::Lot(id("L")?);
    let held = Cause::Held {
        slot: id("1")?,
        reel: id("R1")?,
        number: 1,
    };
    let stop = stopped(alloc, WORKING, &[Matter::Hold { stock }])?;
    assert!(rt; stop.as_slice() == [held].as_slice());
    let free = [Matter::Hold { stock }, Matter::Release { stock }];
    assert!(rt; stopped(alloc, WORKING, &free)?.is_empty());
    Ok(())
}

#[test]
fn a_refusal_is_known(rt: HostRuntime) -> Result<(), Fail> {
    let entry = note(rt.alloc(), 1, refused()?);
    let mut guard = Guard::new(rt.alloc());
    assert!(rt; !guard.is_known(&entry));
    guard.noted(&entry)?;
    assert!(rt; guard.is_known(&entry));
    assert!(rt; guard.undecided().is_empty());
    assert!(rt; guard.open_notes() == [entry].as_slice());
    Ok(())
}

fn row(alloc: Global, number: u32, kind: &str, reel: &str, of: u32) -> Result<BookRow, Fail> {
    Ok(BookRow {
        number,
        after: 4,
        kind: String::from_str(alloc, kind)?,
        source: String::from_str(alloc, "S")?,
        uid: String::from_str(alloc, "u")?,
        machine: String::new(alloc),
        slot: String::new(alloc),
        board: String::new(alloc),
        reel: String::from_str(alloc, reel)?,
        word: String::new(alloc),
        of,
        told: String::from_str(alloc, "{}")?,
    })
}

fn fault(alloc: Global, reading: &mut Reading, row: &BookRow) -> Result<Option<RowFault>, Fail> {
    match reading.next(alloc, row)? {
        Ok(_note) => Ok(None),
        Err(fault) => Ok(Some(fault)),
    }
}

#[test]
fn rows_are_read_in_turn(rt: HostRuntime) -> Result<(), Fail> {
    let alloc = rt.alloc();
    let mut reading = Reading::new(4);
    let made = row(alloc, 1, "made", "", 0)?;
    assert!(rt; fault(alloc, &mut reading, &made)? == None);
    let hold = row(alloc, 2, "hold", "R1", 0)?;
    assert!(rt; fault(alloc, &mut reading, &hold)? == None);
    let gap = row(alloc, 4, "decision", "", 2)?;
    assert!(rt; fault(alloc, &mut reading, &gap)? == Some(RowFault::WrongNumber));
    let itself = row(alloc, 3, "decision", "", 3)?;
    assert!(rt; fault(alloc, &mut reading, &itself)? == Some(RowFault::WrongOf));
    let empty = row(alloc, 3, "handling", "", 0)?;
    assert!(rt; fault(alloc, &mut reading, &empty)? == Some(RowFault::WrongColumns));
    let decision = row(alloc, 3, "decision", "", 2)?;
    assert!(rt; fault(alloc, &mut reading, &decision)? == None);
    Ok(())
}
