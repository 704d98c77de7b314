//! Entries of messages to an empty desk, and their rows.

use super::id;
use super::sending::command;
use cfx_profile::MessageFault;
use desk_answers::Answer;
use desk_types::{Desk, Refusal, Rules};
use feeder_state::StateDesk;
use line_book::{Matter, Note, Reading};
use line_entries::{Place, Sender, fault_note, faulty, plain_note, refusal_note, refused, row_of};
use std::alloc::Global;
use std::test::Fail;

/// Returns the entry that the command makes if an empty desk refuses it.
fn entry_of(alloc: Global, text: &str, refusal: Refusal) -> Result<Option<Matter>, Fail> {
    let desk = StateDesk::fresh(alloc, Rules::Two);
    Ok(refused(&desk, &command(alloc, text)?, &Answer::Refused(refusal))?)
}

#[test]
fn refused_messages_make_entries(rt: HostRuntime) -> Result<(), Fail> {
    let alloc = rt.alloc();
    let reel = id("R9")?;
    let load = entry_of(
        alloc,
        "MaterialsLoaded\tM1\t1\tR9",
        Refusal::UnknownReel(reel),
    )?;
    let stray = Matter::Stray {
        machine: id("M1")?,
        slot: id("1")?,
        reel: Some(reel),
        word: id("UnknownReel")?,
    };
    assert!(rt; load == Some(stray));
    let start = entry_of(alloc, "WorkStarted\tM1\tB1", Refusal::SlotEmpty(id("7")?))?;
    let work = Matter::Work {
        machine: id("M1")?,
        slot: Some(id("7")?),
        board: Some(id("B1")?),
        word: id("SlotEmpty")?,
    };
    assert!(rt; start == Some(work));
    let part = entry_of(alloc, "PartDefined\tP", Refusal::UnknownReel(reel))?;
    assert!(rt; part == None);
    Ok(())
}

/// A start of work.
const START: &str = "{\"MessageName\":\"TraceDesk.WorkStarted\",\"UniqueID\":\"u\",
\"Source\":\"S\",\"TimeStamp\":\"2026-01-01T00:00:00Z\",
\"MessageBody\":{\"Machine\":\"M1\",\"Board\":\"B1\"}}";

/// Returns whether the row of the entry is read as that entry.
fn is_read_again(
    alloc: Global,
    reading: &mut Reading,
    note: Note,
    told: &[u8],
) -> Result<bool, Fail> {
    let sender = Sender {
        source: Some(id("S")?),
        uid: None,
    };
    let row = row_of(alloc, &note, &sender, told)?;
    Ok(reading.next(alloc, &row)? == Ok(note))
}

fn place(number: u32) -> Place {
    Place {
        number,
        after: 5,
        carries: 0,
    }
}

#[test]
fn rows_of_entries_are_read_again(rt: HostRuntime) -> Result<(), Fail> {
    let alloc = rt.alloc();
    let mut reading = Reading::new(5);
    let command = command(alloc, "WorkStarted\tM1\tB1")?;
    let work = Matter::Work {
        machine: id("M1")?,
        slot: None,
        board: Some(id("B1")?),
        word: id("NoProduct")?,
    };
    let refusal = refusal_note(alloc, place(1), work, &command)?;
    assert!(rt; is_read_again(alloc, &mut reading, refusal, START.as_bytes())?);
    let told = b"\xff{";
    let unread = faulty(alloc, told, &MessageFault::NotJson)?.ok_or("no entry")?;
    let fault = fault_note(alloc, place(2), unread, told)?;
    assert!(rt; is_read_again(alloc, &mut reading, fault, told)?);
    let decision = plain_note(alloc, place(3), Matter::Decision { about: 2 });
    assert!(rt; is_read_again(alloc, &mut reading, decision, b"scrapped")?);
    Ok(())
}
