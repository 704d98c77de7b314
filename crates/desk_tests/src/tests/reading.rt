//! Messages and files are read as they say, or memory was refused. What was refused can be read again.

use super::id;
use cfx_profile::{Member, MessageFault, Said, read_message};
use desk_types::Command;
use imports::{ImportFault, read_counts, read_setup};
use std::alloc::Global;
use std::process::Abort;
use std::test::Fail;

const SHEET: &str =
    r#"{"MessageName":"TraceDesk.SheetDefined","UniqueID":"u1","Source":"S","TimeStamp":"1970-01-01T00:00:00Z","MessageBody":{"Product":"PR","Machine":"M","Rows":[{"Slot":"1","PartNumber":"P","Designators":["R1","R2"]}]}}"#;

const SHEET_WITHOUT_A_SLOT: &str =
    r#"{"MessageName":"TraceDesk.SheetDefined","UniqueID":"u1","Source":"S","TimeStamp":"1970-01-01T00:00:00Z","MessageBody":{"Product":"PR","Machine":"M","Rows":[{"PartNumber":"P","Designators":["R1","R2"]}]}}"#;

const OTHER: &str = r#"{"MessageName":"CFX.Heartbeat","MessageBody":{"x":1.5}}"#;

const STORED_SHEET: &str = "SheetDefined\tPR\tM\t1\t1\tP\t2\tR1\tR2";

const STORED_COUNTS: &str = "CountsTaken\t2\tK1\t5\tK2\t0";

/// Returns what a message says. If memory is refused, it is read once more.
fn said(alloc: Global, text: &str) -> Result<Said, MessageFault> {
    match read_message(alloc, text.as_bytes()) {
        Err(MessageFault::NoMemory) => read_message(alloc, text.as_bytes()),
        said => said,
    }
}

/// The same for the rows of a sheet in a file.
fn setup(alloc: Global, text: &str) -> Result<Result<Command, ImportFault>, Fail> {
    let (product, machine) = (id("PR")?, id("M")?);
    match read_setup(alloc, text.as_bytes(), product, machine) {
        Err(ImportFault::NoMemory) => Ok(read_setup(alloc, text.as_bytes(), product, machine)),
        said => Ok(said),
    }
}

/// The same for the counts of a file.
fn counts(alloc: Global, text: &str) -> Result<Command, ImportFault> {
    match read_counts(alloc, text.as_bytes()) {
        Err(ImportFault::NoMemory) => read_counts(alloc, text.as_bytes()),
        said => said,
    }
}

fn is_stored_as(
    rt: &impl Abort,
    alloc: Global,
    command: &Command,
    wanted: &str,
) -> Result<(), Fail> {
    let text = command.write_text(alloc)?;
    assert!(rt; text.as_slice() == wanted.as_bytes(), "read as {wanted}");
    Ok(())
}

#[test]
fn a_message_is_read_or_memory_was_refused(rt: HostRuntime) -> Result<(), Fail> {
    let Ok(Said::Asked(sheet)) = said(rt.alloc(), SHEET) else {
        return Err(Fail::from("a sheet is not read"));
    };
    is_stored_as(&rt, rt.alloc(), &sheet.command, STORED_SHEET)?;
    let Ok(Said::Ignored(name)) = said(rt.alloc(), OTHER) else {
        return Err(Fail::from("another message is not ignored"));
    };
    assert!(rt; name.as_slice() == b"CFX.Heartbeat".as_slice());
    let fault = said(rt.alloc(), SHEET_WITHOUT_A_SLOT).err();
    assert!(rt; fault == Some(MessageFault::BodyMember(Member::Slot)));
    let Ok(sheet) = setup(rt.alloc(), "slot,part,designators\n1,P,R1 R2\n")? else {
        return Err(Fail::from("a setup file is not read"));
    };
    is_stored_as(&rt, rt.alloc(), &sheet, STORED_SHEET)?;
    let fault = setup(rt.alloc(), "slot,part,designators\n1,P\n")?.err();
    assert!(rt; fault == Some(ImportFault::BadRow(2)));
    let Ok(counted) = counts(rt.alloc(), "reel,quantity\nK1,5\nK2,0\n") else {
        return Err(Fail::from("a file of counts is not read"));
    };
    is_stored_as(&rt, rt.alloc(), &counted, STORED_COUNTS)?;
    let fault = counts(rt.alloc(), "reel,quantity\nK1,-5\n").err();
    assert!(rt; fault == Some(ImportFault::BadField(2, 2)));
    Ok(())
}
