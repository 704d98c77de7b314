//! Findings in a receipt and in installs, and their rows.

use super::id;
use super::sending::{command, stamped};
use desk_types::{Change, Designator, Detail, Listing, Purpose, Take};
use line_book::{Guard, Matter, Reading};
use line_entries::{Place, Sender, plain_note, row_of};
use line_members::{AttributeName, Finding, MachineReels, accepted, attributes, machine_reels};
use std::alloc::Global;
use std::test::Fail;

/// A receipt: one attribute is empty, and one is a number.
const RECEIPT: &str = "{\"MessageName\":\"TraceDesk.ReelReceived\",\"UniqueID\":\"u\",
\"Source\":\"S\",\"TimeStamp\":\"2026-01-01T00:00:00Z\",
\"MessageBody\":{\"Reel\":\"K1\",\"PartNumber\":\"P\",\"Lot\":\"L\",\"Level\":\"1\",\"Quantity\":9,
\"Order\":\"4711 \u{fc}\",\"Supplier\":\"\",\"MakerPart\":7,\"DateCode\":\"2614\"}}";

/// An install whose machine knows no reel for the second piece.
const INSTALL: &str = "{\"MessageName\":\"TraceDesk.MaterialsInstalled\",\"UniqueID\":\"v\",
\"Source\":\"S\",\"TimeStamp\":\"2026-01-01T00:00:00Z\",
\"MessageBody\":{\"Machine\":\"M1\",\"Board\":\"B1\",\"Designators\":[\"C1\",\"C2\",\"C3\",\"C4\"],
\"MachineReels\":[\"K2\",null,\"K9\",\"K2\"]}}";

/// Returns the change of an accepted command that takes these pieces.
fn change(alloc: Global, text: &str, takes: Vec<Take>) -> Result<Change, Fail> {
    let stamped = stamped(10, command(alloc, text)?)?;
    Ok(Change {
        minute: stamped.minute,
        stamped,
        detail: Detail::Plain,
        takes: Listing::new(takes),
    })
}

/// Returns the change of an install of four pieces, each from reel K1 on slot 1.
fn install(alloc: Global) -> Result<Change, Fail> {
    let mut takes = Vec::new(alloc);
    for designator in ["C1", "C2", "C3", "C4"] {
        takes.push(Take {
            reel: id("K1")?,
            part: id("P")?,
            lot: id("L")?,
            quantity: 1,
            purpose: Purpose::Placed {
                board: id("B1")?,
                designator: Designator::read(designator.as_bytes()).ok_or("no designator")?,
                machine: id("M1")?,
                slot: id("1")?,
            },
            overdue: false,
        })?;
    }
    change(
        alloc,
        "MaterialsInstalled\tM1\tB1\t4\tC1\tC2\tC3\tC4",
        takes,
    )
}

/// Returns a guard of slot 1 of machine M1: reel K2 is spliced behind reel K1.
fn guard(alloc: Global) -> Result<Guard, Fail> {
    let mut guard = Guard::new(alloc);
    for text in ["MaterialsLoaded\tM1\t1\tK1", "MaterialsSpliced\tM1\t1\tK2"] {
        guard.accepted(&stamped(10, command(alloc, text)?)?)?;
    }
    Ok(guard)
}

fn is_finding(finding: &Finding, matter: Matter, told: &str) -> bool {
    finding.matter == matter && finding.told.as_slice() == told.as_bytes()
}

#[test]
fn a_receipt_has_attributes(rt: HostRuntime) -> Result<(), Fail> {
    let alloc = rt.alloc();
    let reel = id("K1")?;
    let found = attributes(alloc, RECEIPT.as_bytes(), &reel)?;
    assert!(rt; found.len() == 2);
    let name = id(AttributeName::DateCode.as_str())?;
    assert!(rt; is_finding(&found[0], Matter::Attribute { reel, name }, "2614"));
    let name = id("Order")?;
    assert!(rt; is_finding(&found[1], Matter::Attribute { reel, name }, "4711 \u{fc}"));
    let received = change(alloc, "ReelReceived\tK1\tP\tL\t1\t9\t0", Vec::new(alloc))?;
    assert!(rt; accepted(alloc, RECEIPT.as_bytes(), &Guard::new(alloc), &received)? == found);
    Ok(())
}

#[test]
fn machines_name_reels(rt: HostRuntime) -> Result<(), Fail> {
    let alloc = rt.alloc();
    let named = machine_reels(alloc, INSTALL.as_bytes(), 4)?;
    let mut reels = Vec::new(alloc);
    reels.push(Some(id("K2")?))?;
    reels.push(None)?;
    reels.push(Some(id("K9")?))?;
    reels.push(Some(id("K2")?))?;
    assert!(rt; named == MachineReels::Named(Listing::new(reels)));
    let fewer = machine_reels(alloc, INSTALL.as_bytes(), 3)?;
    assert!(rt; fewer == MachineReels::Uncompared);
    let absent = machine_reels(alloc, RECEIPT.as_bytes(), 4)?;
    assert!(rt; absent == MachineReels::Absent);
    Ok(())
}

#[test]
fn reels_are_compared(rt: HostRuntime) -> Result<(), Fail> {
    let alloc = rt.alloc();
    let guard = guard(alloc)?;
    let found = accepted(alloc, INSTALL.as_bytes(), &guard, &install(alloc)?)?;
    assert!(rt; found.len() == 2);
    let machine = id("M1")?;
    let board = id("B1")?;
    let slot = id("1")?;
    let desk_reel = id("K1")?;
    let neighbor = Matter::Boundary {
        machine,
        slot,
        board,
        reel: id("K2")?,
        desk_reel,
    };
    assert!(rt; is_finding(&found[0], neighbor, "C1 C4"));
    let other = Matter::Differs {
        machine,
        slot,
        board,
        reel: id("K9")?,
        desk_reel,
    };
    assert!(rt; is_finding(&found[1], other, "C3"));
    let text = "{\"MessageBody\":{\"MachineReels\":[\"K1\",\"\",null,null]}}";
    let found = accepted(alloc, text.as_bytes(), &guard, &install(alloc)?)?;
    assert!(rt; found.len() == 1);
    assert!(rt; is_finding(&found[0], Matter::Uncompared { machine, board }, text));
    Ok(())
}

#[test]
fn rows_of_findings_are_read_again(rt: HostRuntime) -> Result<(), Fail> {
    let alloc = rt.alloc();
    let guard = guard(alloc)?;
    let mut reading = Reading::new(9);
    let sender = Sender {
        source: Some(id("S")?),
        uid: Some(id("v")?),
    };
    let mut number = 0;
    for finding in accepted(alloc, INSTALL.as_bytes(), &guard, &install(alloc)?)? {
        number = if number < 9 { number + 1 } else { number };
        let place = Place {
            number,
            after: 8,
            carries: 0,
        };
        let note = plain_note(alloc, place, finding.matter);
        let row = row_of(alloc, &note, &sender, finding.told.as_slice())?;
        assert!(rt; reading.next(alloc, &row)? == Ok(note));
    }
    assert!(rt; number == 2);
    Ok(())
}
