//! The bodies of messages. Each function reads the members of one body in order.

ghost use Rattle.std.specs.Prelude.{◌≡◌};
ghost use Rattle.serde_json.specs.View.{view};
ghost use Rattle.cfx_profile.specs.Bodies.{command_in, sheet_row_in, count_row_in};
ghost use Rattle.cfx_profile.specs.Fault.{IsSaid};

use crate::fault::MessageFault;
use crate::forms::{counted_in, id_in, label_in, level_in, quantity_in};
use crate::lists::{Element, list_in, row_in};
use crate::member::Member;
use desk_types::{Command, CountRow, Moisture, SheetRow, Word};
use serde_json::Value;
use std::alloc::Global;

/// Reads the command in a message's body.
pub fn command_in(alloc: Global, word: Word, body: &Value) -> Result<Command, MessageFault>
    ensures { IsSaid (command_in word (view body.now)) result }
{
    match word {
        Word::PartDefined => part_defined(body),
        Word::AlternateAllowed => alternate_allowed(body),
        Word::SheetDefined => sheet_defined(alloc, body),
        Word::ProductSelected => product_selected(body),
        Word::ReelReceived => reel_received(body),
        Word::ReelOpened => reel_opened(body),
        Word::ReelSealed => reel_sealed(body),
        Word::ReelBaked => reel_baked(body),
        Word::MaterialsLoaded => materials_loaded(body),
        Word::MaterialsSpliced => materials_spliced(body),
        Word::MaterialsUnloaded => materials_unloaded(body),
        Word::WorkStarted => work_started(body),
        Word::WorkCompleted => work_completed(body),
        Word::MaterialsInstalled => materials_installed(alloc, body),
        Word::MaterialsScrapped => materials_scrapped(body),
        Word::CountsTaken => counts_taken(alloc, body),
        Word::ClockSet => Ok(Command::ClockSet),
    }
}

#[tactic(auto, unfolding(crate::specs::Bodies::command_in))]
fn part_defined(body: &Value) -> Result<Command, MessageFault>
    ensures { result ≡ command_in Word.PartDefined (view body.now) }
{
    Ok(Command::PartDefined {
        part: id_in(body, Member::PartNumber)?,
    })
}

#[tactic(auto, unfolding(crate::specs::Bodies::command_in))]
fn alternate_allowed(body: &Value) -> Result<Command, MessageFault>
    ensures { result ≡ command_in Word.AlternateAllowed (view body.now) }
{
    Ok(Command::AlternateAllowed {
        part: id_in(body, Member::PartNumber)?,
        alternate: id_in(body, Member::Alternate)?,
    })
}

#[tactic(auto, unfolding(crate::specs::Bodies::command_in))]
fn sheet_defined(alloc: Global, body: &Value) -> Result<Command, MessageFault>
    ensures { IsSaid (command_in Word.SheetDefined (view body.now)) result }
{
    Ok(Command::SheetDefined {
        product: id_in(body, Member::Product)?,
        machine: id_in(body, Member::Machine)?,
        rows: list_in(alloc, body, Member::Rows)?,
    })
}

#[tactic(auto, unfolding(crate::specs::Bodies::command_in))]
fn product_selected(body: &Value) -> Result<Command, MessageFault>
    ensures { result ≡ command_in Word.ProductSelected (view body.now) }
{
    Ok(Command::ProductSelected {
        machine: id_in(body, Member::Machine)?,
        product: id_in(body, Member::Product)?,
    })
}

#[tactic(auto, unfolding(crate::specs::Bodies::command_in))]
fn reel_received(body: &Value) -> Result<Command, MessageFault>
    ensures { result ≡ command_in Word.ReelReceived (view body.now) }
{
    let reel = id_in(body, Member::Reel)?;
    let part = id_in(body, Member::PartNumber)?;
    let lot = id_in(body, Member::Lot)?;
    let level = level_in(body, Member::Level)?;
    let quantity = quantity_in(body, Member::Quantity)?;
    let label = label_in(body, level, Member::LabelMinutes)?;
    let Some(moisture) = Moisture::new(level, label) else {
        unreachable!();
    };
    Ok(Command::ReelReceived {
        reel,
        part,
        lot,
        moisture,
        quantity,
    })
}

#[tactic(auto, unfolding(crate::specs::Bodies::command_in))]
fn reel_opened(body: &Value) -> Result<Command, MessageFault>
    ensures { result ≡ command_in Word.ReelOpened (view body.now) }
{
    Ok(Command::ReelOpened {
        reel: id_in(body, Member::Reel)?,
    })
}

#[tactic(auto, unfolding(crate::specs::Bodies::command_in))]
fn reel_sealed(body: &Value) -> Result<Command, MessageFault>
    ensures { result ≡ command_in Word.ReelSealed (view body.now) }
{
    Ok(Command::ReelSealed {
        reel: id_in(body, Member::Reel)?,
    })
}

#[tactic(auto, unfolding(crate::specs::Bodies::command_in))]
fn reel_baked(body: &Value) -> Result<Command, MessageFault>
    ensures { result ≡ command_in Word.ReelBaked (view body.now) }
{
    Ok(Command::ReelBaked {
        reel: id_in(body, Member::Reel)?,
    })
}

#[tactic(auto, unfolding(crate::specs::Bodies::command_in))]
fn materials_loaded(body: &Value) -> Result<Command, MessageFault>
    ensures { result ≡ command_in Word.MaterialsLoaded (view body.now) }
{
    Ok(Command::MaterialsLoaded {
        machine: id_in(body, Member::Machine)?,
        slot: id_in(body, Member::Slot)?,
        reel: id_in(body, Member::Reel)?,
    })
}

#[tactic(auto, unfolding(crate::specs::Bodies::command_in))]
fn materials_spliced(body: &Value) -> Result<Command, MessageFault>
    ensures { result ≡ command_in Word.MaterialsSpliced (view body.now) }
{
    Ok(Command::MaterialsSpliced {
        machine: id_in(body, Member::Machine)?,
        slot: id_in(body, Member::Slot)?,
        reel: id_in(body, Member::Reel)?,
    })
}

#[tactic(auto, unfolding(crate::specs::Bodies::command_in))]
fn materials_unloaded(body: &Value) -> Result<Command, MessageFault>
    ensures { result ≡ command_in Word.MaterialsUnloaded (view body.now) }
{
    Ok(Command::MaterialsUnloaded {
        machine: id_in(body, Member::Machine)?,
        slot: id_in(body, Member::Slot)?,
    })
}

#[tactic(auto, unfolding(crate::specs::Bodies::command_in))]
fn work_started(body: &Value) -> Result<Command, MessageFault>
    ensures { result ≡ command_in Word.WorkStarted (view body.now) }
{
    Ok(Command::WorkStarted {
        machine: id_in(body, Member::Machine)?,
        board: id_in(body, Member::Board)?,
    })
}

#[tactic(auto, unfolding(crate::specs::Bodies::command_in))]
fn work_completed(body: &Value) -> Result<Command, MessageFault>
    ensures { result ≡ command_in Word.WorkCompleted (view body.now) }
{
    Ok(Command::WorkCompleted {
        machine: id_in(body, Member::Machine)?,
        board: id_in(body, Member::Board)?,
    })
}

#[tactic(auto, unfolding(crate::specs::Bodies::command_in))]
fn materials_installed(alloc: Global, body: &Value) -> Result<Command, MessageFault>
    ensures { IsSaid (command_in Word.MaterialsInstalled (view body.now)) result }
{
    Ok(Command::MaterialsInstalled {
        machine: id_in(body, Member::Machine)?,
        board: id_in(body, Member::Board)?,
        designators: list_in(alloc, body, Member::Designators)?,
    })
}

#[tactic(auto, unfolding(crate::specs::Bodies::command_in))]
fn materials_scrapped(body: &Value) -> Result<Command, MessageFault>
    ensures { result ≡ command_in Word.MaterialsScrapped (view body.now) }
{
    Ok(Command::MaterialsScrapped {
        machine: id_in(body, Member::Machine)?,
        slot: id_in(body, Member::Slot)?,
        quantity: quantity_in(body, Member::Quantity)?,
    })
}

#[tactic(auto, unfolding(crate::specs::Bodies::command_in))]
fn counts_taken(alloc: Global, body: &Value) -> Result<Command, MessageFault>
    ensures { IsSaid (command_in Word.CountsTaken (view body.now)) result }
{
    Ok(Command::CountsTaken {
        counts: list_in(alloc, body, Member::Counts)?,
    })
}

impl Element for SheetRow {
    ghost use Rattle.cfx_profile.specs.Bodies.{sheet_row_in};

    ghost said = { sheet_row_in };

    fn read(alloc: Global, item: &Value) -> Result<SheetRow, MessageFault> {
        sheet_row_in(alloc, item)
    }
}

#[tactic(auto, unfolding(crate::specs::Bodies::sheet_row_in))]
fn sheet_row_in(alloc: Global, item: &Value) -> Result<SheetRow, MessageFault>
    ensures { IsSaid (sheet_row_in (view item.now)) result }
{
    let row = row_in(item, Member::Rows)?;
    Ok(SheetRow {
        slot: id_in(row, Member::Slot)?,
        part: id_in(row, Member::PartNumber)?,
        designators: list_in(alloc, row, Member::Designators)?,
    })
}

impl Element for CountRow {
    ghost use Rattle.cfx_profile.specs.Bodies.{count_row_in};

    ghost said = { count_row_in };

    fn read(_: Global, item: &Value) -> Result<CountRow, MessageFault> {
        count_row_in(item)
    }
}

#[tactic(auto, unfolding(crate::specs::Bodies::count_row_in))]
fn count_row_in(item: &Value) -> Result<CountRow, MessageFault>
    ensures { result ≡ count_row_in (view item.now) }
{
    let row = row_in(item, Member::Counts)?;
    Ok(CountRow {
        reel: id_in(row, Member::Reel)?,
        quantity: counted_in(row, Member::Quantity)?,
    })
}
