//! Laws that each value of the program is within its range. They are for proofs and do nothing at
//! run time.

ghost use Rattle.desk_types.specs.Command.{IsCommand, IsStamped, IsEntry, IsListOf, IsSheetRow, IsCountRow};
ghost use Rattle.desk_types.specs.Designator.{IsDesignator};
ghost use Rattle.desk_types.specs.Id.{IsId};

use crate::command::{Command, Entry, Stamped};
use crate::count::{CountRow, Counts};
use crate::designator::Designator;
use crate::id::Id;
use crate::sheet::{Designators, SheetRow, SheetRows};

impl Id {
    pub fn ranges_hold(&self)
        ensures { IsId self.now }
    {
        let _ = self.as_bytes();
    }
}

impl Designator {
    pub fn ranges_hold(&self)
        ensures { IsDesignator self.now }
    {
        let _ = self.as_bytes();
    }
}

impl Entry {
    pub fn ranges_hold(&self)
        ensures { IsEntry self.now }
    {
        self.stamped.ranges_hold();
        let _ = self.effective.get();
    }
}

impl Stamped {
    pub fn ranges_hold(&self)
        ensures { IsStamped self.now }
    {
        self.uid.ranges_hold();
        self.source.ranges_hold();
        let _ = self.minute.get();
        self.command.ranges_hold();
    }
}

impl Command {
    pub fn ranges_hold(&self)
        ensures { IsCommand self.now }
    {
        match self {
            Command::PartDefined { part } => part.ranges_hold(),
            Command::AlternateAllowed { part, alternate } => both_ranges_hold(part, alternate),
            Command::SheetDefined {
                product,
                machine,
                rows,
            } => {
                both_ranges_hold(product, machine);
                rows_ranges_hold(rows);
            }
            Command::ProductSelected { machine, product } => both_ranges_hold(machine, product),
            Command::ReelReceived {
                reel,
                part,
                lot,
                moisture,
                quantity,
            } => {
                both_ranges_hold(reel, part);
                lot.ranges_hold();
                let _ = moisture.label();
                let _ = quantity.get();
            }
            Command::ReelOpened { reel } => reel.ranges_hold(),
            Command::ReelSealed { reel } => reel.ranges_hold(),
            Command::ReelBaked { reel } => reel.ranges_hold(),
            Command::MaterialsLoaded {
                machine,
                slot,
                reel,
            } => {
                both_ranges_hold(machine, slot);
                reel.ranges_hold();
            }
            Command::MaterialsSpliced {
                machine,
                slot,
                reel,
            } => {
                both_ranges_hold(machine, slot);
                reel.ranges_hold();
            }
            Command::MaterialsUnloaded { machine, slot } => both_ranges_hold(machine, slot),
            Command::WorkStarted { machine, board } => both_ranges_hold(machine, board),
            Command::WorkCompleted { machine, board } => both_ranges_hold(machine, board),
            Command::MaterialsInstalled {
                machine,
                board,
                designators,
            } => {
                both_ranges_hold(machine, board);
                designators_ranges_hold(designators);
            }
            Command::MaterialsScrapped {
                machine,
                slot,
                quantity,
            } => {
                both_ranges_hold(machine, slot);
                let _ = quantity.get();
            }
            Command::CountsTaken { counts } => counts_ranges_hold(counts),
            Command::ClockSet => {}
        }
    }
}

fn both_ranges_hold(a: &Id, b: &Id)
    ensures first { IsId a.now }
    ensures second { IsId b.now }
{
    a.ranges_hold();
    b.ranges_hold();
}

fn designators_ranges_hold(designators: &Designators)
    ensures { IsListOf IsDesignator designators.now }
{
    let items = designators.as_slice();
    for designator in items {
        designator.ranges_hold();
    }
}

fn row_ranges_hold(row: &SheetRow)
    ensures { IsSheetRow row.now }
{
    both_ranges_hold(&row.slot, &row.part);
    designators_ranges_hold(&row.designators);
}

fn rows_ranges_hold(rows: &SheetRows)
    ensures { IsListOf IsSheetRow rows.now }
{
    let items = rows.as_slice();
    for row in items {
        row_ranges_hold(row);
    }
}

fn count_ranges_hold(row: &CountRow)
    ensures { IsCountRow row.now }
{
    row.reel.ranges_hold();
    let _ = row.quantity.get();
}

fn counts_ranges_hold(counts: &Counts)
    ensures { IsListOf IsCountRow counts.now }
{
    let items = counts.as_slice();
    for row in items {
        count_ranges_hold(row);
    }
}
