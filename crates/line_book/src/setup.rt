//! Why the setup of a machine stops it.

ghost use Rattle.std.specs.Prelude.{◌≡◌, ◌++◌, Some, OnOk};
ghost use Rattle.std.specs.List.{flat_map};
ghost use Rattle.std.specs.Option.{option_map, option_to_list};
ghost use Rattle.desk_types.specs.Front.{front_at};
ghost use Rattle.desk_types.specs.History.{History, Basis, desk_minute, now_of};
ghost use Rattle.desk_types.specs.Id.{Name};
ghost use Rattle.desk_types.specs.Refusals.{slots_of_rows};
ghost use Rattle.desk_types.specs.Setup.{sheet_on};
ghost use Rattle.setup_sheets.specs.Verification.{AreFronts, front_fault, slots_of_fronts};
ghost use Rattle.line_book.specs.declared.cause.Cause.TheVariants.{AtSlot, Held};
ghost use Rattle.line_book.specs.Book.{Book};
ghost use Rattle.line_book.specs.Causes.{held_causes, lot_hold, setup_causes, slot_causes};
ghost use Rattle.line_book.specs.Setup.{KeepsSetup, reel_in};

use crate::cause::Cause;
use crate::holds::Holds;
use crate::note::Stock;
use desk_types::{Desk, Front, FrontReel, Id, Life, Minute, Refusal, SheetRow, SheetRows};
use setup_sheets::{Alternates, allowed};
use std::alloc::AllocError;

/// What decides about a front reel besides the desk: the alternates and the holds.
#[derive(Drop)]
pub struct Setup {
    pub alternates: Alternates,
    pub holds: Holds,
}

impl Setup {
    /// Adds the causes of the setup: no sheet, or those of its slots in sheet order.
    pub fn add_causes<D: Desk>(
        &self,
        found: &mut Vec<Cause>,
        desk: &D,
        machine: &Id,
        sheet: &Option<SheetRows>,
    ) -> Result<(), AllocError>
        requires { (S : Basis) × D.Stands desk.now S
            × (sheet.now ≡ sheet_on S.history machine.now) }
        ensures { (S : Basis) (B : Book) → D.Stands desk.now S → KeepsSetup S.history B self.now
            → sheet.now ≡ sheet_on S.history machine.now
            → OnOk result (found.new.items
            ≡ found.old.items ++ setup_causes S.history B machine.now sheet.now) }
    {
        let Some(rows) = sheet else {
            found.push(Cause::NoSheet)?;
            return Ok(());
        };
        let Some(minute) = desk.minute() else {
            return Ok(());
        };
        let fronts = desk.fronts(machine)?;
        self.add_slots(found, desk, rows.as_slice(), fronts.as_slice(), minute)?;
        Ok(())
    }

    fn add_slots<D: Desk>(
        &self,
        found: &mut Vec<Cause>,
        desk: &D,
        rows: &[SheetRow],
        fronts: &[Front],
        minute: Minute,
    ) -> Result<(), AllocError>
        requires { slots_of_fronts fronts.now ≡ slots_of_rows rows.now }
        ensures { (S : Basis) (B : Book) (machine : Name) → D.Stands desk.now S
            → KeepsSetup S.history B self.now → desk_minute S.history ≡ Some minute
            → AreFronts S.history machine rows.now fronts.now
            → OnOk result (found.new.items
            ≡ found.old.items ++ flat_map (slot_causes S.history B machine) rows.now) }
    {
        for i in 0..rows.len() {
            self.add_slot(found, desk, &rows[i], &fronts[i], minute)?;
        }
        Ok(())
    }

    fn add_slot<D: Desk>(
        &self,
        found: &mut Vec<Cause>,
        desk: &D,
        row: &SheetRow,
        front: &Front,
        minute: Minute,
    ) -> Result<(), AllocError>
        ensures { (S : Basis) (B : Book) (machine : Name) → D.Stands desk.now S
            → KeepsSetup S.history B self.now → desk_minute S.history ≡ Some minute
            → front.now ≡ front_at S.history (now_of S.history) machine row.now
            → OnOk result (found.new.items
            ≡ found.old.items ++ slot_causes S.history B machine row.now) }
    {
        self.add_refusal(found, row, front, minute)?;
        self.add_holds(found, desk, &row.slot, reel_of(front))?;
        Ok(())
    }

    fn add_refusal(
        &self,
        found: &mut Vec<Cause>,
        row: &SheetRow,
        front: &Front,
        minute: Minute,
    ) -> Result<(), AllocError>
        ensures { OnOk result (found.new.items ≡ found.old.items
            ++ option_to_list (option_map (AtSlot row.now.slot (reel_in front.now.reel))
            (front_fault self.now.alternates minute row.now front.now.reel))) }
    {
        if let Some(refusal) = front_fault(row, &front.reel, &self.alternates, minute) {
            found.push(Cause::AtSlot {
                slot: row.slot,
                reel: reel_of(front),
                refusal,
            })?;
        }
        Ok(())
    }

    fn add_holds<D: Desk>(
        &self,
        found: &mut Vec<Cause>,
        desk: &D,
        slot: &Id,
        front: Option<Id>,
    ) -> Result<(), AllocError>
        ensures { (S : Basis) (B : Book) → D.Stands desk.now S → KeepsSetup S.history B self.now
            → OnOk result (found.new.items
            ≡ found.old.items ++ held_causes S.history B slot.now front) }
    {
        let Some(reel) = front else {
            return Ok(());
        };
        add_hold(found, slot, reel, self.holds.on(&Stock::Reel(reel)))?;
        add_hold(found, slot, reel, self.lot_hold(desk, &reel))?;
        Ok(())
    }

    /// Returns the number of the hold of the reel's lot.
    fn lot_hold<D: Desk>(&self, desk: &D, reel: &Id) -> Option<u32>
        ensures { (S : Basis) (B : Book) → D.Stands desk.now S → KeepsSetup S.history B self.now
            → result ≡ lot_hold S.history B reel.now }
    {
        let view = desk.reel(reel)?;
        self.holds.on(&Stock::Lot(view.lot))
    }
}

fn reel_of(front: &Front) -> Option<Id>
    ensures { result ≡ reel_in front.now.reel }
{
    match &front.reel {
        Some(reel) => Some(reel.reel),
        None => None,
    }
}

fn add_hold(
    found: &mut Vec<Cause>,
    slot: &Id,
    reel: Id,
    hold: Option<u32>,
) -> Result<(), AllocError>
    ensures { OnOk result (found.new.items
        ≡ found.old.items ++ option_to_list (option_map (Held slot.now reel) hold)) }
{
    if let Some(number) = hold {
        found.push(Cause::Held {
            slot: *slot,
            reel,
            number,
        })?;
    }
    Ok(())
}

fn front_fault(
    row: &SheetRow,
    front: &Option<FrontReel>,
    alternates: &Alternates,
    at: Minute,
) -> Option<Refusal>
    ensures { result ≡ front_fault alternates.now at row.now front.now }
{
    match front {
        None => Some(Refusal::SlotEmpty(row.slot)),
        Some(reel) => reel_fault(row, reel, alternates, at),
    }
}

fn reel_fault(
    row: &SheetRow,
    reel: &FrontReel,
    alternates: &Alternates,
    at: Minute,
) -> Option<Refusal>
    ensures { result ≡ front_fault alternates.now at row.now (Some reel.now) }
{
    if !allowed(alternates, &row.part, &reel.part) {
        return Some(Refusal::WrongPart(row.slot));
    }
    match reel.life {
        Life::Unlimited => None,
        Life::Unbaked => Some(Refusal::NotBaked(row.slot)),
        Life::Until(end) if at.get() >= end => Some(Refusal::Expired(row.slot)),
        Life::Until(_) => None,
    }
}
