//! A sheet with indexes by slot and by designator.

ghost use Rattle.std.specs.Prelude.{◌≡◌, Some, if◌then◌else◌, IfOk, OnOk};
ghost use Rattle.std.specs.Option.{option_copied};
ghost use Rattle.std.specs.List.{list_any};
ghost use Rattle.desk_types.specs.Id.{Name, same};
ghost use Rattle.desk_types.specs.Setup.{row_in, slot_in};
ghost use Rattle.setup_sheets.specs.LookUps.{slot_at, row_at};

use desk_types::{Designator, Id, SheetRow, SheetRows};
use std::alloc::{AllocError, Global};
use std::collections::BTreeMap;
use std::marker::Model;

/// The rows of a sheet, indexed by slot and by designator. Contracts see it as its rows in sheet
/// order.
#[derive(Drop)]
pub struct Sheet {
    rows: SheetRows,
    places: BTreeMap<Id, usize>,
    slots: BTreeMap<Designator, Id>,
}

impl Model for Sheet {
    ghost use Rattle.std.specs.Prelude.{List};
    ghost use Rattle.desk_types.specs.declared.sheet.SheetRow.{SheetRow};
    ghost use Rattle.setup_sheets.specs.LookUps.{AreLookUps};

    ghost Value = { List SheetRow };

    ghost view = { λ a. a.rows };

    ghost invariant = { λ a. AreLookUps a.rows a.places a.slots };
}

impl Sheet {
    /// Returns the sheet with these rows. Fails only if memory runs out.
    pub fn new(alloc: Global, rows: SheetRows) -> Result<Sheet, AllocError>
        // The indexes fit by the type's invariant, so contracts speak of the rows alone.
        ensures { IfOk result (λ sheet. sheet ≡ rows) }
    {
        let places = places_in(alloc, rows.as_slice())?;
        let slots = slots_in(alloc, rows.as_slice())?;
        Ok(Sheet {
            rows,
            places,
            slots,
        })
    }

    /// Returns the rows in sheet order.
    pub fn rows(&self) -> &SheetRows
        ensures { result.now ≡ self.now }
    {
        &self.rows
    }

    /// Returns the slot's first row. Takes no memory.
    pub fn row(&self, slot: &Id) -> Option<&SheetRow>
        // The index finds the same row as a search from the first row on.
        ensures { option_copied result ≡ row_in self.now slot.now }
    {
        let place = self.places.get(slot)?;
        self.rows.as_slice().get(*place)
    }

    /// Returns the slot of the first row with the designator. Takes no memory.
    pub fn slot(&self, designator: &Designator) -> Option<Id>
        ensures { result ≡ slot_in self.now designator.now }
    {
        match self.slots.get(designator) {
            Some(slot) => Some(*slot),
            None => None,
        }
    }
}

fn places_in(alloc: Global, rows: &[SheetRow]) -> Result<BTreeMap<Id, usize>, AllocError>
    ensures { (s : Name) → IfOk result (λ places. row_at rows.now places s ≡ row_in rows.now s) }
{
    let mut places = BTreeMap::new(alloc);
    for i in (0..rows.len()).rev() {
        places.insert(rows[i].slot, i)?;
    }
    Ok(places)
}

fn note_row(slots: &mut BTreeMap<Designator, Id>, row: &SheetRow) -> Result<(), AllocError>
    ensures { (d : Name)
        → OnOk result
        (slot_at slots.new d ≡ (if list_any
        (same d) row.now.designators then Some row.now.slot else slot_at slots.old d)) }
{
    for designator in row.designators.as_slice() {
        slots.insert(*designator, row.slot)?;
    }
    Ok(())
}

fn slots_in(alloc: Global, rows: &[SheetRow]) -> Result<BTreeMap<Designator, Id>, AllocError>
    ensures { (d : Name) → IfOk result (λ slots. slot_at slots d ≡ slot_in rows.now d) }
{
    let mut slots = BTreeMap::new(alloc);
    let mut rest = rows;
    while let Some((row, before)) = rest.split_last() {
        note_row(&mut slots, row)?;
        rest = before;
    }
    Ok(slots)
}
