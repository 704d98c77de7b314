//! Searches for a slot's row and a designator's slot.

ghost use Rattle.std.specs.Prelude.{◌≡◌};
ghost use Rattle.std.specs.Option.{option_copied};
ghost use Rattle.std.specs.List.{list_any};
ghost use Rattle.desk_types.specs.Id.{same};
ghost use Rattle.desk_types.specs.Setup.{row_in, slot_in};

use desk_types::{Designator, Id, SheetRow, SheetRows};

/// Returns the slot's first row. Takes no memory.
pub fn row_of<'a>(rows: &'a SheetRows, slot: &Id) -> Option<&'a SheetRow>
    ensures { option_copied result ≡ row_in rows.now slot.now }
{
    rows.as_slice().iter().find(|row| row.slot == *slot)
}

/// Returns the slot of the first row with the designator. Takes no memory.
pub fn slot_of(rows: &SheetRows, designator: &Designator) -> Option<Id>
    ensures { result ≡ slot_in rows.now designator.now }
{
    rows.as_slice()
        .iter()
        .find(|row| has_designator(row, designator))
        .map(|row| row.slot)
}

fn has_designator(row: &SheetRow, designator: &Designator) -> bool
    ensures { result ≡ list_any (same designator.now) row.now.designators }
{
    row.designators.as_slice().iter().any(|d| *designator == *d)
}
