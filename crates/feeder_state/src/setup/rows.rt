//! The setup, made from rows.

ghost use Rattle.std.specs.Prelude.{◌≡◌, ◌==◌, ◌&&◌, if◌then◌else◌, IfOk, OnOk};
ghost use Rattle.std.specs.Option.{option_or};
ghost use Rattle.desk_types.specs.Id.{Name, same};
ghost use Rattle.desk_types.specs.History.{History};
ghost use Rattle.desk_types.specs.Setup.{sheet_of, is_alternate};
ghost use Rattle.desk_types.specs.View.{has_sheet};
ghost use Rattle.feeder_state.specs.Setup.{IsSetup, sheet_at, is_sheeted};
ghost use Rattle.feeder_state.specs.Sets.{is_name_at};
ghost use Rattle.feeder_state.specs.Restored.{AreRowsOf};

use super::{Setup, put_sheet};
use crate::sets::put_name;
use desk_types::{Bounded, Id, LONGEST_LIST, SheetRows};
use setup_sheets::Sheet;
use state_rows::RowSet;
use std::alloc::{AllocError, Global};
use std::collections::{BTreeMap, BTreeSet};

/// Returns the sheet of the product on the machine, made of its rows in turn.
fn sheet_rows(
    alloc: Global,
    rows: &RowSet,
    product: &Id,
    machine: &Id,
) -> Result<Option<SheetRows>, AllocError>
    ensures { (H : History) → AreRowsOf H rows.now
        → IfOk result (λ sheet. sheet ≡ sheet_of H product.now machine.now) }
{
    let mut items = Vec::new(alloc);
    for index in 0..LONGEST_LIST {
        let Some(row) = rows.sheet_row(product, machine, index as u64 + 1) else {
            return Ok(Bounded::new(items));
        };
        let copy = row.clone()?;
        items.push(copy)?;
    }
    Ok(Bounded::new(items))
}

/// Inserts the sheet whose row this is, if it is the first row.
fn put_first(
    alloc: Global,
    sheets: &mut BTreeMap<(Id, Id), Sheet>,
    rows: &RowSet,
    key: &(Id, Id, u64),
) -> Result<(), AllocError>
    ensures { (H : History) → AreRowsOf H rows.now → (p m : Name)
        → OnOk result
        (sheet_at sheets.new p m
        ≡ (if same p key.now.0 && same m key.now.1 && (1 == key.now.2)
        then option_or (sheet_of H p m) (sheet_at sheets.old p m) else sheet_at sheets.old p m)) }
{
    if key.2 != 1 {
        return Ok(());
    }
    if let Some(found) = sheet_rows(alloc, rows, &key.0, &key.1)? {
        put_sheet(sheets, key.0, key.1, Sheet::new(alloc, found)?)?;
    }
    Ok(())
}

/// The sheets of the rows.
pub fn sheets_of(alloc: Global, rows: &RowSet) -> Result<BTreeMap<(Id, Id), Sheet>, AllocError>
    ensures { (H : History) → AreRowsOf H rows.now → (p m : Name)
        → IfOk result (λ sheets. sheet_at sheets p m ≡ sheet_of H p m) }
{
    let mut sheets = BTreeMap::new(alloc);
    for (key, _) in rows.sheets() {
        put_first(alloc, &mut sheets, rows, key)?;
    }
    Ok(sheets)
}

/// Returns the machines with a sheet in the rows.
pub fn sheeted_of(alloc: Global, rows: &RowSet) -> Result<BTreeSet<Id>, AllocError>
    ensures { (H : History) → AreRowsOf H rows.now → (m : Name)
        → IfOk result (λ sheeted. is_sheeted sheeted m ≡ has_sheet H m) }
{
    let mut sheeted = BTreeSet::new(alloc);
    for (key, _) in rows.sheets() {
        sheeted.insert(key.1)?;
    }
    Ok(sheeted)
}

/// The alternates of each part, from the rows.
fn alternates_of(alloc: Global, rows: &RowSet) -> Result<BTreeMap<Id, BTreeSet<Id>>, AllocError>
    ensures { (H : History) → AreRowsOf H rows.now → (p q : Name)
        → IfOk result (λ alternates. is_name_at alternates p q ≡ is_alternate H p q) }
{
    let mut alternates = BTreeMap::new(alloc);
    for pair in rows.alternate_set().iter() {
        put_name(alloc, &mut alternates, &pair.0, pair.1)?;
    }
    Ok(alternates)
}

/// The setup of the rows.
pub fn setup_of(alloc: Global, rows: &RowSet) -> Result<Setup, AllocError>
    ensures { (H : History) → AreRowsOf H rows.now → IfOk result (IsSetup H) }
{
    let sheets = sheets_of(alloc, rows)?;
    let sheeted = sheeted_of(alloc, rows)?;
    let alternates = alternates_of(alloc, rows)?;
    Ok(Setup {
        sheets,
        sheeted,
        alternates,
    })
}
