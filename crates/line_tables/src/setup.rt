//! Rows of the setup: parts, alternates, sheets and selected products.

ghost use Rattle.std.specs.Prelude.{OnOk};
ghost use Rattle.sqlite.specs.State.{HasCleanDisk};
ghost use Rattle.sqlite.specs.Held.{state};
ghost use Rattle.desk_types.specs.declared.edit.RowEdit.TheVariants as RowEdit;
ghost use Rattle.line_tables.specs.Calls.{WritesRow};
ghost use Rattle.line_tables.specs.Frames.{InTransaction};

use crate::statement::{change_or_put, run};
use crate::values::{designators_text, int, text};
use desk_types::{Id, SheetRow};
use sqlite::types::ValueRef;
use sqlite::{Alter, Error, Transaction};
use std::alloc::Global;

const DELETE_PART: &str = "DELETE FROM part WHERE part = ?1";

const INSERT_PART: &str = "INSERT INTO part VALUES (?1)";

const DELETE_ALTERNATE: &str = "DELETE FROM alternate WHERE part = ?1 AND alternate = ?2";

const INSERT_ALTERNATE: &str = "INSERT INTO alternate VALUES (?1, ?2)";

const DELETE_SHEET_ROW: &str =
    "DELETE FROM sheet_row WHERE product = ?1 AND machine = ?2 AND place = ?3";

const INSERT_SHEET_ROW: &str = "INSERT INTO sheet_row VALUES (?1, ?2, ?3, ?4, ?5, ?6)";

const UPDATE_SELECTED: &str = "UPDATE selected SET product = ?2 WHERE machine = ?1";

const INSERT_SELECTED: &str = "INSERT INTO selected VALUES (?1, ?2)";

/// Writes a part, in place of its old row.
pub fn put_part<S: Alter>(tx: &mut Transaction<'_, S>, part: &Id) -> Result<(), Error>
    ensures done { HasCleanDisk (state S.Store tx.new.conn.now)
        → OnOk result
        (WritesRow (RowEdit.PutPart part.now) (state S.Store tx.old.conn.now)
        (state S.Store tx.new.conn.now)) }
    ensures within { InTransaction S.Store tx.old tx.new }
{
    run(tx, DELETE_PART, &[text(part)])?;
    run(tx, INSERT_PART, &[text(part)])
}

/// Writes an alternate of a part, in place of its old row.
pub fn put_alternate<S: Alter>(
    tx: &mut Transaction<'_, S>,
    part: &Id,
    alternate: &Id,
) -> Result<(), Error>
    ensures done { HasCleanDisk (state S.Store tx.new.conn.now)
        → OnOk result
        (WritesRow (RowEdit.PutAlternate part.now alternate.now) (state S.Store tx.old.conn.now)
        (state S.Store tx.new.conn.now)) }
    ensures within { InTransaction S.Store tx.old tx.new }
{
    run(tx, DELETE_ALTERNATE, &[text(part), text(alternate)])?;
    run(tx, INSERT_ALTERNATE, &[text(part), text(alternate)])
}

/// Deletes the sheet's row at this place, if there is one.
pub fn take_sheet_row<S: Alter>(
    tx: &mut Transaction<'_, S>,
    product: &Id,
    machine: &Id,
    place: u64,
) -> Result<(), Error>
    ensures done { HasCleanDisk (state S.Store tx.new.conn.now)
        → OnOk result
        (WritesRow (RowEdit.TakeSheetRow product.now machine.now place)
        (state S.Store tx.old.conn.now)
        (state S.Store tx.new.conn.now)) }
    ensures within { InTransaction S.Store tx.old tx.new }
{
    run(
        tx,
        DELETE_SHEET_ROW,
        &[text(product), text(machine), int(place)?],
    )
}

/// Inserts a row of a sheet. Its key must be free. Designators are joined by single spaces.
pub fn put_sheet_row<'x, S: Alter>(
    alloc: Global,
    tx: &mut Transaction<'_, S>,
    product: &'x Id,
    machine: &'x Id,
    place: u64,
    row: &'x SheetRow,
) -> Result<(), Error>
    ensures done { HasCleanDisk (state S.Store tx.new.conn.now)
        → OnOk result
        (WritesRow (RowEdit.PutSheetRow product.now machine.now place row.now)
        (state S.Store tx.old.conn.now)
        (state S.Store tx.new.conn.now)) }
    ensures within { InTransaction S.Store tx.old tx.new }
{
    let designators = designators_text(alloc, row.designators.as_slice())?;
    run(
        tx,
        INSERT_SHEET_ROW,
        &[
            text(product),
            text(machine),
            int(place)?,
            text(&row.slot),
            text(&row.part),
            ValueRef::Text(designators.as_slice()),
        ],
    )
}

/// Writes the product that a machine makes, in place of the earlier one.
pub fn put_selected<S: Alter>(
    tx: &mut Transaction<'_, S>,
    machine: &Id,
    product: &Id,
) -> Result<(), Error>
    ensures done { HasCleanDisk (state S.Store tx.new.conn.now)
        → OnOk result
        (WritesRow (RowEdit.PutSelected machine.now product.now) (state S.Store tx.old.conn.now)
        (state S.Store tx.new.conn.now)) }
    ensures within { InTransaction S.Store tx.old tx.new }
{
    change_or_put(
        tx,
        UPDATE_SELECTED,
        INSERT_SELECTED,
        &[text(machine), text(product)],
    )
}
