//! Rows of placements, and of pieces found by counts.

ghost use Rattle.std.specs.Prelude.{◌≡◌, ◌≤◌, ◌⊎◌, ◌^◌, OnOk, ◌++◌, IfOk, IfErr, IfSome, List, map, length};
ghost use Rattle.std.specs.List.{flat_map};
ghost use Rattle.sqlite.specs.State.{HasCleanDisk};
ghost use Rattle.sqlite.specs.Held.{state};
ghost use Rattle.desk_types.specs.declared.edit.RowEdit.TheVariants as RowEdit;
ghost use Rattle.desk_types.specs.declared.row.PlacementRow.{PlacementRow};
ghost use Rattle.sqlite.specs.Values.{bound};
ghost use Rattle.line_tables.specs.Edit.{row_edits};
ghost use Rattle.line_tables.specs.Rowids.{placement_id};
ghost use Rattle.line_tables.specs.Placing.{placement_edit, placement_kept, ArePlacing};
ghost use Rattle.line_tables.specs.Calls.{Writes, WritesRow};
ghost use Rattle.line_tables.specs.Faults.{OnlyWhere};
ghost use Rattle.line_tables.specs.Frames.{InTransaction};

use crate::row_values::placement_values;
use crate::statement::{change_or_put, run};
use crate::values::{int, placement_id, text};
use desk_types::{Id, PlacementRow, RowEdit};
use sqlite::types::ValueRef;
use sqlite::{Alter, Error, Transaction};
use std::alloc::Global;

const INSERT_PLACEMENT: &str =
    "INSERT INTO placement (rowid, number, place, board, designator, machine, slot, reel, overdue) VALUES (?1, ?2, ?3, ?4, ?5, ?6, ?7, ?8, ?9)";

const INSERT_PLACEMENTS: &str =
    "INSERT INTO placement (rowid, number, place, board, designator, machine, slot, reel, overdue) VALUES (?, ?, ?, ?, ?, ?, ?, ?, ?), (?, ?, ?, ?, ?, ?, ?, ?, ?), (?, ?, ?, ?, ?, ?, ?, ?, ?), (?, ?, ?, ?, ?, ?, ?, ?, ?), (?, ?, ?, ?, ?, ?, ?, ?, ?), (?, ?, ?, ?, ?, ?, ?, ?, ?), (?, ?, ?, ?, ?, ?, ?, ?, ?), (?, ?, ?, ?, ?, ?, ?, ?, ?)";

const UPDATE_FOUND: &str = "UPDATE found SET pieces = ?2 WHERE reel = ?1";

const INSERT_FOUND: &str = "INSERT INTO found VALUES (?1, ?2)";

/// Inserts a placed piece. Its number and place, and its board and designator, must be free, and its reel must have a
/// row.
pub fn put_placement<S: Alter>(
    alloc: Global,
    tx: &mut Transaction<'_, S>,
    row: &PlacementRow,
) -> Result<(), Error>
    ensures done { HasCleanDisk (state S.Store tx.new.conn.now)
        → OnOk result
        (WritesRow (RowEdit.PutPlacement row.now) (state S.Store tx.old.conn.now)
        (state S.Store tx.new.conn.now)) }
    ensures within { InTransaction S.Store tx.old tx.new }
{
    let mut values = Vec::new(alloc);
    add_values(&mut values, row)?;
    run(tx, INSERT_PLACEMENT, values.as_slice())
}

/// Inserts eight placed pieces by one statement, which takes half the time of eight. The values are those of their
/// rows, one row after another.
pub fn put_eight<S: Alter>(
    tx: &mut Transaction<'_, S>,
    values: &[ValueRef<'_>],
) -> Result<(), Error>
    ensures done { HasCleanDisk (state S.Store tx.new.conn.now)
        → OnOk result ((rows : List PlacementRow) → length rows ≡ 8
        → bound values.now ≡ flat_map placement_kept rows
        → Writes (map placement_edit rows) (state S.Store tx.old.conn.now)
        (state S.Store tx.new.conn.now)) }
    ensures within { InTransaction S.Store tx.old tx.new }
{
    run(tx, INSERT_PLACEMENTS, values)
}

/// Returns the values of the edits' rows, if each of them puts a placement.
pub fn values_of_all<'a>(
    alloc: Global,
    edits: &'a [RowEdit],
) -> Result<Option<Vec<ValueRef<'a>>>, Error>
    ensures { IfOk result
        (λ found. IfSome found (λ values. ArePlacing (row_edits edits.now) (bound values.items))) }
{
    let mut values = Vec::new(alloc);
    for edit in edits {
        let RowEdit::PutPlacement(row) = edit else {
            return Ok(None);
        };
        add_values(&mut values, row)?;
    }
    Ok(Some(values))
}

/// Adds the values of a row, its rowid first.
fn add_values<'a>(values: &mut Vec<ValueRef<'a>>, row: &'a PlacementRow) -> Result<(), Error>
    ensures ok { OnOk result
        (bound values.new.items ≡ bound values.old.items ++ placement_kept row.now) }
    ensures err { IfErr result (OnlyWhere ((2 ^ 63 ≤ placement_id row.now.number row.now.place)
        ⊎ (2 ^ 63 ≤ row.now.number) ⊎ (2 ^ 63 ≤ row.now.place))) }
{
    values.reserve(9)?;
    values.push(placement_id(row.number, row.place)?)?;
    values.extend_from_slice(&placement_values(row)?.values)?;
    Ok(())
}

/// Writes the number of pieces found on a reel, in place of the earlier number. It is never refused.
pub fn put_found<S: Alter>(tx: &mut Transaction<'_, S>, reel: &Id, pieces: u64) -> Result<(), Error>
    ensures done { HasCleanDisk (state S.Store tx.new.conn.now)
        → OnOk result
        (WritesRow (RowEdit.PutFound reel.now pieces) (state S.Store tx.old.conn.now)
        (state S.Store tx.new.conn.now)) }
    ensures within { InTransaction S.Store tx.old tx.new }
{
    change_or_put(tx, UPDATE_FOUND, INSERT_FOUND, &[text(reel), int(pieces)?])
}
