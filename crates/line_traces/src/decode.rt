//! Rows of values as rows of pieces.

ghost use Rattle.std.specs.Prelude.{◌≡◌, ◌≢◌, ℕ, ◌<◌, ◌≤◌, length, Bool, List, IfOk, IfErr, map, pos};
ghost use Rattle.sqlite.specs.declared.types.Value.TheVariants.{Int, Text};
ghost use Rattle.sqlite_value.specs.Order.{column};
ghost use Rattle.desk_types.specs.Designator.{IsDesignator};
ghost use Rattle.desk_types.specs.Id.{IsId};
ghost use Rattle.desk_types.specs.Number.{IsMinute};
ghost use Rattle.line_tables.specs.Faults.{OnlyWhere};
ghost use Rattle.line_tables.specs.StateRows.{flag, placement_columns};
ghost use Rattle.desk_types.specs.declared.placement.Placement.{Placement};
ghost use Rattle.desk_types.specs.declared.row.PlacementRow.{PlacementRow};
ghost use Rattle.line_traces.specs.Committed.{placed_columns, name_row, IsPiece, IsPieceRow};

use crate::row::PlacedRows;
use desk_types::{Designator, Id, IdList, Listing, Minute, Placement, PlacementRow};
use sqlite::types::{Type, ValueRef};
use sqlite::{Error, Row};
use std::alloc::Global;

fn name(row: &Row, at: usize) -> Result<Id, Error>
    ensures ok { IfOk result (λ id. column row.now at ≡ Text id) }
    ensures err { IfErr result (λ _. (id : List ℕ) → IsId id → column row.now at ≢ Text id) }
{
    let value = row.get_ref(at)?;
    if let ValueRef::Text(bytes) = value {
        if let Some(id) = Id::read(bytes) {
            return Ok(id);
        }
    }
    Err(Error::InvalidColumnType(at, Type::of(value)))
}

fn designator(row: &Row, at: usize) -> Result<Designator, Error>
    ensures ok { IfOk result (λ designator. column row.now at ≡ Text designator) }
    ensures err { IfErr result (λ _. (designator : List ℕ) → IsDesignator designator
        → column row.now at ≢ Text designator) }
{
    let value = row.get_ref(at)?;
    if let ValueRef::Text(bytes) = value {
        if let Some(designator) = Designator::read(bytes) {
            return Ok(designator);
        }
    }
    Err(Error::InvalidColumnType(at, Type::of(value)))
}

fn minute(row: &Row, at: usize) -> Result<Minute, Error>
    ensures ok { IfOk result (λ minute. column row.now at ≡ Int (pos minute)) }
    ensures err { IfErr result
        (OnlyWhere ((minute : ℕ) → IsMinute minute → column row.now at ≢ Int (pos minute))) }
{
    match Minute::new(row.get(at)?) {
        Some(minute) => Ok(minute),
        None => Err(Error::IntegralValueOutOfRange(at)),
    }
}

fn yes_or_no(row: &Row, at: usize) -> Result<bool, Error>
    ensures ok { IfOk result (λ b. column row.now at ≡ Int (flag b)) }
    ensures err { IfErr result (OnlyWhere ((b : Bool) → column row.now at ≢ Int (flag b))) }
{
    let n: u64 = row.get(at)?;
    match n {
        0 => Ok(false),
        1 => Ok(true),
        _ => Err(Error::IntegralValueOutOfRange(at)),
    }
}

fn piece(row: &Row) -> Result<Placement, Error>
    ensures ok { IfOk result (λ piece. row.now ≡ placed_columns piece) }
    // So a piece of a history is refused only for lack of memory.
    ensures err { IfErr result
        (OnlyWhere ((piece : Placement) → IsPiece piece → row.now ≢ placed_columns piece)) }
{
    if row.column_count() != 11 {
        return Err(Error::InvalidColumnIndex(11));
    }
    Ok(Placement {
        number: row.get(0)?,
        place: row.get(1)?,
        board: name(row, 2)?,
        designator: designator(row, 3)?,
        part: name(row, 4)?,
        lot: name(row, 5)?,
        reel: name(row, 6)?,
        machine: name(row, 7)?,
        slot: name(row, 8)?,
        effective: minute(row, 9)?,
        overdue: yes_or_no(row, 10)?,
    })
}

/// Returns the pieces of these rows, in their order. A value that is no name, number, minute or flag is an error, and
/// so is a row of another length.
pub fn pieces(alloc: Global, rows: &[Row]) -> Result<PlacedRows, Error>
    ensures { IfOk result (λ pieces. rows.now ≡ map placed_columns pieces) }
{
    let mut pieces = Vec::new(alloc);
    for row in rows {
        pieces.push(piece(row)?)?;
    }
    Ok(Listing::new(pieces))
}

/// Returns the row of `placement`. A value that is no name, number or flag is an error, and so is a row of another
/// length.
#[tactic(auto, using(crate::proofs::Columns::no_flag_in_row))]
pub fn placement(row: &Row) -> Result<PlacementRow, Error>
    ensures ok { IfOk result (λ placed. row.now ≡ placement_columns placed) }
    ensures err { IfErr result (OnlyWhere ((placed : PlacementRow) → IsPieceRow placed
        → row.now ≢ placement_columns placed)) }
{
    if row.column_count() != 8 {
        return Err(Error::InvalidColumnIndex(8));
    }
    Ok(PlacementRow {
        number: row.get(0)?,
        place: row.get(1)?,
        board: name(row, 2)?,
        designator: designator(row, 3)?,
        machine: name(row, 4)?,
        slot: name(row, 5)?,
        reel: name(row, 6)?,
        overdue: yes_or_no(row, 7)?,
    })
}

fn only_name(row: &Row) -> Result<Id, Error>
    ensures ok { IfOk result (λ id. row.now ≡ name_row id) }
    ensures err { IfErr result (λ _. (id : List ℕ) → IsId id → row.now ≢ name_row id) }
{
    if row.column_count() != 1 {
        return Err(Error::InvalidColumnIndex(1));
    }
    name(row, 0)
}

/// Returns the names of these rows, in their order. A value that is no name is an error, and so is a row of another
/// length.
pub fn names(alloc: Global, rows: &[Row]) -> Result<IdList, Error>
    ensures { IfOk result (λ names. rows.now ≡ map name_row names) }
{
    let mut names = Vec::new(alloc);
    for row in rows {
        names.push(only_name(row)?)?;
    }
    Ok(Listing::new(names))
}
