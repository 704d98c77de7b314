//! The placements of one entry.

ghost use Rattle.std.specs.Prelude.{◌≡◌, ◌<◌, length, map, Some, IsTrue, IfOk};
ghost use Rattle.sqlite.specs.State.{HasCleanDisk};
ghost use Rattle.sqlite.specs.Held.{state};
ghost use Rattle.line_tables.specs.Calls.{Reads};
ghost use Rattle.line_tables.specs.StateRows.{placement_columns};
ghost use Rattle.line_tables.specs.Frames.{ReadsOnly};
ghost use Rattle.line_replay.specs.Audit.{ArePlaced, piece_of};
ghost use Rattle.line_replay.specs.Placed.{HasMoreBefore, IsRange};

use crate::placed_pieces::has_placement;
use crate::shown::is_row;
use desk_types::PlacementRow;
use line_tables::row_values::placement_values;
use line_tables::select::select;
use line_tables::values::int;
use sqlite::{Alter, Connection, Error, Row};

/// What a query for the placements of one entry found.
#[derive(Clone, Copy, Drop)]
pub struct FoundRows {
    /// Each row that was looked for is in the table.
    pub all: bool,
    /// The rowid that follows them, if it is known.
    pub end: Option<u64>,
}

/// Returns whether each of the rows, all of this number, is in the table. In our files rowids follow
/// from number and place, so one query shows them and all rows from the end of those before. Then it
/// also returns their end. In any other file no end is known, and each may have to be looked up.
pub fn has_placements<S: Alter>(
    conn: &mut Connection<S>,
    from: Option<u64>,
    entry: u64,
    rows: &[PlacementRow],
) -> Result<FoundRows, Error>
    requires some { 0 < length rows.now }
    ensures found { HasCleanDisk (state S.Store conn.new)
        → IfOk result (λ r. Reads (state S.Store conn.old)
        (λ db. ArePlaced db r.all (map piece_of rows.now)
        × HasMoreBefore from r.end (length rows.now) db)) }
    ensures reads { ReadsOnly S.Store conn.old conn.new }
{
    let end = entry.saturating_add(1).saturating_mul(65_536);
    match from {
        Some(first) => has_range(conn, first, end, rows),
        None => Ok(FoundRows {
            all: has_own(conn, entry, end, rows)?,
            end: None,
        }),
    }
}

/// Returns whether each of the rows is in the table. The end of those before is not known.
fn has_own<S: Alter>(
    conn: &mut Connection<S>,
    entry: u64,
    end: u64,
    rows: &[PlacementRow],
) -> Result<bool, Error>
    requires some { 0 < length rows.now }
    ensures found { HasCleanDisk (state S.Store conn.new)
        → IfOk result (λ all. Reads (state S.Store conn.old)
        (λ db. ArePlaced db all (map piece_of rows.now))) }
    ensures reads { ReadsOnly S.Store conn.old conn.new }
{
    let found = has_range(conn, entry.saturating_mul(65_536), end, rows)?;
    Ok(found.all)
}

fn has_range<S: Alter>(
    conn: &mut Connection<S>,
    first: u64,
    end: u64,
    rows: &[PlacementRow],
) -> Result<FoundRows, Error>
    requires some { 0 < length rows.now }
    ensures found { HasCleanDisk (state S.Store conn.new)
        → IfOk result (λ r. Reads (state S.Store conn.old)
        (λ db. ArePlaced db r.all (map piece_of rows.now)
        × HasMoreBefore (Some first) r.end (length rows.now) db)) }
    ensures reads { ReadsOnly S.Store conn.old conn.new }
{
    if are_in_a_row(conn, first, end, rows)? {
        return Ok(FoundRows {
            all: true,
            end: Some(end),
        });
    }
    Ok(FoundRows {
        all: has_each(conn, rows)?,
        end: None,
    })
}

/// Returns whether the rows with rowids from the first one up to the end are exactly these.
fn are_in_a_row<S: Alter>(
    conn: &mut Connection<S>,
    first: u64,
    end: u64,
    rows: &[PlacementRow],
) -> Result<bool, Error>
    ensures found { HasCleanDisk (state S.Store conn.new)
        → IfOk result (λ all. IsTrue all
        → Reads (state S.Store conn.old) (λ db. IsRange db first end rows.now)) }
    ensures reads { ReadsOnly S.Store conn.old conn.new }
{
    if end < first {
        return Ok(false);
    }
    let shown = select(
        conn,
        "SELECT number, place, board, designator, machine, slot, reel, overdue FROM placement WHERE rowid >= ?1 AND rowid < ?2",
        &[int(first)?, int(end)?],
    )?;
    are_rows(shown.as_slice(), rows)
}

fn are_rows(shown: &[Row], rows: &[PlacementRow]) -> Result<bool, Error>
    ensures { IfOk result (λ are. IsTrue are → shown.now ≡ map placement_columns rows.now) }
{
    if shown.len() != rows.len() {
        return Ok(false);
    }
    for at in 0..rows.len() {
        if !is_row(&shown[at], &placement_values(&rows[at])?.values) {
            return Ok(false);
        }
    }
    Ok(true)
}

fn has_each<S: Alter>(conn: &mut Connection<S>, rows: &[PlacementRow]) -> Result<bool, Error>
    requires some { 0 < length rows.now }
    ensures found { HasCleanDisk (state S.Store conn.new)
        → IfOk result (λ all. Reads (state S.Store conn.old)
        (λ db. ArePlaced db all (map piece_of rows.now))) }
    ensures reads { ReadsOnly S.Store conn.old conn.new }
{
    for row in rows {
        if !has_placement(conn, row)? {
            return Ok(false);
        }
    }
    Ok(true)
}
