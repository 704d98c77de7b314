//! The audit of all state tables.

ghost use Rattle.std.specs.Prelude.{◌<◌, ℕ, Option, IfOk, length};
ghost use Rattle.sqlite.specs.State.{HasCleanDisk};
ghost use Rattle.sqlite.specs.Held.{state};
ghost use Rattle.desk_types.specs.declared.row.PlacementRow.{PlacementRow};
ghost use Rattle.state_rows.specs.Kept.{tables_in};
ghost use Rattle.line_tables.specs.Calls.{Reads};
ghost use Rattle.line_tables.specs.Frames.{ReadsOnly};
ghost use Rattle.line_replay.specs.Alone.{Decides};
ghost use Rattle.line_replay.specs.Audit.{Pieces, IsExpected, HasPlacements, HoldsTable, IsVerdict, state_tables, with_placements};

use crate::compared::are_rows;
use crate::ends::count_placements;
use crate::table::StateTable;
use desk_types::Rules;
use sqlite::{Alter, Connection, Error};
use state_rows::RowSet;
use std::alloc::Global;

/// The result of looking up the expected placements.
#[derive(Clone, Copy)]
pub struct Placed {
    /// Whether each was found.
    pub all: bool,
    pub count: u64,
    /// The rowid before which they are, and no other rows from rowid 0 on, if it is known.
    pub end: Option<u64>,
}

/// The order of an audit. Rules One lack the last table, that of found pieces.
const STATE_TABLES: [StateTable; 9] = [
    StateTable::Part,
    StateTable::Alternate,
    StateTable::SheetRow,
    StateTable::Selected,
    StateTable::Reel,
    StateTable::Mount,
    StateTable::Board,
    StateTable::Placement,
    StateTable::Found,
];

/// Returns the first table, among those of the rules, whose rows are not those of the set. Placements are compared with
/// those given, and not with those of the set.
pub fn audit<S: Alter>(
    alloc: Global,
    conn: &mut Connection<S>,
    rules: Rules,
    rows: &RowSet,
    placed: Placed,
) -> Result<Option<StateTable>, Error>
    // Of several tables that differ, the first in the order of `state_tables` is the verdict.
    ensures verdict { HasCleanDisk (state S.Store conn.new)
        → IfOk result (λ verdict. (f : ℕ × ℕ → Option PlacementRow) → (es : Pieces)
        → IsExpected (state S.Store conn.old) placed es f
        → Reads (state S.Store conn.old)
        (λ db. IsVerdict (state_tables rules) db
        (with_placements f (tables_in rows.now)) verdict)) }
    ensures reads { ReadsOnly S.Store conn.old conn.new }
{
    match rules {
        Rules::One => audit_tables(alloc, conn, rows, placed, &STATE_TABLES[..8]),
        Rules::Two => audit_tables(alloc, conn, rows, placed, &STATE_TABLES),
    }
}

fn audit_tables<S: Alter>(
    alloc: Global,
    conn: &mut Connection<S>,
    rows: &RowSet,
    placed: Placed,
    tables: &[StateTable],
) -> Result<Option<StateTable>, Error>
    requires some { 0 < length tables.now }
    ensures verdict { HasCleanDisk (state S.Store conn.new)
        → IfOk result (λ verdict. (f : ℕ × ℕ → Option PlacementRow) → (es : Pieces)
        → IsExpected (state S.Store conn.old) placed es f
        → Reads (state S.Store conn.old)
        (λ db. IsVerdict tables.now db (with_placements f (tables_in rows.now)) verdict)) }
    ensures reads { ReadsOnly S.Store conn.old conn.new }
{
    for table in tables {
        if !is_same(alloc, conn, rows, placed, *table)? {
            return Ok(Some(*table));
        }
    }
    Ok(None)
}

fn is_same<S: Alter>(
    alloc: Global,
    conn: &mut Connection<S>,
    rows: &RowSet,
    placed: Placed,
    table: StateTable,
) -> Result<bool, Error>
    ensures same { HasCleanDisk (state S.Store conn.new)
        → IfOk result (λ b. (f : ℕ × ℕ → Option PlacementRow) → (es : Pieces)
        → IsExpected (state S.Store conn.old) placed es f
        → Decides (λ db. HoldsTable db (with_placements f (tables_in rows.now)) table)
        (state S.Store conn.old) b) }
    ensures reads { ReadsOnly S.Store conn.old conn.new }
{
    match table {
        StateTable::Part => are_rows(alloc, conn, table, rows.parts()),
        StateTable::Alternate => are_rows(alloc, conn, table, rows.alternates()),
        StateTable::SheetRow => are_rows(alloc, conn, table, rows.sheets()),
        StateTable::Selected => are_rows(alloc, conn, table, rows.selected()),
        StateTable::Reel => are_rows(alloc, conn, table, rows.reels()),
        StateTable::Mount => are_rows(alloc, conn, table, rows.mounts()),
        StateTable::Board => are_rows(alloc, conn, table, rows.boards()),
        StateTable::Placement => are_placements(conn, placed),
        StateTable::Found => are_rows(alloc, conn, table, rows.found()),
    }
}

/// Returns whether `placement` has the expected rows: each was found, and their number is right.
fn are_placements<S: Alter>(conn: &mut Connection<S>, placed: Placed) -> Result<bool, Error>
    ensures same { HasCleanDisk (state S.Store conn.new)
        → IfOk result (λ b. (f : ℕ × ℕ → Option PlacementRow) → (es : Pieces)
        → IsExpected (state S.Store conn.old) placed es f
        → Decides (λ db. HasPlacements db f) (state S.Store conn.old) b) }
    ensures reads { ReadsOnly S.Store conn.old conn.new }
{
    let count = count_placements(conn, placed)?;
    Ok(placed.all && count == placed.count)
}
