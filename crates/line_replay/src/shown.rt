//! Queries that look up one row, and that count rows.

ghost use Rattle.std.specs.Prelude.{◌≡◌, ◌↔◌, ◌++◌, codes, [], ◌∷◌, IsTrue, IfOk};
ghost use Rattle.sqlite.specs.State.{HasCleanDisk};
ghost use Rattle.sqlite.specs.Values.{bound};
ghost use Rattle.sqlite.specs.Held.{state};
ghost use Rattle.line_replay.specs.Alone.{ShowsOnly, Counts};
ghost use Rattle.line_replay.specs.TableNames.{name_of, table_of};
ghost use Rattle.line_tables.specs.StateRows.{values_of};
ghost use Rattle.line_tables.specs.Frames.{ReadsOnly};

use crate::table::StateTable;
use line_tables::count_of;
use line_tables::select::select;
use sqlite::types::ValueRef;
use sqlite::{Alter, Connection, Error, Row};
use sqlite_value::order::is_same;

/// Returns whether the query shows exactly one row, with these values.
pub fn shows_only<S: Alter>(
    conn: &mut Connection<S>,
    sql: &str,
    key: &[ValueRef<'_>],
    wanted: &[ValueRef<'_>],
) -> Result<bool, Error>
    ensures shown { HasCleanDisk (state S.Store conn.new)
        → IfOk result (ShowsOnly S.Store sql.now (bound key.now) conn.old (values_of wanted.now)) }
    ensures reads { ReadsOnly S.Store conn.old conn.new }
{
    let rows = select(conn, sql, key)?;
    Ok(is_only(rows.as_slice(), wanted))
}

fn is_only(rows: &[Row], wanted: &[ValueRef<'_>]) -> bool
    ensures { IsTrue result ↔ (rows.now ≡ values_of wanted.now ∷ []) }
{
    match rows {
        [row] => is_row(row, wanted),
        _ => false,
    }
}

/// Returns whether the row has exactly these values.
pub fn is_row(row: &Row, wanted: &[ValueRef<'_>]) -> bool
    ensures { IsTrue result ↔ (row.now ≡ values_of wanted.now) }
{
    if row.column_count() != wanted.len() {
        return false;
    }
    for at in 0..wanted.len() {
        match row.get_ref(at) {
            Ok(value) => {
                if !is_same(value, wanted[at]) {
                    return false;
                }
            }
            Err(_) => return false,
        }
    }
    true
}

/// Returns the number of rows of the table.
pub fn count<S: Alter>(conn: &mut Connection<S>, table: StateTable) -> Result<u64, Error>
    ensures counted { HasCleanDisk (state S.Store conn.new)
        → IfOk result (Counts (table_of table) (state S.Store conn.old)) }
    ensures reads { ReadsOnly S.Store conn.old conn.new }
{
    let rows = select(conn, count_text(table), &[])?;
    count_of(rows.as_slice())
}

fn count_text(table: StateTable) -> &'static str
    ensures { result.now ≡ codes "SELECT count(*) FROM " ++ name_of table }
{
    match table {
        StateTable::Part => "SELECT count(*) FROM part",
        StateTable::Alternate => "SELECT count(*) FROM alternate",
        StateTable::SheetRow => "SELECT count(*) FROM sheet_row",
        StateTable::Selected => "SELECT count(*) FROM selected",
        StateTable::Reel => "SELECT count(*) FROM reel",
        StateTable::Mount => "SELECT count(*) FROM mount",
        StateTable::Board => "SELECT count(*) FROM board",
        StateTable::Placement => "SELECT count(*) FROM placement",
        StateTable::Found => "SELECT count(*) FROM found",
    }
}
