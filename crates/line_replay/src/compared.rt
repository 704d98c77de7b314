//! The comparison of a table with a set.

ghost use Rattle.std.specs.Prelude.{◌≡◌, IfOk};
ghost use Rattle.std.specs.Iterator.{IsFinite};
ghost use Rattle.sqlite.specs.State.{HasCleanDisk};
ghost use Rattle.sqlite.specs.Held.{state};
ghost use Rattle.line_replay.specs.Alone.{DecidesRows};
ghost use Rattle.line_replay.specs.TableNames.{table_of};
ghost use Rattle.line_tables.specs.Frames.{ReadsOnly};

use crate::expected::ExpectedRow;
use crate::shown::count;
use crate::table::StateTable;
use sqlite::{Alter, Connection, Error};
use std::alloc::Global;

/// Returns whether the table has exactly the expected rows.
pub fn are_rows<E: ExpectedRow, I: Iterator<Item = E>, S: Alter>(
    alloc: Global,
    conn: &mut Connection<S>,
    table: StateTable,
    rows: I,
) -> Result<bool, Error>
    requires theirs { table ≡ E.table }
    requires can { I.can_next rows }
    requires ends { IsFinite (I.remaining rows) }
    // As many rows as expected, each the only one of its key: so the table has no others.
    ensures same { HasCleanDisk (state S.Store conn.new)
        → IfOk result
        (DecidesRows I.next_gives E.entry rows (table_of table) E.has E.columns
        (state S.Store conn.old)) }
    ensures reads { ReadsOnly S.Store conn.old conn.new }
{
    let mut left = count(conn, table)?;
    for row in rows {
        if left == 0 {
            return Ok(false);
        }
        if !row.is_alone(alloc, conn)? {
            return Ok(false);
        }
        left -= 1;
    }
    Ok(left == 0)
}
