//! Placements by their rowids.

ghost use Rattle.std.specs.Prelude.{IfOk};
ghost use Rattle.sqlite.specs.State.{HasCleanDisk};
ghost use Rattle.sqlite.specs.Held.{state};
ghost use Rattle.line_tables.specs.Line as line;
ghost use Rattle.line_tables.specs.Calls.{Reads};
ghost use Rattle.line_tables.specs.Shown.{AreOf};
ghost use Rattle.line_tables.specs.Frames.{ReadsOnly, IsRefusedInside};

use crate::select::select;
use sqlite::types::ValueRef;
use sqlite::{Alter, Connection, Error, Row};

/// Returns the rows of `placement` with rowids in this inclusive range, in order of rowid. In our files a rowid follows
/// from number and place. In any other file it may belong to another piece, so callers check each row.
pub fn placements_between<S: Alter>(
    conn: &mut Connection<S>,
    first: i64,
    last: i64,
) -> Result<Vec<Row>, Error>
    // Promises no order, and not that all rows are there: callers compare each with its key.
    ensures shown { HasCleanDisk (state S.Store conn.new)
        → IfOk result (λ rows. Reads (state S.Store conn.old) (AreOf line.placement rows.items)) }
    ensures reads { ReadsOnly S.Store conn.old conn.new }
    ensures inside { IsRefusedInside result conn.old conn.new }
{
    select(
        conn,
        "SELECT number, place, board, designator, machine, slot, reel, overdue FROM placement WHERE rowid >= ?1 AND rowid <= ?2",
        &[ValueRef::Int(first), ValueRef::Int(last)],
    )
}
