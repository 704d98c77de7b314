//! The table `placement`.

ghost use Rattle.std.specs.Prelude.{IfOk};
ghost use Rattle.sqlite.specs.State.{HasCleanDisk};
ghost use Rattle.sqlite.specs.Held.{state};
ghost use Rattle.line_tables.specs.Line as line;
ghost use Rattle.line_tables.specs.StateRows.{placement_columns};
ghost use Rattle.line_tables.specs.Frames.{ReadsOnly};
ghost use Rattle.line_replay.specs.Alone.{FindsAlone};
ghost use Rattle.line_replay.specs.Placed.{has_placement};

use crate::shown::shows_only;
use desk_types::PlacementRow;
use line_tables::row_values::placement_values;
use line_tables::values::{designator, int, text};
use sqlite::{Alter, Connection, Error};

/// Returns whether the row is the only one of its board, designator, number and place. It is looked up by the index on
/// board and designator.
pub fn has_placement<S: Alter>(conn: &mut Connection<S>, row: &PlacementRow) -> Result<bool, Error>
    ensures found { HasCleanDisk (state S.Store conn.new)
        → IfOk result
        (FindsAlone line.placement (has_placement row.now) (placement_columns row.now)
        (state S.Store conn.old)) }
    ensures reads { ReadsOnly S.Store conn.old conn.new }
{
    shows_only(
        conn,
        "SELECT number, place, board, designator, machine, slot, reel, overdue FROM placement WHERE board = ?1 AND designator = ?2 AND number = ?3 AND place = ?4",
        &[
            text(&row.board),
            designator(&row.designator),
            int(row.number)?,
            int(row.place)?,
        ],
        &placement_values(row)?.values,
    )
}
