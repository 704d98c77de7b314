//! The pieces of a board, of a lot, and of overdue reels.
//!
//! If the working state is loaded, its trace indexes locate the rows, and each row is checked. Otherwise, or if a row
//! differs, a query finds them.

ghost use Rattle.std.specs.Prelude.{IfOk, option_copied};
ghost use Rattle.sqlite.specs.State.{HasCleanDisk};
ghost use Rattle.sqlite.specs.Held.{state};
ghost use Rattle.desk_types.specs.Placements.{overdue_of};
ghost use Rattle.line_traces.specs.Pieces.{board_trace, lot_trace, lot_board_names};
ghost use Rattle.line_traces.specs.Working.{FindsOfBoth};
ghost use Rattle.line_tables.specs.Frames.{ReadsOnly, IsRefusedInside};

use crate::by_lists::{boards_of_lot, pieces_of_board, pieces_of_lot, pieces_overdue};
use crate::pieces::{has_board, has_lot};
use crate::row::PlacedRows;
use crate::working::Working;
use desk_types::{Desk, Id, IdList};
use sqlite::{Alter, Connection, Error};
use std::alloc::Global;

/// Returns the pieces on a board by number, then place, or `None` if no entry started the board.
pub fn board_rows<S: Alter, D: Desk>(
    alloc: Global,
    conn: &mut Connection<S>,
    working: Option<&Working<D>>,
    board: &Id,
) -> Result<Option<PlacedRows>, Error>
    // A started board without pieces has an empty trace, and not `None`.
    ensures trace { HasCleanDisk (state S.Store conn.new)
        → IfOk result
        (FindsOfBoth D.Stands (option_copied working.entry)
        (λ H. board_trace H board.now)
        (state S.Store conn.old)) }
    ensures reads { ReadsOnly S.Store conn.old conn.new }
    ensures inside { IsRefusedInside result conn.old conn.new }
{
    if !has_board(conn, board)? {
        return Ok(None);
    }
    Ok(Some(pieces_of_board(alloc, conn, working, board)?))
}

/// Returns the pieces of a lot by number, then place, or `None` if no entry received a reel of the lot.
pub fn lot_rows<S: Alter, D: Desk>(
    alloc: Global,
    conn: &mut Connection<S>,
    working: Option<&Working<D>>,
    lot: &Id,
) -> Result<Option<PlacedRows>, Error>
    ensures trace { HasCleanDisk (state S.Store conn.new)
        → IfOk result
        (FindsOfBoth D.Stands (option_copied working.entry)
        (λ H. lot_trace H lot.now)
        (state S.Store conn.old)) }
    ensures reads { ReadsOnly S.Store conn.old conn.new }
    ensures inside { IsRefusedInside result conn.old conn.new }
{
    if !has_lot(conn, lot)? {
        return Ok(None);
    }
    Ok(Some(pieces_of_lot(alloc, conn, working, lot)?))
}

/// Returns the pieces of reels whose floor life was used up, by number, then place.
pub fn overdue_rows<S: Alter, D: Desk>(
    alloc: Global,
    conn: &mut Connection<S>,
    working: Option<&Working<D>>,
) -> Result<PlacedRows, Error>
    ensures rows { HasCleanDisk (state S.Store conn.new)
        → IfOk result
        (FindsOfBoth D.Stands (option_copied working.entry) overdue_of
        (state S.Store conn.old)) }
    ensures reads { ReadsOnly S.Store conn.old conn.new }
    ensures inside { IsRefusedInside result conn.old conn.new }
{
    pieces_overdue(alloc, conn, working)
}

/// Returns the boards that hold a piece of a lot, each once and in byte order, or `None` if no entry received a reel of
/// the lot.
pub fn lot_boards<S: Alter, D: Desk>(
    alloc: Global,
    conn: &mut Connection<S>,
    working: Option<&Working<D>>,
    lot: &Id,
) -> Result<Option<IdList>, Error>
    ensures boards { HasCleanDisk (state S.Store conn.new)
        → IfOk result
        (FindsOfBoth D.Stands (option_copied working.entry)
        (λ H. lot_board_names H lot.now)
        (state S.Store conn.old)) }
    ensures reads { ReadsOnly S.Store conn.old conn.new }
    ensures inside { IsRefusedInside result conn.old conn.new }
{
    if !has_lot(conn, lot)? {
        return Ok(None);
    }
    Ok(Some(boards_of_lot(alloc, conn, working, lot)?))
}
