//! The queries. They use neither indexes nor a desk.

ghost use Rattle.std.specs.Prelude.{IfOk};
ghost use Rattle.sqlite.specs.State.{HasCleanDisk};
ghost use Rattle.sqlite.specs.Held.{state};
ghost use Rattle.desk_types.specs.Placements.{overdue_of, boards_of, placements_of};
ghost use Rattle.line_traces.specs.Pieces.{pieces_on, pieces_of_lot, is_board, is_lot};
ghost use Rattle.line_traces.specs.Committed.{FindsOfList};
ghost use Rattle.line_tables.specs.Frames.{ReadsOnly, IsRefusedInside};

use crate::decode::{names, pieces};
use crate::row::PlacedRows;
use desk_types::{Id, IdList};
use line_tables::select::select;
use sqlite::types::ValueRef;
use sqlite::{Alter, Connection, Error};
use std::alloc::Global;

/// Returns whether the board was started.
pub fn has_board<S: Alter>(conn: &mut Connection<S>, board: &Id) -> Result<bool, Error>
    // A board that was ever started counts, also when its work is completed.
    ensures found { HasCleanDisk (state S.Store conn.new)
        → IfOk result (FindsOfList (λ H. is_board H board.now) (state S.Store conn.old)) }
    ensures reads { ReadsOnly S.Store conn.old conn.new }
    ensures inside { IsRefusedInside result conn.old conn.new }
{
    let rows = select(
        conn,
        "SELECT board FROM board WHERE board = ?1",
        &[ValueRef::Text(board.as_bytes())],
    )?;
    Ok(!rows.is_empty())
}

/// Returns whether a reel of the lot was received. It looks at every reel.
pub fn has_lot<S: Alter>(conn: &mut Connection<S>, lot: &Id) -> Result<bool, Error>
    // A lot counts as soon as one of its reels was received, even if no piece is placed.
    ensures found { HasCleanDisk (state S.Store conn.new)
        → IfOk result (FindsOfList (λ H. is_lot H lot.now) (state S.Store conn.old)) }
    ensures reads { ReadsOnly S.Store conn.old conn.new }
    ensures inside { IsRefusedInside result conn.old conn.new }
{
    let rows = select(
        conn,
        "SELECT reel FROM reel WHERE lot = ?1",
        &[ValueRef::Text(lot.as_bytes())],
    )?;
    Ok(!rows.is_empty())
}

/// Returns the pieces on the board by number, then place.
pub fn board_pieces<S: Alter>(
    alloc: Global,
    conn: &mut Connection<S>,
    board: &Id,
) -> Result<PlacedRows, Error>
    ensures pieces { HasCleanDisk (state S.Store conn.new)
        → IfOk result (FindsOfList (λ H. pieces_on H board.now) (state S.Store conn.old)) }
    ensures reads { ReadsOnly S.Store conn.old conn.new }
    ensures inside { IsRefusedInside result conn.old conn.new }
{
    let rows = select(
        conn,
        "SELECT p.number, p.place, p.board, p.designator, r.part, r.lot, p.reel, p.machine, p.slot, a.effective, p.overdue FROM reel r JOIN placement p ON r.reel = p.reel JOIN accepted a ON a.number = p.number WHERE p.board = ?1 ORDER BY p.number, p.place",
        &[ValueRef::Text(board.as_bytes())],
    )?;
    pieces(alloc, rows.as_slice())
}

/// Returns the pieces of the lot by number, then place.
pub fn lot_pieces<S: Alter>(
    alloc: Global,
    conn: &mut Connection<S>,
    lot: &Id,
) -> Result<PlacedRows, Error>
    ensures pieces { HasCleanDisk (state S.Store conn.new)
        → IfOk result (FindsOfList (λ H. pieces_of_lot H lot.now) (state S.Store conn.old)) }
    ensures reads { ReadsOnly S.Store conn.old conn.new }
    ensures inside { IsRefusedInside result conn.old conn.new }
{
    let rows = select(
        conn,
        "SELECT p.number, p.place, p.board, p.designator, r.part, r.lot, p.reel, p.machine, p.slot, a.effective, p.overdue FROM reel r JOIN placement p ON r.reel = p.reel JOIN accepted a ON a.number = p.number WHERE r.lot = ?1 ORDER BY p.number, p.place",
        &[ValueRef::Text(lot.as_bytes())],
    )?;
    pieces(alloc, rows.as_slice())
}

/// Returns all pieces by number, then place.
pub fn placed_rows<S: Alter>(alloc: Global, conn: &mut Connection<S>) -> Result<PlacedRows, Error>
    ensures pieces { HasCleanDisk (state S.Store conn.new)
        → IfOk result (FindsOfList placements_of (state S.Store conn.old)) }
    ensures reads { ReadsOnly S.Store conn.old conn.new }
    ensures inside { IsRefusedInside result conn.old conn.new }
{
    let rows = select(
        conn,
        "SELECT p.number, p.place, p.board, p.designator, r.part, r.lot, p.reel, p.machine, p.slot, a.effective, p.overdue FROM reel r JOIN placement p ON r.reel = p.reel JOIN accepted a ON a.number = p.number ORDER BY p.number, p.place",
        &[],
    )?;
    pieces(alloc, rows.as_slice())
}

/// Returns the pieces of reels whose floor life was used up, by number, then place.
pub fn overdue<S: Alter>(alloc: Global, conn: &mut Connection<S>) -> Result<PlacedRows, Error>
    ensures pieces { HasCleanDisk (state S.Store conn.new)
        → IfOk result (FindsOfList overdue_of (state S.Store conn.old)) }
    ensures reads { ReadsOnly S.Store conn.old conn.new }
    ensures inside { IsRefusedInside result conn.old conn.new }
{
    let rows = select(
        conn,
        "SELECT p.number, p.place, p.board, p.designator, r.part, r.lot, p.reel, p.machine, p.slot, a.effective, p.overdue FROM reel r JOIN placement p ON r.reel = p.reel JOIN accepted a ON a.number = p.number WHERE p.overdue = 1 ORDER BY p.number, p.place",
        &[],
    )?;
    pieces(alloc, rows.as_slice())
}

/// Returns the boards that hold a piece of the lot, each once and in byte order.
pub fn lot_names<S: Alter>(
    alloc: Global,
    conn: &mut Connection<S>,
    lot: &Id,
) -> Result<IdList, Error>
    ensures names { HasCleanDisk (state S.Store conn.new)
        → IfOk result (FindsOfList (λ H. boards_of H lot.now) (state S.Store conn.old)) }
    ensures reads { ReadsOnly S.Store conn.old conn.new }
    ensures inside { IsRefusedInside result conn.old conn.new }
{
    let rows = select(
        conn,
        "SELECT DISTINCT p.board FROM reel r JOIN placement p ON r.reel = p.reel WHERE r.lot = ?1 ORDER BY p.board",
        &[ValueRef::Text(lot.as_bytes())],
    )?;
    names(alloc, rows.as_slice())
}
