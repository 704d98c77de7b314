//! The pieces of the traces, by the trace indexes of the working state if it is loaded, or else by a query.

ghost use Rattle.std.specs.Prelude.{◌≡◌, ◌++◌, IfOk, OnOk, map, option_copied};
ghost use Rattle.sqlite.specs.State.{HasCleanDisk};
ghost use Rattle.sqlite.specs.Held.{state};
ghost use Rattle.desk_types.specs.declared.placement.Placement.{Placement};
ghost use Rattle.desk_types.specs.Placements.{overdue_of, boards_of, set_of};
ghost use Rattle.state_rows.specs.Lists.{key_of, keys_of_install, keys_of_installs};
ghost use Rattle.line_traces.specs.Pieces.{pieces_on, pieces_of_lot};
ghost use Rattle.line_traces.specs.Working.{FindsOfBoth};
ghost use Rattle.line_tables.specs.Frames.{ReadsOnly, IsRefusedInside};

use crate::looked::pieces_at;
use crate::pieces::{board_pieces, lot_names, lot_pieces, overdue};
use crate::row::PlacedRows;
use crate::working::Working;
use desk_types::{Desk, Id, IdList, Listing, Placement};
use sqlite::{Alter, Connection, Error};
use state_rows::{Install, PieceKey};
use std::alloc::{AllocError, Global};
use std::collections::BTreeSet;

/// Returns the pieces on the board by number, then place.
pub fn pieces_of_board<S: Alter, D: Desk>(
    alloc: Global,
    conn: &mut Connection<S>,
    working: Option<&Working<D>>,
    board: &Id,
) -> Result<PlacedRows, Error>
    // The result is that of the history, with a loaded desk or without one.
    ensures pieces { HasCleanDisk (state S.Store conn.new)
        → IfOk result
        (FindsOfBoth D.Stands (option_copied working.entry)
        (λ H. pieces_on H board.now)
        (state S.Store conn.old)) }
    ensures reads { ReadsOnly S.Store conn.old conn.new }
{
    let Some(working) = working else {
        return board_pieces(alloc, conn, board);
    };
    let keys = keys_of(alloc, working.lists.of_board(board))?;
    match pieces_at(alloc, conn, working, keys.as_slice())? {
        Some(pieces) => Ok(pieces),
        None => board_pieces(alloc, conn, board),
    }
}

/// Returns the pieces of the lot by number, then place.
pub fn pieces_of_lot<S: Alter, D: Desk>(
    alloc: Global,
    conn: &mut Connection<S>,
    working: Option<&Working<D>>,
    lot: &Id,
) -> Result<PlacedRows, Error>
    ensures pieces { HasCleanDisk (state S.Store conn.new)
        → IfOk result
        (FindsOfBoth D.Stands (option_copied working.entry)
        (λ H. pieces_of_lot H lot.now)
        (state S.Store conn.old)) }
    ensures reads { ReadsOnly S.Store conn.old conn.new }
{
    let Some(working) = working else {
        return lot_pieces(alloc, conn, lot);
    };
    let keys = working.lists.of_lot(lot);
    match pieces_at(alloc, conn, working, keys)? {
        Some(pieces) => Ok(pieces),
        None => lot_pieces(alloc, conn, lot),
    }
}

/// Returns the boards that hold a piece of the lot, each once and in byte order.
pub fn boards_of_lot<S: Alter, D: Desk>(
    alloc: Global,
    conn: &mut Connection<S>,
    working: Option<&Working<D>>,
    lot: &Id,
) -> Result<IdList, Error>
    ensures boards { HasCleanDisk (state S.Store conn.new)
        → IfOk result
        (FindsOfBoth D.Stands (option_copied working.entry)
        (λ H. boards_of H lot.now)
        (state S.Store conn.old)) }
    ensures reads { ReadsOnly S.Store conn.old conn.new }
{
    let Some(working) = working else {
        return lot_names(alloc, conn, lot);
    };
    match pieces_at(alloc, conn, working, working.lists.of_lot(lot))? {
        Some(pieces) => Ok(boards_among(alloc, pieces.as_slice())?),
        None => lot_names(alloc, conn, lot),
    }
}

/// Returns the pieces of reels whose floor life was used up, by number, then place.
pub fn pieces_overdue<S: Alter, D: Desk>(
    alloc: Global,
    conn: &mut Connection<S>,
    working: Option<&Working<D>>,
) -> Result<PlacedRows, Error>
    ensures pieces { HasCleanDisk (state S.Store conn.new)
        → IfOk result
        (FindsOfBoth D.Stands (option_copied working.entry) overdue_of
        (state S.Store conn.old)) }
    ensures reads { ReadsOnly S.Store conn.old conn.new }
    ensures inside { IsRefusedInside result conn.old conn.new }
{
    let Some(working) = working else {
        return overdue(alloc, conn);
    };
    let keys = working.lists.overdue();
    match pieces_at(alloc, conn, working, keys)? {
        Some(pieces) => Ok(pieces),
        None => overdue(alloc, conn),
    }
}

/// Returns the keys of the pieces of installs, install by install: each one's places from 1.
fn keys_of(alloc: Global, installs: &[Install]) -> Result<Vec<PieceKey>, AllocError>
    ensures { IfOk result (λ keys. map key_of keys.items ≡ keys_of_installs installs.now) }
{
    let mut keys = Vec::new(alloc);
    for install in installs {
        add_keys(&mut keys, *install)?;
    }
    Ok(keys)
}

fn add_keys(keys: &mut Vec<PieceKey>, install: Install) -> Result<(), AllocError>
    ensures { OnOk result
        (map key_of keys.new.items ≡ map key_of keys.old.items ++ keys_of_install install) }
{
    for before in 0..install.pieces {
        keys.push(PieceKey {
            number: install.number,
            place: before + 1,
        })?;
    }
    Ok(())
}

/// Returns the boards of the pieces, each once and in byte order.
fn boards_among(alloc: Global, pieces: &[Placement]) -> Result<IdList, AllocError>
    ensures { IfOk result
        (λ boards. boards ≡ set_of (map (λ (p : Placement). p.board) pieces.now)) }
{
    let mut boards = BTreeSet::new(alloc);
    for piece in pieces.iter().rev() {
        boards.insert(piece.board)?;
    }
    let names = boards.into_iter().collect(alloc)?;
    Ok(Listing::new(names))
}
