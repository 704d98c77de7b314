//! Edits of the state tables.

ghost use Rattle.std.specs.Prelude.{OnOk};
ghost use Rattle.sqlite.specs.State.{HasCleanDisk};
ghost use Rattle.sqlite.specs.Held.{state};
ghost use Rattle.line_tables.specs.Calls.{WritesRow};
ghost use Rattle.line_tables.specs.Frames.{InTransaction};

use crate::floor::{put_board, put_mount, put_reel, take_mount};
use crate::pieces::{put_found, put_placement};
use crate::setup::{put_alternate, put_part, put_selected, put_sheet_row, take_sheet_row};
use desk_types::RowEdit;
use sqlite::{Alter, Error, Transaction};
use std::alloc::Global;

/// Makes one edit.
pub fn put_row<S: Alter>(
    alloc: Global,
    tx: &mut Transaction<'_, S>,
    edit: &RowEdit,
) -> Result<(), Error>
    ensures done { HasCleanDisk (state S.Store tx.new.conn.now)
        → OnOk result (WritesRow edit.now (state S.Store tx.old.conn.now)
        (state S.Store tx.new.conn.now)) }
    ensures within { InTransaction S.Store tx.old tx.new }
{
    match edit {
        RowEdit::TakeSheetRow {
            product,
            machine,
            place,
        } => take_sheet_row(tx, product, machine, *place),
        RowEdit::TakeMount { reel } => take_mount(tx, reel),
        RowEdit::PutPart { part } => put_part(tx, part),
        RowEdit::PutAlternate { part, alternate } => put_alternate(tx, part, alternate),
        RowEdit::PutSheetRow {
            product,
            machine,
            place,
            row,
        } => put_sheet_row(alloc, tx, product, machine, *place, row),
        RowEdit::PutSelected { machine, product } => put_selected(tx, machine, product),
        RowEdit::PutReel(row) => put_reel(tx, row),
        RowEdit::PutMount(row) => put_mount(tx, row),
        RowEdit::PutBoard(row) => put_board(tx, row),
        RowEdit::PutPlacement(row) => put_placement(alloc, tx, row),
        RowEdit::PutFound { reel, pieces } => put_found(tx, reel, *pieces),
    }
}
