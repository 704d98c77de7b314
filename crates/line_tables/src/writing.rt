//! Edits, written in one transaction.

ghost use Rattle.std.specs.Prelude.{◌≡◌, ◌<◌, ◌≤◌, length, take, IsTrue, IfOk, IfSome, OnOk, OnErr, [], ◌∷◌};
ghost use Rattle.sqlite_trees.specs.Tree.{Trees};
ghost use Rattle.sqlite.specs.State.{HasCleanDisk, Survives, KeepsCommit};
ghost use Rattle.sqlite.specs.Held.{state};
ghost use Rattle.line_tables.specs.Edit.{PutAccepted, EditRow, row_edits, command_edits};
ghost use Rattle.sqlite.specs.Values.{bound};
ghost use Rattle.line_tables.specs.Placing.{ArePlacing};
ghost use Rattle.line_tables.specs.Calls.{Edited, Writes, LeavesEdited};
ghost use Rattle.line_tables.specs.Frames.{InTransaction, InOwnTransaction};

use crate::edit::Accepted;
use crate::pieces::{put_eight, values_of_all};
use crate::rows::put_row;
use crate::statement::run;
use desk_types::RowEdit;
use sqlite::types::ValueRef;
use sqlite::{Alter, Connection, Error, ErrorCode, Transaction, params};
use std::alloc::Global;

const INSERT_ACCEPTED: &str = "INSERT INTO accepted VALUES (?1, ?2, ?3, ?4, ?5, ?6, ?7)";

/// Writes the row of an accepted command and the edits of the state tables, in their order, and commits
/// them, or writes none. Inside an open transaction of the caller nothing is done. If a rule of a table
/// refuses an edit, the error names the rule, as in `ConstraintViolation(Unique)`: the row of `accepted`
/// if its number or UniqueID is taken.
pub fn append<S: Alter>(
    alloc: Global,
    conn: &mut Connection<S>,
    row: &Accepted,
    edits: &[RowEdit],
) -> Result<(), Error>
    // Each inserted row must be new: `prepare` of `line_replay` says so of its edits.
    ensures done { HasCleanDisk (state S.Store conn.new)
        → OnOk result
        (Edited (command_edits row.now edits.now) (state S.Store conn.old).committed
        (state S.Store conn.new).committed) }
    ensures stays_open { HasCleanDisk (state S.Store conn.new)
        → OnOk result (IsTrue (state S.Store conn.old).is_open
        × IsTrue (state S.Store conn.new).is_open) }
    // A command that can't be written whole isn't written at all.
    ensures neither { HasCleanDisk (state S.Store conn.new)
        → OnErr result (KeepsCommit (state S.Store conn.old) (state S.Store conn.new)) }
    ensures alone { HasCleanDisk (state S.Store conn.new)
        → OnOk result ((trees : Trees) → (state S.Store conn.new).may_leave trees
        → LeavesEdited (command_edits row.now edits.now) (state S.Store conn.old) trees) }
    // A crash in the middle leaves the tables of before, or those with all edits.
    ensures crash { Survives (state S.Store conn.old) (state S.Store conn.new)
        (LeavesEdited (command_edits row.now edits.now) (state S.Store conn.old)) }
    ensures inside { InOwnTransaction result conn.old conn.new }
{
    if !conn.is_autocommit() {
        return Err(Error::SqliteFailure(ErrorCode::TransactionState));
    }
    let mut tx = conn.transaction();
    put_all(alloc, &mut tx, row, edits)?;
    tx.commit()
}

/// Writes the row of an accepted command and the edits of the state tables, in their order, within the transaction of
/// the caller, who commits it or not. An error leaves it open, with a part of them.
pub fn put_all<S: Alter>(
    alloc: Global,
    tx: &mut Transaction<'_, S>,
    row: &Accepted,
    edits: &[RowEdit],
) -> Result<(), Error>
    ensures done { HasCleanDisk (state S.Store tx.new.conn.now)
        → OnOk result
        (Writes (command_edits row.now edits.now) (state S.Store tx.old.conn.now)
        (state S.Store tx.new.conn.now)) }
    ensures within { InTransaction S.Store tx.old tx.new }
{
    put_accepted(tx, row)?;
    let mut rest = edits;
    while !rest.is_empty() {
        let taken = put_first(alloc, tx, rest)?;
        let (_, more) = rest.split_at(taken);
        rest = more;
    }
    Ok(())
}

/// Makes the first edit, or the first eight if they all put placements, and returns how many it made.
fn put_first<S: Alter>(
    alloc: Global,
    tx: &mut Transaction<'_, S>,
    edits: &[RowEdit],
) -> Result<usize, Error>
    requires some { 0 < length edits.now }
    ensures some { IfOk result (λ taken. 0 < taken × taken ≤ length edits.now) }
    ensures done { HasCleanDisk (state S.Store tx.new.conn.now)
        → IfOk result
        (λ taken. Writes (row_edits (take taken edits.now)) (state S.Store tx.old.conn.now)
        (state S.Store tx.new.conn.now)) }
    ensures within { InTransaction S.Store tx.old tx.new }
{
    if let Some(values) = first_eight(alloc, edits)? {
        put_eight(tx, values.as_slice())?;
        return Ok(8);
    }
    put_row(alloc, tx, &edits[0])?;
    Ok(1)
}

fn first_eight<'a>(alloc: Global, edits: &'a [RowEdit]) -> Result<Option<Vec<ValueRef<'a>>>, Error>
    ensures { IfOk result
        (λ found. IfSome found (λ values. 8 ≤ length edits.now
        × ArePlacing (row_edits (take 8 edits.now)) (bound values.items))) }
{
    match edits.get(..8) {
        Some(eight) => values_of_all(alloc, eight),
        None => Ok(None),
    }
}

fn put_accepted<S: Alter>(tx: &mut Transaction<'_, S>, row: &Accepted) -> Result<(), Error>
    ensures done { HasCleanDisk (state S.Store tx.new.conn.now)
        → OnOk result
        (Writes (PutAccepted row.now ∷ []) (state S.Store tx.old.conn.now)
        (state S.Store tx.new.conn.now)) }
    ensures within { InTransaction S.Store tx.old tx.new }
{
    run(
        tx,
        INSERT_ACCEPTED,
        params![
            row.number,
            &row.uid,
            &row.source,
            row.own,
            row.effective,
            &row.command,
            &row.detail
        ],
    )
}
