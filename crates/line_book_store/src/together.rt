//! A command and entries about it, in one transaction.

ghost use Rattle.std.specs.Prelude.{IsTrue, OnOk, OnErr};
ghost use Rattle.sqlite_trees.specs.Tree.{Trees};
ghost use Rattle.sqlite.specs.State.{HasCleanDisk, Survives, KeepsCommit};
ghost use Rattle.sqlite.specs.Held.{state};
ghost use Rattle.line_tables.specs.Edit.{command_edits};
ghost use Rattle.line_tables.specs.Frames.{InTransaction, InOwnTransaction};
ghost use Rattle.line_book_store.specs.Together.{AddsBoth, LeavesTogether, NotesAll, WritesBoth};

use crate::noting::put_entry;
use desk_types::RowEdit;
use line_book::BookRow;
use line_tables::{Accepted, put_all};
use sqlite::{Alter, Connection, Error, ErrorCode, Transaction};
use std::alloc::Global;

/// Writes the row of an accepted command, its edits, and the entries behind the others, and commits
/// them, or writes none. Inside an open transaction of the caller nothing is done.
pub fn append_with_entries<S: Alter>(
    alloc: Global,
    conn: &mut Connection<S>,
    row: &Accepted,
    edits: &[RowEdit],
    entries: &[BookRow],
) -> Result<(), Error>
    // Both lists grow by one commit: a command is never there without its entries.
    ensures done { HasCleanDisk (state S.Store conn.new)
        → OnOk result
        (AddsBoth (command_edits row.now edits.now) entries.now (state S.Store conn.old).committed
        (state S.Store conn.new).committed) }
    ensures stays_open { HasCleanDisk (state S.Store conn.new)
        → OnOk result (IsTrue (state S.Store conn.old).is_open
        × IsTrue (state S.Store conn.new).is_open) }
    ensures neither { HasCleanDisk (state S.Store conn.new)
        → OnErr result (KeepsCommit (state S.Store conn.old) (state S.Store conn.new)) }
    ensures alone { HasCleanDisk (state S.Store conn.new)
        → OnOk result ((trees : Trees) → (state S.Store conn.new).may_leave trees
        → LeavesTogether (command_edits row.now edits.now) entries.now (state S.Store conn.old)
        trees) }
    ensures crash { Survives (state S.Store conn.old) (state S.Store conn.new)
        (LeavesTogether (command_edits row.now edits.now) entries.now (state S.Store conn.old)) }
    ensures inside { InOwnTransaction result conn.old conn.new }
{
    if !conn.is_autocommit() {
        return Err(Error::SqliteFailure(ErrorCode::TransactionState));
    }
    let mut tx = conn.transaction();
    put_both(alloc, &mut tx, row, edits, entries)?;
    tx.commit()
}

fn put_both<S: Alter>(
    alloc: Global,
    tx: &mut Transaction<'_, S>,
    row: &Accepted,
    edits: &[RowEdit],
    entries: &[BookRow],
) -> Result<(), Error>
    ensures done { HasCleanDisk (state S.Store tx.new.conn.now)
        → OnOk result
        (WritesBoth (command_edits row.now edits.now) entries.now (state S.Store tx.old.conn.now)
        (state S.Store tx.new.conn.now)) }
    ensures within { InTransaction S.Store tx.old tx.new }
{
    put_all(alloc, tx, row, edits)?;
    put_entries(tx, entries)
}

fn put_entries<S: Alter>(tx: &mut Transaction<'_, S>, entries: &[BookRow]) -> Result<(), Error>
    ensures done { HasCleanDisk (state S.Store tx.new.conn.now)
        → OnOk result
        (NotesAll entries.now (state S.Store tx.old.conn.now) (state S.Store tx.new.conn.now)) }
    ensures within { InTransaction S.Store tx.old tx.new }
{
    for entry in entries {
        put_entry(tx, entry)?;
    }
    Ok(())
}
