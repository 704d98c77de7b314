//! One entry, written in a transaction of its own.

ghost use Rattle.std.specs.Prelude.{IsTrue, OnOk, OnErr};
ghost use Rattle.sqlite_trees.specs.Tree.{Trees};
ghost use Rattle.sqlite.specs.State.{HasCleanDisk, Survives, KeepsCommit};
ghost use Rattle.sqlite.specs.Held.{state};
ghost use Rattle.line_tables.specs.Frames.{InTransaction, InOwnTransaction};
ghost use Rattle.line_book_store.specs.Book.{Noted, Notes, LeavesNoted};

use line_book::BookRow;
use line_tables::run;
use sqlite::{Alter, Connection, Error, ErrorCode, Transaction, params};

const INSERT_BOOK: &str =
    "INSERT INTO book VALUES (?1, ?2, ?3, ?4, ?5, ?6, ?7, ?8, ?9, ?10, ?11, ?12)";

/// Writes the entry behind the others and commits it, or writes nothing. Inside an open transaction of
/// the caller nothing is done.
pub fn append_entry<S: Alter>(conn: &mut Connection<S>, entry: &BookRow) -> Result<(), Error>
    // Promises the longer book only if the entry has the next number.
    ensures done { HasCleanDisk (state S.Store conn.new)
        → OnOk result
        (Noted entry.now (state S.Store conn.old).committed (state S.Store conn.new).committed) }
    ensures stays_open { HasCleanDisk (state S.Store conn.new)
        → OnOk result (IsTrue (state S.Store conn.old).is_open
        × IsTrue (state S.Store conn.new).is_open) }
    ensures neither { HasCleanDisk (state S.Store conn.new)
        → OnErr result (KeepsCommit (state S.Store conn.old) (state S.Store conn.new)) }
    ensures alone { HasCleanDisk (state S.Store conn.new)
        → OnOk result ((trees : Trees) → (state S.Store conn.new).may_leave trees
        → LeavesNoted entry.now (state S.Store conn.old) trees) }
    // A crash leaves the same as before the call, or the book with the whole entry.
    ensures crash { Survives (state S.Store conn.old) (state S.Store conn.new)
        (LeavesNoted entry.now (state S.Store conn.old)) }
    ensures inside { InOwnTransaction result conn.old conn.new }
{
    if !conn.is_autocommit() {
        return Err(Error::SqliteFailure(ErrorCode::TransactionState));
    }
    let mut tx = conn.transaction();
    put_entry(&mut tx, entry)?;
    tx.commit()
}

pub fn put_entry<S: Alter>(tx: &mut Transaction<'_, S>, entry: &BookRow) -> Result<(), Error>
    ensures done { HasCleanDisk (state S.Store tx.new.conn.now)
        → OnOk result
        (Notes entry.now (state S.Store tx.old.conn.now) (state S.Store tx.new.conn.now)) }
    ensures within { InTransaction S.Store tx.old tx.new }
{
    run(
        tx,
        INSERT_BOOK,
        params![
            entry.number,
            entry.after,
            &entry.kind,
            &entry.source,
            &entry.uid,
            &entry.machine,
            &entry.slot,
            &entry.board,
            &entry.reel,
            &entry.word,
            entry.of,
            &entry.told
        ],
    )
}
