//! The table of the book, created behind the desk's tables.

ghost use Rattle.std.specs.Prelude.{◌≡◌, IsTrue, OnOk, OnErr};
ghost use Rattle.sqlite_trees.specs.Tree.{Trees};
ghost use Rattle.sqlite.specs.State.{HasCleanDisk, Survives, KeepsCommit};
ghost use Rattle.sqlite.specs.Held.{state};
ghost use Rattle.line_tables.specs.Line.{no_schema};
ghost use Rattle.line_tables.specs.Frames.{InTransaction, InOwnTransaction};
ghost use Rattle.line_book_store.specs.Book.{HoldsEmpty, LeavesEmpty, LeavesOpened, MakesBoth, Opened, Opens};

use line_tables::{make_all, run};
use sqlite::{Alter, Connection, Error, ErrorCode, Transaction};

const CREATE_BOOK: &str =
    "CREATE TABLE book (n INTEGER NOT NULL PRIMARY KEY, after INTEGER NOT NULL, kind TEXT NOT NULL, source TEXT NOT NULL, uid TEXT NOT NULL, machine TEXT NOT NULL, slot TEXT NOT NULL, board TEXT NOT NULL, reel TEXT NOT NULL, word TEXT NOT NULL, of INTEGER NOT NULL, told TEXT NOT NULL) STRICT";

/// Creates the empty book behind the desk's tables, in a file with no other tables, and commits it,
/// or does nothing. Inside an open transaction of the caller nothing is done.
pub fn make_book<S: Alter>(conn: &mut Connection<S>) -> Result<(), Error>
    // Promises the book only in a file with the desk's tables and no others.
    ensures done { HasCleanDisk (state S.Store conn.new)
        → OnOk result
        (Opened (state S.Store conn.old).committed (state S.Store conn.new).committed) }
    ensures stays_open { HasCleanDisk (state S.Store conn.new)
        → OnOk result (IsTrue (state S.Store conn.old).is_open
        × IsTrue (state S.Store conn.new).is_open) }
    ensures neither { HasCleanDisk (state S.Store conn.new)
        → OnErr result (KeepsCommit (state S.Store conn.old) (state S.Store conn.new)) }
    ensures alone { HasCleanDisk (state S.Store conn.new)
        → OnOk result ((trees : Trees) → (state S.Store conn.new).may_leave trees
        → LeavesOpened (state S.Store conn.old) trees) }
    ensures crash { Survives (state S.Store conn.old) (state S.Store conn.new)
        (LeavesOpened (state S.Store conn.old)) }
    ensures inside { InOwnTransaction result conn.old conn.new }
{
    if !conn.is_autocommit() {
        return Err(Error::SqliteFailure(ErrorCode::TransactionState));
    }
    let mut tx = conn.transaction();
    add_book(&mut tx)?;
    tx.commit()
}

fn add_book<S: Alter>(tx: &mut Transaction<'_, S>) -> Result<(), Error>
    ensures done { HasCleanDisk (state S.Store tx.new.conn.now)
        → OnOk result (Opens (state S.Store tx.old.conn.now) (state S.Store tx.new.conn.now)) }
    ensures within { InTransaction S.Store tx.old tx.new }
{
    run(tx, CREATE_BOOK, &[])
}

/// Creates the desk's tables of an empty history, whose numbers go up to the greatest, and the empty
/// book behind them, in one transaction, or does nothing. The contract on values assumes that there
/// was no table. Inside an open transaction of the caller nothing is done.
pub fn make_with_book<S: Alter>(conn: &mut Connection<S>, greatest: u32) -> Result<(), Error>
    ensures made { HasCleanDisk (state S.Store conn.new)
        → OnOk result ((state S.Store conn.old).now.schema ≡ no_schema
        → HoldsEmpty greatest (state S.Store conn.new).committed) }
    ensures stays_open { HasCleanDisk (state S.Store conn.new)
        → OnOk result (IsTrue (state S.Store conn.old).is_open
        × IsTrue (state S.Store conn.new).is_open) }
    ensures neither { HasCleanDisk (state S.Store conn.new)
        → OnErr result (KeepsCommit (state S.Store conn.old) (state S.Store conn.new)) }
    ensures alone { HasCleanDisk (state S.Store conn.new)
        → OnOk result ((trees : Trees) → (state S.Store conn.new).may_leave trees
        → LeavesEmpty greatest (state S.Store conn.old) trees) }
    ensures crash { Survives (state S.Store conn.old) (state S.Store conn.new)
        (LeavesEmpty greatest (state S.Store conn.old)) }
    ensures inside { InOwnTransaction result conn.old conn.new }
{
    if !conn.is_autocommit() {
        return Err(Error::SqliteFailure(ErrorCode::TransactionState));
    }
    let mut tx = conn.transaction();
    make_both(&mut tx, greatest)?;
    tx.commit()
}

fn make_both<S: Alter>(tx: &mut Transaction<'_, S>, greatest: u32) -> Result<(), Error>
    ensures made { HasCleanDisk (state S.Store tx.new.conn.now)
        → OnOk result (MakesBoth greatest (state S.Store tx.old.conn.now)
        (state S.Store tx.new.conn.now)) }
    ensures within { InTransaction S.Store tx.old tx.new }
{
    make_all(tx, greatest)?;
    add_book(tx)
}
