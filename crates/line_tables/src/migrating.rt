//! Migration of the tables from version 1 to version 2.

ghost use Rattle.std.specs.Prelude.{IsTrue, OnOk, OnErr};
ghost use Rattle.sqlite_trees.specs.Tree.{Trees};
ghost use Rattle.sqlite.specs.State.{HasCleanDisk, Survives, KeepsCommit};
ghost use Rattle.sqlite.specs.Held.{state};
ghost use Rattle.line_tables.specs.Calls.{Migrated, Migrates, LeavesMigrated};
ghost use Rattle.line_tables.specs.Frames.{InTransaction, InOwnTransaction};

use crate::making::make_found;
use crate::statement::run;
use sqlite::{Alter, Connection, Error, ErrorCode, Transaction};

const UPDATE_VERSION: &str = "UPDATE version SET number = 2";

/// Migrates the tables from version 1 to version 2 and commits, or does nothing. One table is added, empty, and the
/// version number changes; all other rows stay. Inside an open transaction of the caller nothing is done.
pub fn migrate_tables<S: Alter>(conn: &mut Connection<S>) -> Result<(), Error>
    // A file of version 1 has only the desk's tables: of any other nothing is promised.
    ensures done { HasCleanDisk (state S.Store conn.new)
        → OnOk result (Migrated (state S.Store conn.old).committed
        (state S.Store conn.new).committed) }
    ensures stays_open { HasCleanDisk (state S.Store conn.new)
        → OnOk result (IsTrue (state S.Store conn.old).is_open
        × IsTrue (state S.Store conn.new).is_open) }
    ensures neither { HasCleanDisk (state S.Store conn.new)
        → OnErr result (KeepsCommit (state S.Store conn.old) (state S.Store conn.new)) }
    ensures alone { HasCleanDisk (state S.Store conn.new)
        → OnOk result ((trees : Trees) → (state S.Store conn.new).may_leave trees
        → LeavesMigrated (state S.Store conn.old) trees) }
    ensures crash { Survives (state S.Store conn.old) (state S.Store conn.new)
        (LeavesMigrated (state S.Store conn.old)) }
    ensures inside { InOwnTransaction result conn.old conn.new }
{
    if !conn.is_autocommit() {
        return Err(Error::SqliteFailure(ErrorCode::TransactionState));
    }
    let mut tx = conn.transaction();
    change_version(&mut tx)?;
    tx.commit()
}

fn change_version<S: Alter>(tx: &mut Transaction<'_, S>) -> Result<(), Error>
    ensures done { HasCleanDisk (state S.Store tx.new.conn.now)
        → OnOk result (Migrates (state S.Store tx.old.conn.now) (state S.Store tx.new.conn.now)) }
    ensures within { InTransaction S.Store tx.old tx.new }
{
    make_found(tx)?;
    run(tx, UPDATE_VERSION, &[])
}
