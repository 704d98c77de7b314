//! The tables of an empty history.

ghost use Rattle.std.specs.Prelude.{◌≡◌, IsTrue, OnOk, OnErr};
ghost use Rattle.sqlite_trees.specs.Tree.{Trees};
ghost use Rattle.sqlite.specs.State.{HasCleanDisk, Survives, KeepsCommit};
ghost use Rattle.sqlite.specs.Held.{state};
ghost use Rattle.line_tables.specs.Line.{no_schema, line_schema, first_of_line};
ghost use Rattle.line_tables.specs.Calls.{HoldsBlank, Makes, LeavesBlank, Extends, AddsFound};
ghost use Rattle.line_tables.specs.Frames.{InTransaction, InOwnTransaction};

use crate::statement::run;
use sqlite::{Alter, Connection, Error, ErrorCode, Transaction, params};

const CREATE_VERSION: &str =
    "CREATE TABLE version (one INTEGER NOT NULL PRIMARY KEY, number INTEGER NOT NULL, greatest INTEGER NOT NULL) STRICT";

const CREATE_ACCEPTED: &str =
    "CREATE TABLE accepted (number INTEGER NOT NULL PRIMARY KEY, uid TEXT NOT NULL UNIQUE, source TEXT NOT NULL, own INTEGER NOT NULL, effective INTEGER NOT NULL, command TEXT NOT NULL, detail TEXT NOT NULL) STRICT";

const CREATE_PART: &str = "CREATE TABLE part (part TEXT NOT NULL, PRIMARY KEY (part)) STRICT";

const CREATE_ALTERNATE: &str =
    "CREATE TABLE alternate (part TEXT NOT NULL, alternate TEXT NOT NULL, PRIMARY KEY (part, alternate)) STRICT";

const CREATE_SHEET_ROW: &str =
    "CREATE TABLE sheet_row (product TEXT NOT NULL, machine TEXT NOT NULL, place INTEGER NOT NULL, slot TEXT NOT NULL, part TEXT NOT NULL, designators TEXT NOT NULL, PRIMARY KEY (product, machine, place)) STRICT";

const CREATE_SELECTED: &str =
    "CREATE TABLE selected (machine TEXT NOT NULL, product TEXT NOT NULL, PRIMARY KEY (machine)) STRICT";

const CREATE_REEL: &str =
    "CREATE TABLE reel (reel TEXT NOT NULL, part TEXT NOT NULL, lot TEXT NOT NULL, level TEXT NOT NULL, label INTEGER NOT NULL, received INTEGER NOT NULL, placed INTEGER NOT NULL, scrapped INTEGER NOT NULL, remaining INTEGER NOT NULL, used INTEGER NOT NULL, open_since INTEGER NOT NULL, baked INTEGER NOT NULL, PRIMARY KEY (reel), CHECK (received = placed + scrapped + remaining)) STRICT";

const CREATE_MOUNT: &str =
    "CREATE TABLE mount (since INTEGER NOT NULL PRIMARY KEY, machine TEXT NOT NULL, slot TEXT NOT NULL, reel TEXT NOT NULL UNIQUE) STRICT";

const CREATE_BOARD: &str =
    "CREATE TABLE board (board TEXT NOT NULL, product TEXT NOT NULL, machine TEXT NOT NULL, PRIMARY KEY (board)) STRICT";

const CREATE_PLACEMENT: &str =
    "CREATE TABLE placement (number INTEGER NOT NULL, place INTEGER NOT NULL, board TEXT NOT NULL, designator TEXT NOT NULL, machine TEXT NOT NULL, slot TEXT NOT NULL, reel TEXT NOT NULL REFERENCES reel, overdue INTEGER NOT NULL, UNIQUE (board, designator)) STRICT";

const CREATE_FOUND: &str =
    "CREATE TABLE found (reel TEXT NOT NULL, pieces INTEGER NOT NULL, PRIMARY KEY (reel), CHECK (pieces >= 1)) STRICT";

const INSERT_VERSION: &str = "INSERT INTO version VALUES (1, 2, ?1)";

/// Creates the tables of an empty history, whose numbers go up to the greatest, and commits them, or does nothing.
/// Tables with other names stay; the contract on values assumes that there were none. Inside an open transaction of the
/// caller nothing is done. A name that is taken gives `NameTaken`.
pub fn make<S: Alter>(conn: &mut Connection<S>, greatest: u32) -> Result<(), Error>
    ensures made { HasCleanDisk (state S.Store conn.new)
        → OnOk result ((state S.Store conn.old).now.schema ≡ no_schema
        → HoldsBlank greatest (state S.Store conn.new).committed) }
    ensures stays_open { HasCleanDisk (state S.Store conn.new)
        → OnOk result (IsTrue (state S.Store conn.old).is_open
        × IsTrue (state S.Store conn.new).is_open) }
    ensures neither { HasCleanDisk (state S.Store conn.new)
        → OnErr result (KeepsCommit (state S.Store conn.old) (state S.Store conn.new)) }
    ensures alone { HasCleanDisk (state S.Store conn.new)
        → OnOk result ((trees : Trees) → (state S.Store conn.new).may_leave trees
        → LeavesBlank greatest (state S.Store conn.old) trees) }
    ensures crash { Survives (state S.Store conn.old) (state S.Store conn.new)
        (LeavesBlank greatest (state S.Store conn.old)) }
    ensures inside { InOwnTransaction result conn.old conn.new }
{
    if !conn.is_autocommit() {
        return Err(Error::SqliteFailure(ErrorCode::TransactionState));
    }
    let mut tx = conn.transaction();
    make_all(&mut tx, greatest)?;
    tx.commit()
}

/// Creates the tables of an empty history within the transaction of the caller, who commits it or not.
pub fn make_all<S: Alter>(tx: &mut Transaction<'_, S>, greatest: u32) -> Result<(), Error>
    ensures made { HasCleanDisk (state S.Store tx.new.conn.now)
        → OnOk result (Makes greatest (state S.Store tx.old.conn.now)
        (state S.Store tx.new.conn.now)) }
    ensures within { InTransaction S.Store tx.old tx.new }
{
    make_tables(tx)?;
    run(tx, INSERT_VERSION, params![greatest])
}

fn make_tables<S: Alter>(tx: &mut Transaction<'_, S>) -> Result<(), Error>
    ensures made { HasCleanDisk (state S.Store tx.new.conn.now)
        → OnOk result (Extends no_schema line_schema (state S.Store tx.old.conn.now)
        (state S.Store tx.new.conn.now)) }
    ensures within { InTransaction S.Store tx.old tx.new }
{
    make_list(tx)?;
    make_setup(tx)?;
    make_floor(tx)?;
    make_pieces(tx)
}

/// The history and its version.
fn make_list<S: Alter>(tx: &mut Transaction<'_, S>) -> Result<(), Error>
    ensures made { HasCleanDisk (state S.Store tx.new.conn.now)
        → OnOk result
        (Extends no_schema (first_of_line 2 1) (state S.Store tx.old.conn.now)
        (state S.Store tx.new.conn.now)) }
    ensures within { InTransaction S.Store tx.old tx.new }
{
    run(tx, CREATE_VERSION, &[])?;
    run(tx, CREATE_ACCEPTED, &[])
}

fn make_setup<S: Alter>(tx: &mut Transaction<'_, S>) -> Result<(), Error>
    ensures made { HasCleanDisk (state S.Store tx.new.conn.now)
        → OnOk result
        (Extends (first_of_line 2 1) (first_of_line 6 5) (state S.Store tx.old.conn.now)
        (state S.Store tx.new.conn.now)) }
    ensures within { InTransaction S.Store tx.old tx.new }
{
    run(tx, CREATE_PART, &[])?;
    run(tx, CREATE_ALTERNATE, &[])?;
    run(tx, CREATE_SHEET_ROW, &[])?;
    run(tx, CREATE_SELECTED, &[])
}

/// Reels, mounts and boards.
fn make_floor<S: Alter>(tx: &mut Transaction<'_, S>) -> Result<(), Error>
    ensures made { HasCleanDisk (state S.Store tx.new.conn.now)
        → OnOk result
        (Extends (first_of_line 6 5) (first_of_line 9 8) (state S.Store tx.old.conn.now)
        (state S.Store tx.new.conn.now)) }
    ensures within { InTransaction S.Store tx.old tx.new }
{
    run(tx, CREATE_REEL, &[])?;
    run(tx, CREATE_MOUNT, &[])?;
    run(tx, CREATE_BOARD, &[])
}

/// Placements, and pieces found by counts.
fn make_pieces<S: Alter>(tx: &mut Transaction<'_, S>) -> Result<(), Error>
    ensures made { HasCleanDisk (state S.Store tx.new.conn.now)
        → OnOk result
        (Extends (first_of_line 9 8) line_schema (state S.Store tx.old.conn.now)
        (state S.Store tx.new.conn.now)) }
    ensures within { InTransaction S.Store tx.old tx.new }
{
    run(tx, CREATE_PLACEMENT, &[])?;
    make_found(tx)
}

/// The table of found pieces, which version 1 lacks.
pub fn make_found<S: Alter>(tx: &mut Transaction<'_, S>) -> Result<(), Error>
    ensures made { HasCleanDisk (state S.Store tx.new.conn.now)
        → OnOk result (AddsFound (state S.Store tx.old.conn.now) (state S.Store tx.new.conn.now)) }
    ensures within { InTransaction S.Store tx.old tx.new }
{
    run(tx, CREATE_FOUND, &[])
}
