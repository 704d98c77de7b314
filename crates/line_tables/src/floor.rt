//! Rows of reels, mounts and boards.

ghost use Rattle.std.specs.Prelude.{OnOk};
ghost use Rattle.sqlite.specs.State.{HasCleanDisk};
ghost use Rattle.sqlite.specs.Held.{state};
ghost use Rattle.desk_types.specs.declared.edit.RowEdit.TheVariants as RowEdit;
ghost use Rattle.line_tables.specs.Calls.{WritesRow};
ghost use Rattle.line_tables.specs.Frames.{InTransaction};

use crate::row_values::{board_values, mount_values, reel_values};
use crate::statement::{change_or_put, run};
use crate::values::text;
use desk_types::{BoardRow, Id, MountRow, ReelRow};
use sqlite::{Alter, Error, Transaction};

const UPDATE_REEL: &str =
    "UPDATE reel SET part = ?2, lot = ?3, level = ?4, label = ?5, received = ?6, placed = ?7, scrapped = ?8, remaining = ?9, used = ?10, open_since = ?11, baked = ?12 WHERE reel = ?1";

const INSERT_REEL: &str =
    "INSERT INTO reel VALUES (?1, ?2, ?3, ?4, ?5, ?6, ?7, ?8, ?9, ?10, ?11, ?12)";

const DELETE_MOUNT: &str = "DELETE FROM mount WHERE reel = ?1";

const INSERT_MOUNT: &str = "INSERT INTO mount VALUES (?1, ?2, ?3, ?4)";

const UPDATE_BOARD: &str = "UPDATE board SET product = ?2, machine = ?3 WHERE board = ?1";

const INSERT_BOARD: &str = "INSERT INTO board VALUES (?1, ?2, ?3)";

/// Updates a reel's row in place, since placements refer to it. Two rows for one reel are an error.
pub fn put_reel<S: Alter>(tx: &mut Transaction<'_, S>, row: &ReelRow) -> Result<(), Error>
    ensures done { HasCleanDisk (state S.Store tx.new.conn.now)
        → OnOk result
        (WritesRow (RowEdit.PutReel row.now) (state S.Store tx.old.conn.now)
        (state S.Store tx.new.conn.now)) }
    ensures within { InTransaction S.Store tx.old tx.new }
{
    change_or_put(tx, UPDATE_REEL, INSERT_REEL, &reel_values(row)?.values)
}

/// Deletes the reel's mount, if there is one.
pub fn take_mount<S: Alter>(tx: &mut Transaction<'_, S>, reel: &Id) -> Result<(), Error>
    ensures done { HasCleanDisk (state S.Store tx.new.conn.now)
        → OnOk result
        (WritesRow (RowEdit.TakeMount reel.now) (state S.Store tx.old.conn.now)
        (state S.Store tx.new.conn.now)) }
    ensures within { InTransaction S.Store tx.old tx.new }
{
    run(tx, DELETE_MOUNT, &[text(reel)])
}

/// Inserts a mounted reel. It must not be mounted elsewhere, and its number must be free.
pub fn put_mount<S: Alter>(tx: &mut Transaction<'_, S>, row: &MountRow) -> Result<(), Error>
    ensures done { HasCleanDisk (state S.Store tx.new.conn.now)
        → OnOk result
        (WritesRow (RowEdit.PutMount row.now) (state S.Store tx.old.conn.now)
        (state S.Store tx.new.conn.now)) }
    ensures within { InTransaction S.Store tx.old tx.new }
{
    run(tx, INSERT_MOUNT, &mount_values(row)?.values)
}

/// Writes a board. An existing row is updated in place.
pub fn put_board<S: Alter>(tx: &mut Transaction<'_, S>, row: &BoardRow) -> Result<(), Error>
    ensures done { HasCleanDisk (state S.Store tx.new.conn.now)
        → OnOk result
        (WritesRow (RowEdit.PutBoard row.now) (state S.Store tx.old.conn.now)
        (state S.Store tx.new.conn.now)) }
    ensures within { InTransaction S.Store tx.old tx.new }
{
    change_or_put(tx, UPDATE_BOARD, INSERT_BOARD, &board_values(row))
}
