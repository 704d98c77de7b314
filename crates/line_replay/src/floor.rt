//! The tables `reel`, `mount` and `board`.

use crate::expected::ExpectedRow;
use crate::shown::shows_only;
use desk_types::{BoardRow, Id, MountRow, ReelRow};
use line_tables::row_values::{board_values, mount_values, reel_values};
use line_tables::values::text;
use sqlite::{Alter, Connection, Error};
use std::alloc::Global;

/// A reel.
impl<'a> ExpectedRow for (&'a Id, &'a ReelRow) {
    ghost use Rattle.line_tables.specs.StateRows.{has_text, reel_columns};
    ghost use Rattle.line_replay.specs.declared.table.StateTable.TheVariants.{Reel};

    type Key = Id;

    type Kept = ReelRow;

    ghost table = { Reel };

    ghost has = { has_text 0 };

    ghost columns = { λ _ row. reel_columns row };

    ghost entry = { λ e. (e.0.now, e.1.now) };

    fn is_alone<S: Alter>(self, _alloc: Global, conn: &mut Connection<S>) -> Result<bool, Error> {
        let (reel, row) = self;
        shows_only(
            conn,
            "SELECT reel, part, lot, level, label, received, placed, scrapped, remaining, used, open_since, baked FROM reel WHERE reel = ?1",
            &[text(reel)],
            &reel_values(row)?.values,
        )
    }
}

/// A mounted reel, which the set also has by number.
impl<'a> ExpectedRow for (&'a (u64, Id), &'a MountRow) {
    ghost use Rattle.line_tables.specs.StateRows.{has_text, mount_columns};
    ghost use Rattle.line_replay.specs.declared.table.StateTable.TheVariants.{Mount};

    type Key = Id;

    type Kept = MountRow;

    ghost table = { Mount };

    ghost has = { has_text 3 };

    ghost columns = { λ _ row. mount_columns row };

    ghost entry = { λ e. (e.0.now.1, e.1.now) };

    fn is_alone<S: Alter>(self, _alloc: Global, conn: &mut Connection<S>) -> Result<bool, Error> {
        let (at, row) = self;
        shows_only(
            conn,
            "SELECT since, machine, slot, reel FROM mount WHERE reel = ?1",
            &[text(&at.1)],
            &mount_values(row)?.values,
        )
    }
}

/// A board.
impl<'a> ExpectedRow for (&'a Id, &'a BoardRow) {
    ghost use Rattle.line_tables.specs.StateRows.{board_columns, has_text};
    ghost use Rattle.line_replay.specs.declared.table.StateTable.TheVariants.{Board};

    type Key = Id;

    type Kept = BoardRow;

    ghost table = { Board };

    ghost has = { has_text 0 };

    ghost columns = { λ _ row. board_columns row };

    ghost entry = { λ e. (e.0.now, e.1.now) };

    fn is_alone<S: Alter>(self, _alloc: Global, conn: &mut Connection<S>) -> Result<bool, Error> {
        let (board, row) = self;
        shows_only(
            conn,
            "SELECT board, product, machine FROM board WHERE board = ?1",
            &[text(board)],
            &board_values(row),
        )
    }
}
