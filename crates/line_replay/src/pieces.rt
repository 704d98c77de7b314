//! The table `found`.

use crate::expected::ExpectedRow;
use crate::shown::shows_only;
use desk_types::Id;
use line_tables::values::{int, text};
use sqlite::{Alter, Connection, Error};
use std::alloc::Global;

/// A reel, with the pieces that counts found on it.
impl<'a> ExpectedRow for (&'a Id, &'a u64) {
    ghost use Rattle.std.specs.Prelude.{ℕ};
    ghost use Rattle.line_tables.specs.StateRows.{found_columns, has_text};
    ghost use Rattle.line_replay.specs.declared.table.StateTable.TheVariants.{Found};

    type Key = Id;

    type Kept = u64;

    ghost table = { Found };

    ghost has = { has_text 0 };

    ghost columns = { found_columns };

    ghost entry = { λ e. (e.0.now, e.1.now) };

    fn is_alone<S: Alter>(self, _alloc: Global, conn: &mut Connection<S>) -> Result<bool, Error> {
        let (reel, pieces) = self;
        shows_only(
            conn,
            "SELECT reel, pieces FROM found WHERE reel = ?1",
            &[text(reel)],
            &[text(reel), int(*pieces)?],
        )
    }
}
