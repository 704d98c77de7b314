//! The expected rows of a state table.

ghost use Rattle.std.specs.Prelude.{IfOk};
ghost use Rattle.sqlite.specs.State.{HasCleanDisk};
ghost use Rattle.sqlite.specs.Held.{state};
ghost use Rattle.line_replay.specs.Alone.{FindsEntry};
ghost use Rattle.line_replay.specs.TableNames.{table_of};
ghost use Rattle.line_tables.specs.Frames.{ReadsOnly};

use sqlite::{Alter, Connection, Error};
use std::alloc::Global;

/// An expected row, borrowed from a set of rows.
pub trait ExpectedRow: Drop + Sized {
    ghost use Rattle.std.specs.Prelude.{Bool};
    ghost use Rattle.sqlite_value.specs.Order.{Row};
    ghost use Rattle.line_replay.specs.declared.table.StateTable.{StateTable};

    /// Its key.
    type Key;

    /// The value that a set stores for the key.
    type Kept;

    /// Its table.
    ghost table: { StateTable };

    /// Whether a row has the key.
    ghost has: { Self.Key → Row → Bool };

    /// The columns of a row.
    ghost columns: { Self.Key → Self.Kept → Row };

    /// Its key and its stored value.
    ghost entry: { Self → Self.Key × Self.Kept };

    /// Whether the table has exactly one row with its key, with its columns.
    fn is_alone<S: Alter>(self, alloc: Global, conn: &mut Connection<S>) -> Result<bool, Error>
        ensures found { HasCleanDisk (state S.Store conn.new)
            → IfOk result (FindsEntry (table_of table) has columns (entry self)
            (state S.Store conn.old)) }
        ensures reads { ReadsOnly S.Store conn.old conn.new };
}
