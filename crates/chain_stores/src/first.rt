//! The desk of the first commands in a table, which a new desk judges again.

ghost use Rattle.std.specs.Prelude.{◌≡◌, ◌+◌, ◌≤◌, IsTrue, IfSome, length};
ghost use Rattle.sqlite.specs.State.{HasCleanDisk};
ghost use Rattle.sqlite.specs.Held.{state};
ghost use Rattle.desk_types.specs.declared.limits.TheConstants.{MOST_ENTRIES};
ghost use Rattle.desk_types.specs.History.{Basis};
ghost use Rattle.desk_types.specs.Desk.{HasRoom};
ghost use Rattle.line_tables.specs.Frames.{ReadsOnly};
ghost use Rattle.chain_stores.specs.First.{IsFirst, TakesNext};

use desk_types::Rules;
use line_replay::{Taken, accept_row, rows_tell_lists_apart};
use line_tables::row_at;
use sqlite::{Alter, Connection};
use state_rows::{KeepsRows, TraceLists};
use std::alloc::Global;

/// Judges the command of this number again. Returns whether it could.
fn take_row<S: Alter, D: KeepsRows>(
    alloc: Global,
    conn: &mut Connection<S>,
    desk: &mut D,
    lists: &mut TraceLists,
    number: u32,
) -> bool
    // `first_desk` counts up to `MOST_ENTRIES` at most, so each command has room.
    requires room { HasRoom D.Stands desk.old 1 }
    ensures takes { (B : Basis) → D.Stands desk.old B → length B.history + 1 ≡ number
        → IsTrue result → TakesNext D.Stands B.rules (HasCleanDisk (state S.Store conn.new))
        (state S.Store conn.old) B.history desk.new }
    ensures reads { ReadsOnly S.Store conn.old conn.new }
{
    match row_at(conn, number) {
        Ok(Some(row)) => match accept_row(alloc, desk, lists, number, &row) {
            Ok(
                Taken {
                    uid: _,
                    edits: _edits,
                },
            ) => true,
            Err(_) => false,
        },
        _ => false,
    }
}

/// Returns the desk of the first `count` commands in the tables of a history. `None` if there are fewer, if they can't be
/// read, or if memory was refused.
pub fn first_desk<S: Alter, D: KeepsRows + Drop>(
    alloc: Global,
    conn: &mut Connection<S>,
    rules: Rules,
    count: u32,
) -> Option<D>
    requires bound { count ≤ MOST_ENTRIES }
    // `None` says nothing, not even that the history is shorter.
    ensures first { IfSome result
        (IsFirst D.Stands rules (HasCleanDisk (state S.Store conn.new)) (state S.Store conn.old)
        count) }
    ensures reads { ReadsOnly S.Store conn.old conn.new }
{
    rows_tell_lists_apart();
    let mut desk = D::fresh(alloc, rules);
    let mut lists = TraceLists::new(alloc);
    for number in 0..count {
        if !take_row(alloc, conn, &mut desk, &mut lists, number + 1) {
            return None;
        }
    }
    Some(desk)
}
