//! The desk of the history in a table.

ghost use Rattle.std.specs.Prelude.{◌≡◌, ◌≤◌, IsTrue, IfOk, IfErr, IfSome, length};
ghost use Rattle.sqlite.specs.State.{HasCleanDisk};
ghost use Rattle.sqlite.specs.Held.{state};
ghost use Rattle.desk_types.specs.declared.limits.TheConstants.{MOST_ENTRIES};
ghost use Rattle.desk_types.specs.History.{History, basis};
ghost use Rattle.desk_types.specs.Judged.{IsJudged};
ghost use Rattle.line_tables.specs.Rows.{Holds};
ghost use Rattle.line_tables.specs.Frames.{ReadsOnly};
ghost use Rattle.line_replay.specs.Rows.{ledger_tables};
ghost use Rattle.line_replay.specs.Expected.{kept_with, AreKept};
ghost use Rattle.line_replay.specs.Replay.{IsReplayed, IsFaultOf};
ghost use Rattle.state_rows.specs.Lists.{IsListed};

use crate::auditing::Placed;
use crate::fault::ReplayFault;
use crate::taking::{are_all, least_is_one, take_rows};
use desk_types::Rules;
use sqlite::{Alter, Connection};
use state_rows::{KeepsRows, TraceLists};
use std::alloc::Global;

/// A desk, its trace indexes, the length of its history, and the placements that were looked up.
pub struct Replayed<D: KeepsRows + Drop> {
    pub desk: D,
    pub lists: TraceLists,
    pub count: u32,
    pub placed: Placed,
}

/// Judges each row of `accepted` again, by number, with a fresh desk of these rules. Numbers go up to the greatest. One
/// row is in memory at a time. Inside an open transaction of the caller nothing is read, and the fault is Unavailable.
pub fn replay<S: Alter, D: KeepsRows + Drop>(
    alloc: Global,
    conn: &mut Connection<S>,
    rules: Rules,
    greatest: u32,
) -> Result<Replayed<D>, ReplayFault>
    requires bound { greatest ≤ MOST_ENTRIES }
    // On a disk that lies, too, the desk represents some judged history.
    ensures list { IfOk result (λ r. (H : History)
        × IsReplayed D.Stands rules greatest (HasCleanDisk (state S.Store conn.new))
        (state S.Store conn.old) r.desk (kept_with (D.kept_rows r.desk) r.placed) r.count H
        × IsListed r.lists H) }
    // The rows before the reported number are a lawful history, and no row continues it.
    ensures fault { HasCleanDisk (state S.Store conn.new)
        → IfErr result (IsFaultOf rules greatest (state S.Store conn.old)) }
    ensures reads { ReadsOnly S.Store conn.old conn.new }
{
    least_is_one(conn)?;
    let (desk, lists, count, placed) = take_rows(alloc, conn, rules, greatest)?;
    let all = are_all(conn, count)?;
    if !all {
        return Err(ReplayFault::NotLawful(count + 1));
    }
    Ok(Replayed {
        desk,
        lists,
        count,
        placed,
    })
}

/// Rebuilds the desk from the tables of a judged history, as after a refused `settle`. Returns `None` if memory was
/// refused, if the database failed, or if the rows are no such history.
pub fn rebuild<S: Alter, D: KeepsRows + Drop>(
    alloc: Global,
    conn: &mut Connection<S>,
    rules: Rules,
    greatest: u32,
) -> Option<Replayed<D>>
    requires bound { greatest ≤ MOST_ENTRIES }
    ensures list { IfSome result (λ r. (H : History)
        × IsReplayed D.Stands rules greatest (HasCleanDisk (state S.Store conn.new))
        (state S.Store conn.old) r.desk (kept_with (D.kept_rows r.desk) r.placed) r.count H
        × IsListed r.lists H) }
    ensures same { (G : History) → IsJudged rules G
        → (IsTrue (state S.Store conn.old).is_open
        → Holds (state S.Store conn.old).committed (ledger_tables greatest G))
        → HasCleanDisk (state S.Store conn.new)
        → IfSome result (λ r. D.Stands r.desk (basis rules G) × (r.count ≡ length G)
        × IsListed r.lists G × AreKept (D.kept_rows r.desk) G) }
    ensures reads { ReadsOnly S.Store conn.old conn.new }
{
    match replay(alloc, conn, rules, greatest) {
        Ok(replayed) => Some(replayed),
        Err(_) => None,
    }
}
