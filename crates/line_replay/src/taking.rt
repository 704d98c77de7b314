//! Rows taken one after another, by number.

ghost use Rattle.std.specs.Prelude.{◌≡◌, ◌==◌, ◌+◌, ◌≤◌, ◌⊎◌, ⊤, ℕ, true, IfOk, IfErr, OnOk, length};
ghost use Rattle.std.specs.List.{list_any};
ghost use Rattle.sqlite.specs.State.{HasCleanDisk};
ghost use Rattle.sqlite.specs.Held.{state};
ghost use Rattle.desk_types.specs.declared.command.Entry.{Entry};
ghost use Rattle.desk_types.specs.declared.limits.TheConstants.{MOST_ENTRIES};
ghost use Rattle.desk_types.specs.declared.rules.Rules.{Rules};
ghost use Rattle.desk_types.specs.History.{Basis};
ghost use Rattle.desk_types.specs.Desk.{HasRoom};
ghost use Rattle.line_tables.specs.Rows.{accepted_in};
ghost use Rattle.line_tables.specs.Calls.{Reads, is_before};
ghost use Rattle.line_tables.specs.Frames.{ReadsOnly};
ghost use Rattle.line_replay.specs.Judging.{GoesOn};
ghost use Rattle.line_replay.specs.declared.fault.ReplayFault.TheVariants.{NotLawful, Unavailable};
ghost use Rattle.line_replay.specs.Expected.{kept_with};
ghost use Rattle.line_replay.specs.Replay.{IsFaultOf, IsNumbered, IsStuck, StandsListed, Accepts, Goes, TakesAll, IsStop};

use crate::auditing::Placed;
use crate::fault::ReplayFault;
use crate::judging::{Taken, accept_row};
use crate::placed::look_up;
use crate::row_fault::RowFault;
use desk_types::{RowEdits, Rules};
use line_tables::{count, is_repeat, least_number, row_at};
use sqlite::{Alter, Connection, Row};
use state_rows::{KeepsRows, TraceLists};
use std::alloc::Global;

/// Requires that the least number is 1, if there is a row.
pub fn least_is_one<S: Alter>(conn: &mut Connection<S>) -> Result<(), ReplayFault>
    ensures ok { HasCleanDisk (state S.Store conn.new)
        → OnOk result (Reads (state S.Store conn.old) (λ db. IsNumbered (accepted_in db))) }
    ensures err { HasCleanDisk (state S.Store conn.new)
        → IfErr result (λ f. (rules : Rules) (greatest : ℕ)
        → IsFaultOf rules greatest (state S.Store conn.old) f) }
    ensures reads { ReadsOnly S.Store conn.old conn.new }
{
    let least = least_number(conn)?;
    match least {
        None => Ok(()),
        Some(1) => Ok(()),
        Some(_) => Err(ReplayFault::NotLawful(1)),
    }
}

/// Requires this number of rows.
pub fn are_all<S: Alter>(conn: &mut Connection<S>, taken: u32) -> Result<bool, ReplayFault>
    ensures counted { HasCleanDisk (state S.Store conn.new)
        → IfOk result (λ are. Reads (state S.Store conn.old)
        (λ db. are ≡ (taken == length (accepted_in db)))) }
    ensures err { IfErr result (λ f. f ≡ Unavailable) }
    ensures reads { ReadsOnly S.Store conn.old conn.new }
{
    Ok(count(conn)? == u64::from(taken))
}

/// Takes row after row, up to the greatest number, into a new desk with its trace indexes, and looks up their
/// placements. Returns the desk, its indexes, the number of rows, and the result of the look-ups.
pub fn take_rows<S: Alter, D: KeepsRows + Drop>(
    alloc: Global,
    conn: &mut Connection<S>,
    rules: Rules,
    greatest: u32,
) -> Result<(D, TraceLists, u32, Placed), ReplayFault>
    requires bound { greatest ≤ MOST_ENTRIES }
    ensures taken { IfOk result (λ r. TakesAll (StandsListed D.Stands) rules greatest
        (HasCleanDisk (state S.Store conn.new)) (state S.Store conn.old) (r.0, r.1)
        (kept_with (D.kept_rows r.0) r.3) r.2) }
    ensures err { HasCleanDisk (state S.Store conn.new)
        → IfErr result (λ f. (f ≡ Unavailable)
        ⊎ ((n : ℕ) × (f ≡ NotLawful n)
        × IsStop rules greatest (state S.Store conn.old) n)) }
    ensures reads { ReadsOnly S.Store conn.old conn.new }
{
    let mut desk = D::fresh(alloc, rules);
    let mut lists = TraceLists::new(alloc);
    let _empty = desk.rows();
    let mut placed = Placed {
        all: true,
        count: 0,
        end: Some(0),
    };
    for number in 0..greatest {
        let taken = take_row(alloc, conn, &mut desk, &mut lists, &mut placed, number + 1)?;
        if !taken {
            return Ok((desk, lists, number, placed));
        }
    }
    Ok((desk, lists, greatest, placed))
}

fn take_row<S: Alter, D: KeepsRows>(
    alloc: Global,
    conn: &mut Connection<S>,
    desk: &mut D,
    lists: &mut TraceLists,
    placed: &mut Placed,
    number: u32,
) -> Result<bool, ReplayFault>
    requires room { HasRoom D.Stands desk.old 1 }
    ensures ok { (B : Basis) → StandsListed D.Stands (desk.old, lists.old) B
        → length B.history + 1 ≡ number
        → IfOk result (Goes (StandsListed D.Stands) B (HasCleanDisk (state S.Store conn.new))
        (state S.Store conn.old) (kept_with (D.kept_rows desk.old) placed.old)
        (desk.new, lists.new) (kept_with (D.kept_rows desk.new) placed.new)) }
    ensures err { (B : Basis) → D.Stands desk.old B → length B.history + 1 ≡ number
        → HasCleanDisk (state S.Store conn.new)
        → IfErr result (λ f. (f ≡ Unavailable)
        ⊎ ((f ≡ NotLawful number)
        × Reads (state S.Store conn.old)
        (λ db. IsStuck B.rules B.history (accepted_in db)))) }
    ensures reads { ReadsOnly S.Store conn.old conn.new }
{
    let found = row_at(conn, number)?;
    match found {
        Some(row) => {
            let edits = accept_first(alloc, conn, desk, lists, number, &row)?;
            look_up(alloc, conn, placed, u64::from(number), edits.as_slice())?;
            Ok(true)
        }
        None => Ok(false),
    }
}

/// Accepts the command of the row if no row of a lower number has its UniqueID. Returns its edits.
fn accept_first<S: Alter, D: KeepsRows>(
    alloc: Global,
    conn: &mut Connection<S>,
    desk: &mut D,
    lists: &mut TraceLists,
    number: u32,
    row: &Row,
) -> Result<RowEdits, ReplayFault>
    requires room { HasRoom D.Stands desk.old 1 }
    ensures ok { (B : Basis) → StandsListed D.Stands (desk.old, lists.old) B
        → length B.history + 1 ≡ number
        → IfOk result (λ edits. Accepts (StandsListed D.Stands) B
        (HasCleanDisk (state S.Store conn.new)) (state S.Store conn.old) number row.now
        (desk.new, lists.new) edits (D.kept_rows desk.old) (D.kept_rows desk.new)) }
    ensures err { (B : Basis) → D.Stands desk.old B → length B.history + 1 ≡ number
        → HasCleanDisk (state S.Store conn.new)
        → IfErr result (λ f. (f ≡ Unavailable)
        ⊎ ((f ≡ NotLawful number)
        × ((e : Entry) → GoesOn B.rules B.history row.now e
        → Reads (state S.Store conn.old)
        (λ db. list_any (is_before e.stamped.uid number) (accepted_in db) ≡ true)))) }
    ensures reads { ReadsOnly S.Store conn.old conn.new }
{
    match accept_row(alloc, desk, lists, number, row) {
        Ok(Taken { uid, edits }) => {
            let repeated = is_repeat(conn, uid.as_str(), number)?;
            if repeated {
                return Err(ReplayFault::NotLawful(number));
            }
            Ok(edits)
        }
        Err(RowFault::NotLawful) => Err(ReplayFault::NotLawful(number)),
        Err(RowFault::NoMemory) => Err(ReplayFault::Unavailable),
    }
}
