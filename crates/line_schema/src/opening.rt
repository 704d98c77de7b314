//! The parts of a store, read from its tables.

ghost use Rattle.std.specs.Prelude.{◌≡◌, ◌≢◌, ◌≤◌, ◌⊎◌, ℕ, pos, IfOk, IfErr};
ghost use Rattle.sqlite.specs.State.{HasCleanDisk};
ghost use Rattle.sqlite.specs.Held.{state};
ghost use Rattle.desk_types.specs.declared.limits.TheConstants.{MOST_ENTRIES};
ghost use Rattle.desk_types.specs.History.{History};
ghost use Rattle.line_tables.specs.Calls.{Reads};
ghost use Rattle.line_tables.specs.Rows.{version_of};
ghost use Rattle.line_tables.specs.Frames.{ReadsOnly};
ghost use Rattle.line_replay.specs.Expected.{AreKept};
ghost use Rattle.line_schema.specs.declared.fault.OpenFault.TheVariants as Fault;
ghost use Rattle.line_schema.specs.Opening.{IsVersion, IsFaultBy, IsNamedBy, IsOfVersion, IsToldBy, IsOpened, IsGreatest};

use crate::fault::OpenFault;
use desk_types::{MOST_ENTRIES, Rules};
use line_replay::{Replayed, audit, replay};
use line_tables::{Version, are_apart, find_version, has_accepted, has_state, has_version};
use line_traces::Working;
use sqlite::{Alter, Connection};
use state_rows::KeepsRows;
use std::alloc::Global;

/// The working state of a history, the history's length, and the greatest number.
pub struct Opened<D: KeepsRows + Drop> {
    pub working: Working<D>,
    pub count: u32,
    pub greatest: u32,
}

/// Reads the version, which must be that of the rules, replays the history by them, and compares
/// the other tables with the history's.
pub fn read_tables<S: Alter, D: KeepsRows + Drop>(
    alloc: Global,
    conn: &mut Connection<S>,
    rules: Rules,
) -> Result<Opened<D>, OpenFault>
    ensures ok { IfOk result (λ r. (H : History)
        × IsOpened D.Stands (HasCleanDisk (state S.Store conn.new))
        (state S.Store conn.old) rules r H
        × AreKept (D.kept_rows r.working.desk) H) }
    ensures named { IfOk result (λ _. IsNamedBy rules (state S.Store conn.old)) }
    // Without a condition on the disk: what the fault names was there to be read.
    ensures told { IfErr result (IsToldBy rules (state S.Store conn.old)) }
    // NotBlank is a fault of `create` alone.
    ensures never { IfErr result (λ f. f ≢ Fault.NotBlank) }
    ensures err { HasCleanDisk (state S.Store conn.new)
        → IfErr result (IsFaultBy rules (state S.Store conn.old)) }
    ensures reads { ReadsOnly S.Store conn.old conn.new }
{
    let whole = has_accepted(conn) && has_state(conn, rules);
    if !has_version(conn) {
        return Err(OpenFault::NotADesk);
    }
    let greatest = read_greatest(conn, rules)?;
    if !whole {
        return Err(OpenFault::NotADesk);
    }
    let Replayed {
        desk,
        lists,
        count,
        placed,
    } = replay::<S, D>(alloc, conn, rules, greatest)?;
    let apart = are_apart(conn, rules)?;
    if !apart {
        return Err(OpenFault::Unavailable);
    }
    let other = audit(alloc, conn, rules, desk.rows(), placed)?;
    match other {
        None => Ok(Opened {
            working: Working { desk, lists },
            count,
            greatest,
        }),
        Some(table) => Err(OpenFault::TableDiffers(table)),
    }
}

/// Returns the greatest number, if the tables are of the version of the rules.
fn read_greatest<S: Alter>(conn: &mut Connection<S>, rules: Rules) -> Result<u32, OpenFault>
    ensures ok { HasCleanDisk (state S.Store conn.new)
        → IfOk result
        (λ greatest. Reads (state S.Store conn.old)
        (λ db. IsVersion db (pos (version_of rules)) greatest)) }
    ensures bound { IfOk result (λ greatest. greatest ≤ MOST_ENTRIES) }
    ensures of_version { IfErr result IsOfVersion }
    ensures never { IfErr result (λ f. f ≢ Fault.NotBlank) }
    ensures err { HasCleanDisk (state S.Store conn.new)
        → IfErr result (IsFaultBy rules (state S.Store conn.old)) }
    ensures reads { ReadsOnly S.Store conn.old conn.new }
{
    let found = find_version(conn)?;
    match found {
        Some(version) => greatest_of(&version, rules),
        None => Err(OpenFault::NotADesk),
    }
}

fn greatest_of(version: &Version, rules: Rules) -> Result<u32, OpenFault>
    ensures ok { IfOk result (λ greatest. (version.now.number ≡ pos (version_of rules))
        × IsGreatest version.now.greatest greatest) }
    ensures err { IfErr result
        (λ f. ((f ≡ Fault.NotADesk) × ((greatest : ℕ) → IsGreatest version.now.greatest greatest
        → ⊥))
        ⊎ ((f ≡ Fault.OtherVersion version.now.number)
        × (version.now.number ≢ pos (version_of rules)) × (greatest : ℕ)
        × IsGreatest version.now.greatest greatest)) }
{
    let Ok(greatest) = u64::try_from(version.greatest) else {
        return Err(OpenFault::NotADesk);
    };
    if greatest < 1 || greatest > MOST_ENTRIES {
        return Err(OpenFault::NotADesk);
    }
    if version.number != number_of(rules) {
        return Err(OpenFault::OtherVersion(version.number));
    }
    Ok(greatest as u32)
}

fn number_of(rules: Rules) -> i64
    ensures { result ≡ pos (version_of rules) }
{
    match rules {
        Rules::One => 1,
        Rules::Two => 2,
    }
}
