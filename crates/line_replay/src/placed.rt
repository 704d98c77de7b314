//! The placements of a history, looked up in their table while it is replayed.

ghost use Rattle.std.specs.Prelude.{◌≡◌, ◌≤◌, ◌+◌, ◌^◌, IfOk, IfErr, OnOk, length};
ghost use Rattle.sqlite.specs.State.{HasCleanDisk};
ghost use Rattle.sqlite.specs.Held.{state};
ghost use Rattle.line_replay.specs.declared.fault.ReplayFault.TheVariants.{Unavailable};
ghost use Rattle.line_replay.specs.Expected.{LooksUp, HoldsAsRead, ArePlacedToo, placement_by, placements_by};
ghost use Rattle.line_tables.specs.Frames.{ReadsOnly};

use crate::auditing::Placed;
use crate::fault::ReplayFault;
use crate::placements::{FoundRows, has_placements};
use desk_types::{PlacementRow, RowEdit};
use sqlite::{Alter, Connection};
use std::alloc::{AllocError, Global};

/// Looks up the placements of the entry of this number.
pub fn look_up<S: Alter>(
    alloc: Global,
    conn: &mut Connection<S>,
    placed: &mut Placed,
    number: u64,
    edits: &[RowEdit],
) -> Result<(), ReplayFault>
    ensures ok { OnOk result
        (LooksUp (HasCleanDisk (state S.Store conn.new))
        (state S.Store conn.old) edits.now placed.old placed.new) }
    ensures err { IfErr result (λ f. f ≡ Unavailable) }
    ensures reads { ReadsOnly S.Store conn.old conn.new }
{
    let placements = placements_by(alloc, edits)?;
    let rows = placements.as_slice();
    let count = sum(placed.count, rows.len())?;
    let found = are_found(conn, *placed, number, rows)?;
    *placed = Placed {
        all: found.all,
        count,
        end: found.end,
    };
    Ok(())
}

fn placements_by(alloc: Global, edits: &[RowEdit]) -> Result<Vec<PlacementRow>, AllocError>
    ensures { IfOk result (λ rows. rows.items ≡ placements_by edits.now) }
{
    let mut rows = Vec::with_capacity(alloc, edits.len())?;
    for edit in edits {
        match placement_by(edit) {
            Some(row) => rows.push(row)?,
            None => {}
        }
    }
    Ok(rows)
}

fn placement_by(edit: &RowEdit) -> Option<PlacementRow>
    ensures { result ≡ placement_by edit.now }
{
    match edit {
        RowEdit::PutPlacement(row) => Some(*row),
        _ => None,
    }
}

fn sum(placed: u64, more: usize) -> Result<u64, ReplayFault>
    ensures ok { IfOk result (λ n. n ≡ placed + more) }
    ensures err { IfErr result (λ f. f ≡ Unavailable) }
    ensures full { IfErr result (λ _. 2 ^ 64 ≤ placed + more) }
{
    match placed.checked_add(more as u64) {
        Some(n) => Ok(n),
        None => Err(ReplayFault::Unavailable),
    }
}

fn are_found<S: Alter>(
    conn: &mut Connection<S>,
    before: Placed,
    number: u64,
    rows: &[PlacementRow],
) -> Result<FoundRows, ReplayFault>
    ensures told { HasCleanDisk (state S.Store conn.new)
        → IfOk result (λ now. HoldsAsRead (state S.Store conn.old)
        (λ db. ArePlacedToo db before now.all now.end rows.now)) }
    ensures err { IfErr result (λ f. f ≡ Unavailable) }
    ensures reads { ReadsOnly S.Store conn.old conn.new }
{
    if !before.all {
        return Ok(FoundRows {
            all: false,
            end: None,
        });
    }
    if rows.is_empty() {
        return Ok(FoundRows {
            all: true,
            end: before.end,
        });
    }
    Ok(has_placements(conn, before.end, number, rows)?)
}
