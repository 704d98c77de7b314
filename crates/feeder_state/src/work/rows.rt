//! The work, made from rows.

ghost use Rattle.std.specs.Prelude.{◌≡◌, IfOk};
ghost use Rattle.std.specs.List.{list_any};
ghost use Rattle.desk_types.specs.Id.{Name, same, by_name};
ghost use Rattle.desk_types.specs.History.{History};
ghost use Rattle.desk_types.specs.Work.{in_work_on, is_placed_on};
ghost use Rattle.feeder_state.specs.Restored.{AreRowsOf, group_at};
ghost use Rattle.feeder_state.specs.Work.{IsWork, running_at, is_placed_at};

use super::{Work, place};
use crate::groups::{Group, gather};
use crate::placed::PlacedNames;
use desk_types::{Designator, Id};
use state_rows::RowSet;
use std::alloc::{AllocError, Global};
use std::collections::BTreeMap;

/// The board that the rows have in work on each machine.
pub fn running_of(alloc: Global, rows: &RowSet) -> Result<BTreeMap<Id, Id>, AllocError>
    ensures { (H : History) → AreRowsOf H rows.now → (m : Name)
        → IfOk result (λ running. running_at running m ≡ in_work_on H m) }
{
    let mut running = BTreeMap::new(alloc);
    for (board, row) in rows.boards() {
        if let Some(machine) = row.machine {
            running.insert(machine, *board)?;
        }
    }
    Ok(running)
}

fn designators_of(
    alloc: Global,
    rows: &RowSet,
) -> Result<BTreeMap<Id, Group<Designator>>, AllocError>
    ensures { (H : History) → AreRowsOf H rows.now → (b d : Name)
        → IfOk result
        (λ groups. list_any (same d) (group_at by_name groups b) ≡ is_placed_on H b d) }
{
    let mut groups = BTreeMap::new(alloc);
    for (_, row) in rows.placements() {
        gather(alloc, &mut groups, row.board, row.designator)?;
    }
    Ok(groups)
}

/// Returns the designators placed on each board, from the rows.
pub fn placed_of(alloc: Global, rows: &RowSet) -> Result<BTreeMap<Id, PlacedNames>, AllocError>
    ensures { (H : History) → AreRowsOf H rows.now → (b d : Name)
        → IfOk result (λ placed. is_placed_at placed b d ≡ is_placed_on H b d) }
{
    let groups = designators_of(alloc, rows)?;
    let mut placed = BTreeMap::new(alloc);
    for (board, group) in &groups {
        place(alloc, &mut placed, board, group.items.as_slice())?;
    }
    Ok(placed)
}

/// The work of the rows.
pub fn work_of(alloc: Global, rows: &RowSet) -> Result<Work, AllocError>
    ensures { (H : History) → AreRowsOf H rows.now → IfOk result (IsWork H) }
{
    let running = running_of(alloc, rows)?;
    let placed = placed_of(alloc, rows)?;
    Ok(Work { running, placed })
}
