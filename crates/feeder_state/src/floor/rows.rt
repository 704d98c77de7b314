//! The shop floor, made from rows.

ghost use Rattle.std.specs.Prelude.{◌≡◌, Some, ◌++◌, ◌∷◌, [], if◌then◌else◌, ◌&&◌, IfOk, OnOk};
ghost use Rattle.desk_types.specs.Id.{Name, same};
ghost use Rattle.desk_types.specs.History.{History};
ghost use Rattle.desk_types.specs.Pieces.{live_on};
ghost use Rattle.feeder_state.specs.Tape.{tape_at};
ghost use Rattle.feeder_state.specs.Floor.{IsFloor};
ghost use Rattle.feeder_state.specs.Restored.{AreRowsOf};

use crate::floor::Floor;
use crate::resting::resting_of;
use crate::tape::Tape;
use desk_types::{Id, MountRow};
use state_rows::RowSet;
use std::alloc::{AllocError, Global};
use std::collections::{BTreeMap, VecDeque};

fn join(
    alloc: Global,
    tapes: &mut BTreeMap<(Id, Id), Tape>,
    row: &MountRow,
) -> Result<(), AllocError>
    ensures { (m s : Name)
        → OnOk result
        (tape_at tapes.new m s
        ≡ (if same row.now.machine m && same row.now.slot s
        then tape_at tapes.old m s ++ row.now.reel ∷ []
        else tape_at tapes.old m s)) }
{
    let key = (row.machine, row.slot);
    if let Some(tape) = tapes.get_mut(&key) {
        tape.reels.push_back(row.reel)?;
        return Ok(());
    }
    let mut reels = VecDeque::new(alloc);
    reels.push_back(row.reel)?;
    tapes.insert(key, Tape { reels })?;
    Ok(())
}

/// The live reels of the slots of the rows.
fn tapes_of(alloc: Global, rows: &RowSet) -> Result<BTreeMap<(Id, Id), Tape>, AllocError>
    ensures { (H : History) → AreRowsOf H rows.now → (m s : Name)
        → IfOk result (λ tapes. tape_at tapes m s ≡ live_on H m s) }
{
    let mut tapes = BTreeMap::new(alloc);
    for (_, row) in rows.mounts() {
        join(alloc, &mut tapes, row)?;
    }
    Ok(tapes)
}

/// The floor of the rows.
pub fn floor_of(alloc: Global, rows: &RowSet) -> Result<Floor, AllocError>
    ensures { (H : History) → AreRowsOf H rows.now → IfOk result (IsFloor H) }
{
    let tapes = tapes_of(alloc, rows)?;
    let resting = resting_of(alloc, rows)?;
    Ok(Floor { tapes, resting })
}
