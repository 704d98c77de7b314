//! The desk's views of reels and of the slots of machines.

ghost use Rattle.std.specs.Prelude.{◌≡◌, ◌++◌, true, is_some, Some, map, All, IfOk, OnOk};
ghost use Rattle.std.specs.List.{flat_map, enumerate_from};
ghost use Rattle.desk_types.specs.History.{History, now_of};
ghost use Rattle.desk_types.specs.View.{has_sheet as is_on_sheet, reel_view, mount_of, slot_mounts, loaded_slots, mounts_on};
ghost use Rattle.feeder_state.specs.Floor.{IsFloor};
ghost use Rattle.desk_types.specs.Row.{IsRowOf};
ghost use Rattle.desk_types.specs.Setup.{receipt_of};
ghost use Rattle.feeder_state.specs.Rows.{AreRowsAt};

use crate::floor::Floor;
use crate::tape::Tape;
use desk_types::{Id, Listing, Minute, Mount, Mounts, ReelRow, ReelView};
use judging::lives::life_left;
use state_rows::RowSet;
use std::alloc::{AllocError, Global};

/// Returns the reel at this desk minute, if it was received.
pub fn reel_view_at(rows: &RowSet, minute: Minute, name: &Id) -> Option<ReelView>
    ensures { (H : History) → AreRowsAt H (Some minute) rows.now → result ≡ reel_view H name.now }
{
    let row = rows.reel(name)?;
    let left = life_left(row, minute);
    Some(ReelView::of_row(row, rows.found_on(name), left, rows.is_mounted(name)))
}

/// Returns the reel at the desk minute, if it was received. Takes no memory.
pub fn reel_view(rows: &RowSet, minute: Option<Minute>, name: &Id) -> Option<ReelView>
    ensures { (H : History) → AreRowsAt H minute rows.now → result ≡ reel_view H name.now }
{
    match minute {
        Some(minute) => reel_view_at(rows, minute, name),
        None => None,
    }
}

fn mount_of(row: &ReelRow, minute: Minute, slot: &Id, position: u64, name: &Id) -> Mount
    ensures { (H : History) → IsRowOf H name.now row.now → now_of H ≡ minute
        → result ≡ mount_of H slot.now (position, name.now) }
{
    Mount {
        slot: *slot,
        position,
        reel: *name,
        part: row.part,
        lot: row.lot,
        remaining: row.remaining,
        left: life_left(row, minute),
    }
}

/// Appends the reels of a tape, the front first. Each of them was received.
fn put_tape(
    mounts: &mut Vec<Mount>,
    rows: &RowSet,
    minute: Minute,
    slot: &Id,
    tape: &Tape,
) -> Result<(), AllocError>
    ensures { (H : History) → AreRowsAt H (Some minute) rows.now
        → All (λ name. is_some (receipt_of H name) ≡ true) tape.now
        → OnOk result (mounts.new.items
        ≡ mounts.old.items ++ map (mount_of H slot.now) (enumerate_from 1 tape.now)) }
{
    for index in 0..tape.reels.len() {
        let name = &tape.reels[index];
        if let Some(row) = rows.reel(name) {
            mounts.push(mount_of(row, minute, slot, index as u64 + 1, name))?;
        }
    }
    Ok(())
}

/// Goes over the slots of all machines.
fn put_slots(
    mounts: &mut Vec<Mount>,
    rows: &RowSet,
    floor: &Floor,
    minute: Minute,
    machine: &Id,
) -> Result<(), AllocError>
    ensures { (H : History) → AreRowsAt H (Some minute) rows.now → IsFloor H floor.now
        → OnOk result
        (mounts.new.items ≡ mounts.old.items
        ++ flat_map (slot_mounts H machine.now) (loaded_slots H machine.now)) }
{
    for (key, tape) in &floor.tapes {
        if key.0 == *machine {
            put_tape(mounts, rows, minute, &key.1, tape)?;
        }
    }
    Ok(())
}

/// Returns the live reels of the machine's slots, by slot and then by position, or `None` if no sheet names the
/// machine, as `has_sheet` says.
pub fn slots_of(
    alloc: Global,
    rows: &RowSet,
    floor: &Floor,
    minute: Option<Minute>,
    has_sheet: bool,
    machine: &Id,
) -> Result<Option<Mounts>, AllocError>
    ensures { (H : History) → AreRowsAt H minute rows.now → IsFloor H floor.now
        → has_sheet ≡ is_on_sheet H machine.now
        → IfOk result (λ mounts. mounts ≡ mounts_on H machine.now) }
{
    if !has_sheet {
        return Ok(None);
    }
    let Some(minute) = minute else {
        return Ok(None);
    };
    let mut mounts = Vec::new(alloc);
    put_slots(&mut mounts, rows, floor, minute, machine)?;
    Ok(Some(Listing::new(mounts)))
}
