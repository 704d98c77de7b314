//! Reels on slots, and boards.

ghost use Rattle.std.specs.Prelude.{◌≡◌, ◌++◌, [], IfOk, OnOk, unwrap_or, map, Option};
ghost use Rattle.std.specs.List.{filter_map};
ghost use Rattle.std.specs.Option.{option_to_list};
ghost use Rattle.desk_types.specs.Id.{Name};
ghost use Rattle.desk_types.specs.History.{Basis};
ghost use Rattle.desk_types.specs.Setup.{selected_on};
ghost use Rattle.state_rows.specs.EditsOf.{reel_on_slot, reels_on, board_edit};
ghost use Rattle.desk_types.specs.declared.edit.RowEdit.TheVariants.{TakeMount};

use crate::views::Views;
use desk_types::{BoardRow, Id, Mount, RowEdit};
use std::alloc::{AllocError, Global};

/// Returns the reel of a live reel's row, if it is on the slot.
fn on_slot(slot: &Id, mount: &Mount) -> Option<Id>
    ensures { result ≡ reel_on_slot slot.now mount.now }
{
    (mount.slot == *slot).then_some(mount.reel)
}

fn take_if(edits: &mut Vec<RowEdit>, reel: Option<Id>) -> Result<(), AllocError>
    ensures { OnOk result (edits.new.items ≡ edits.old.items ++ map
        (λ r. TakeMount r) (option_to_list reel)) }
{
    match reel {
        Some(reel) => {
            edits.push(RowEdit::TakeMount { reel })?;
            Ok(())
        }
        None => Ok(()),
    }
}

fn take_mounts(edits: &mut Vec<RowEdit>, slot: &Id, mounts: &[Mount]) -> Result<(), AllocError>
    ensures { OnOk result
        (edits.new.items ≡ edits.old.items ++ map
        (λ r. TakeMount r) (filter_map (reel_on_slot slot.now) mounts.now)) }
{
    for mount in mounts {
        take_if(edits, on_slot(slot, mount))?;
    }
    Ok(())
}

/// The edits of an unload.
pub fn unload<D: Views>(
    alloc: Global,
    desk: &D,
    machine: &Id,
    slot: &Id,
) -> Result<Vec<RowEdit>, AllocError>
    ensures { (B : Basis) → D.Stands desk.now B
        → IfOk result
        (λ edits. edits.items ≡ map (λ r. TakeMount r) (reels_on B.history machine.now slot.now)) }
{
    let mut edits = Vec::new(alloc);
    match desk.slots_of(machine)? {
        Some(mounts) => {
            take_mounts(&mut edits, slot, mounts.as_slice())?;
            Ok(edits)
        }
        None => Ok(edits),
    }
}

/// The edit of a board that is started or completed.
pub fn board<D: Views>(
    alloc: Global,
    desk: &D,
    machine: &Id,
    board: &Id,
    at: Option<Id>,
) -> Result<Vec<RowEdit>, AllocError>
    ensures { (B : Basis) → D.Stands desk.now B
        → IfOk result (λ edits. edits.items
        ≡ board_edit board.now at (selected_on B.history machine.now)) }
{
    let mut edits = Vec::new(alloc);
    match desk.selected(machine) {
        Some(product) => {
            edits.push(RowEdit::PutBoard(BoardRow {
                board: *board,
                product,
                machine: at,
            }))?;
            Ok(edits)
        }
        None => Ok(edits),
    }
}
