//! Rows of reels.

ghost use Rattle.std.specs.Prelude.{◌≡◌, ◌≤◌, ◌∷◌, IfOk};
ghost use Rattle.desk_types.specs.History.{Basis, now_of};
ghost use Rattle.desk_types.specs.Judged.{IsJudged};
ghost use Rattle.desk_types.specs.declared.rules.Rules.TheVariants.{Two};
ghost use Rattle.desk_types.specs.Tables.{reel_row};
ghost use Rattle.desk_types.specs.Row.{opened_row, sealed_row, baked_row};
ghost use Rattle.state_rows.specs.EditsOf.{reel_edit};
ghost use Rattle.desk_types.specs.declared.edit.RowEdit.TheVariants.{PutMount};

use crate::views::Views;
use desk_types::{Id, Minute, MountRow, RowEdit};
use std::alloc::{AllocError, Global};

/// The edit of an opened reel.
pub fn open<D: Views>(
    alloc: Global,
    desk: &D,
    reel: &Id,
    minute: Minute,
) -> Result<Vec<RowEdit>, AllocError>
    ensures { (B : Basis) → D.Stands desk.now B
        → IfOk result (λ edits. edits.items
        ≡ reel_edit (opened_row minute) (reel_row B.history reel.now)) }
{
    let mut edits = Vec::new(alloc);
    match desk.reel_row(reel) {
        Some(row) => {
            edits.push(RowEdit::PutReel(row.opened(minute)))?;
            Ok(edits)
        }
        None => Ok(edits),
    }
}

/// The edit of a sealed reel.
pub fn seal<D: Views>(
    alloc: Global,
    desk: &D,
    reel: &Id,
    minute: Minute,
) -> Result<Vec<RowEdit>, AllocError>
    ensures { (B : Basis) → IsJudged Two B.history → D.Stands desk.now B → now_of B.history ≤ minute
        → IfOk result (λ edits. edits.items
        ≡ reel_edit (sealed_row minute) (reel_row B.history reel.now)) }
{
    let _ = minute.get();
    let mut edits = Vec::new(alloc);
    match desk.reel_row(reel) {
        Some(row) => {
            edits.push(RowEdit::PutReel(row.sealed(minute)))?;
            Ok(edits)
        }
        None => Ok(edits),
    }
}

/// The edit of a baked reel.
pub fn bake<D: Views>(alloc: Global, desk: &D, reel: &Id) -> Result<Vec<RowEdit>, AllocError>
    ensures { (B : Basis) → D.Stands desk.now B
        → IfOk result (λ edits. edits.items ≡ reel_edit baked_row (reel_row B.history reel.now)) }
{
    let mut edits = Vec::new(alloc);
    match desk.reel_row(reel) {
        Some(row) => {
            edits.push(RowEdit::PutReel(row.baked()))?;
            Ok(edits)
        }
        None => Ok(edits),
    }
}

/// The edits of a reel that is put onto a slot.
pub fn mount<D: Views>(
    alloc: Global,
    desk: &D,
    put: MountRow,
    minute: Minute,
) -> Result<Vec<RowEdit>, AllocError>
    ensures { (B : Basis) → D.Stands desk.now B
        → IfOk result (λ edits. edits.items
        ≡ PutMount put ∷ reel_edit (opened_row minute) (reel_row B.history put.reel)) }
{
    let mut edits = Vec::new(alloc);
    edits.push(RowEdit::PutMount(put))?;
    match desk.reel_row(&put.reel) {
        Some(row) => {
            edits.push(RowEdit::PutReel(row.opened(minute)))?;
            Ok(edits)
        }
        None => Ok(edits),
    }
}
