//! A row, judged again by a desk.

ghost use Rattle.std.specs.Prelude.{◌≡◌, ◌+◌, ◌⊎◌, IfOk, IfErr, ◌∷◌, length};
ghost use Rattle.desk_types.specs.declared.command.Entry.{Entry};
ghost use Rattle.desk_types.specs.History.{Basis};
ghost use Rattle.desk_types.specs.Desk.{HasRoom};
ghost use Rattle.desk_types.specs.Edits.{with_edits};
ghost use Rattle.line_replay.specs.declared.row_fault.RowFault.TheVariants.{NotLawful, NoMemory};
ghost use Rattle.line_replay.specs.Judging.{GoesOn, Lead};
ghost use Rattle.state_rows.specs.Kept.{tables_in, but_placements};
ghost use Rattle.state_rows.specs.Lists.{IsListed};

use crate::reading::{says, stamped_of};
use crate::row_fault::RowFault;
use desk_answers::accepted_text;
use desk_types::{Id, JudgeFault, RowEdits};
use sqlite::Row;
use state_rows::{KeepsRows, TraceLists, rows_of};
use std::alloc::Global;

/// The UniqueID of an accepted command, and its edits of the state tables.
pub struct Taken {
    pub uid: Id,
    pub edits: RowEdits,
}

/// Accepts the command of the row again, provided that it has this number and the row is exactly what accepting it
/// gives. Adds it to the indexes, and returns its UniqueID and its edits. The caller compares UniqueIDs and the
/// greatest number. After an `Err` the desk and the indexes are unknown: drop them.
pub fn accept_row<D: KeepsRows>(
    alloc: Global,
    desk: &mut D,
    lists: &mut TraceLists,
    number: u32,
    row: &Row,
) -> Result<Taken, RowFault>
    requires room { HasRoom D.Stands desk.old 1 }
    ensures ok { (B : Basis) → D.Stands desk.old B → length B.history + 1 ≡ number
        → IfOk result (λ it. (e : Entry) × (e.stamped.uid ≡ it.uid)
        × D.Stands desk.new (record B { history = e ∷ B.history })
        × GoesOn B.rules B.history row.now e × Lead it.edits B.history e
        × (IsListed lists.old B.history → IsListed lists.new (e ∷ B.history))) }
    // A row is refused only if no entry at all could have it here.
    ensures err { (B : Basis) → D.Stands desk.old B → length B.history + 1 ≡ number
        → IfErr result (λ f. (f ≡ NoMemory)
        ⊎ ((f ≡ NotLawful) × ((e : Entry) → GoesOn B.rules B.history row.now e → ⊥))) }
    ensures rows { IfOk result (λ it. tables_in (D.kept_rows desk.new)
        ≡ but_placements (with_edits it.edits (tables_in (D.kept_rows desk.old)))
        (tables_in (D.kept_rows desk.old))) }
{
    let Some(stamped) = stamped_of(alloc, row)? else {
        return Err(RowFault::NotLawful);
    };
    stamped.ranges_hold();
    match desk.judge(&stamped) {
        Ok(change) => {
            let uid = stamped.uid;
            let minute = change.minute.get();
            let entry_number = number as u64;
            let text = accepted_text(alloc, entry_number, &uid, &change.detail)?;
            if !says(row, entry_number, minute, &text) {
                return Err(RowFault::NotLawful);
            }
            let edits = rows_of(alloc, &*desk, &change, entry_number)?;
            lists.note(number, &change)?;
            desk.settle_edits(change, edits.as_slice())?;
            Ok(Taken { uid, edits })
        }
        Err(JudgeFault::Refused(_)) => Err(RowFault::NotLawful),
        Err(JudgeFault::NoMemory) => Err(RowFault::NoMemory),
    }
}
