//! The reels of slots on two desks.

ghost use Rattle.std.specs.Prelude.{◌≡◌, ◌≢◌, ◌↔◌, true, false, Some, is_some, IsTrue, IfNone, IfSome, slice_get};
ghost use Rattle.desk_types.specs.declared.rules.Rules.TheVariants.{Two};
ghost use Rattle.desk_types.specs.Id.{Name};
ghost use Rattle.desk_types.specs.History.{History};
ghost use Rattle.desk_types.specs.Judged.{IsJudged};
ghost use Rattle.desk_types.specs.Pieces.{front_of, live_on};
ghost use Rattle.desk_types.specs.Tables.{tables_of};
ghost use Rattle.state_rows.specs.Kept.{tables_in, unnumbered};

use desk_types::{Id, MountRow};
use judging::Facts;
use state_rows::RowSet;

/// Returns whether the slot has the same reels in the same order on both desks.
fn same_tape<F: Facts>(old: &F, new: &F, machine: &Id, slot: &Id) -> bool
    ensures { IsTrue result
        ↔ (F.reels_on old.now machine.now slot.now ≡ F.reels_on new.now machine.now slot.now) }
{
    let count = old.reel_count(machine, slot);
    if count != new.reel_count(machine, slot) {
        return false;
    }
    for i in 0..count {
        if old.reel_at(machine, slot, i) != new.reel_at(machine, slot, i) {
            return false;
        }
    }
    true
}

/// Returns whether the reel is the slot's first one on the desk of this mount, and the slot doesn't have the same reels on
/// both desks.
fn is_changed<F: Facts>(own: &F, old: &F, new: &F, reel: &Id, mount: &MountRow) -> bool
    ensures same { result ≡ false
        → slice_get (F.reels_on own.now mount.now.machine mount.now.slot) 0 ≡ Some reel.now
        → F.reels_on old.now mount.now.machine mount.now.slot
        ≡ F.reels_on new.now mount.now.machine mount.now.slot }
    ensures differs { result ≡ true
        → F.reels_on old.now mount.now.machine mount.now.slot
        ≢ F.reels_on new.now mount.now.machine mount.now.slot }
{
    own.reel_at(&mount.machine, &mount.slot, 0) == Some(*reel)
        && !same_tape(old, new, &mount.machine, &mount.slot)
}

/// Returns the first of the slots of these mounts that doesn't have the same reels on both desks. The mounts are those of
/// `own`, one of the desks, where slots have live reels only.
pub fn slot_in<F: Facts>(mounts: &RowSet, own: &F, old: &F, new: &F) -> Option<(Id, Id)>
    // Covers the slots where `own` has a live reel, so the caller asks once for each desk.
    ensures same { (G : History) → IsJudged Two G
        → unnumbered (tables_in mounts.now) ≡ unnumbered (tables_of G)
        → ((m s : Name) → F.reels_on own.now m s ≡ live_on G m s) → (machine slot : Name)
        → IfNone result (is_some (front_of G machine slot) ≡ true
        → F.reels_on old.now machine slot ≡ F.reels_on new.now machine slot) }
    ensures differs { IfSome result (λ k. F.reels_on old.now k.0 k.1 ≢ F.reels_on new.now k.0 k.1) }
{
    for (key, row) in mounts.mounts() {
        if is_changed(own, old, new, &key.1, row) {
            return Some((row.machine, row.slot));
        }
    }
    None
}
