//! Whether a new desk carries on an old one.

ghost use Rattle.std.specs.Prelude.{◌≡◌, IfNone, IfSome};
ghost use Rattle.desk_types.specs.Id.{Name};
ghost use Rattle.desk_types.specs.History.{History};
ghost use Rattle.desk_types.specs.Pieces.{live_on};
ghost use Rattle.feeder_state.specs.State.{IsState};
ghost use Rattle.desk_laws.specs.Chain.{Carries};
ghost use Rattle.chain_check.specs.Difference.{IsDifference, Refutes};

use crate::carried::first_reel;
use crate::difference::Difference;
use crate::sheets::first_sheet;
use crate::tables::tables_difference;
use crate::tapes::slot_in;
use desk_types::Desk;
use feeder_state::StateDesk;
use state_rows::KeepsRows;

/// Returns the first slot that doesn't have the same live reels on both desks.
fn slot_difference(old: &StateDesk, new: &StateDesk) -> Option<Difference>
    ensures same { (H H' : History) → IsState H old.now → IsState H' new.now → (machine slot : Name)
        → IfNone result (live_on H machine slot ≡ live_on H' machine slot) }
    ensures differs { (H H' : History) → IsState H old.now → IsState H' new.now
        → IfSome result (IsDifference H H') }
{
    if let Some(key) = slot_in(old.rows(), old, old, new) {
        return Some(Difference::Slot {
            machine: key.0,
            slot: key.1,
        });
    }
    if let Some(key) = slot_in(new.rows(), new, old, new) {
        return Some(Difference::Slot {
            machine: key.0,
            slot: key.1,
        });
    }
    None
}

fn find(old: &StateDesk, new: &StateDesk) -> Option<Difference>
    ensures carries { (H H' : History) → IsState H old.now → IsState H' new.now
        → IfNone result (Carries H H') }
    ensures differs { (H H' : History) → IsState H old.now → IsState H' new.now
        → IfSome result (IsDifference H H') }
{
    let of_old = old.minute();
    let of_new = new.minute();
    if of_old != of_new {
        return Some(Difference::Minute {
            old: of_old,
            new: of_new,
        });
    }
    let old_rows = old.rows();
    let new_rows = new.rows();
    if let Some(found) = tables_difference(old_rows, new_rows) {
        return Some(found);
    }
    if let Some((product, machine)) = first_sheet(old_rows, new_rows, old, new) {
        return Some(Difference::Sheet { product, machine });
    }
    if let Some(found) = first_reel(old_rows, new_rows, old, new) {
        return Some(found);
    }
    if let Some(found) = slot_difference(old, new) {
        return Some(found);
    }
    None
}

/// Returns the first difference between the desks, or `None` if the new one carries on the old one.
/// A reel of which the new desk received other pieces than were left counts as one.
pub fn first_difference(old: &StateDesk, new: &StateDesk) -> Option<Difference>
    // So all that `Carries` asks for was compared, also the pieces of each reel's receipt.
    ensures carries { (H H' : History) → IsState H old.now → IsState H' new.now
        → IfNone result (Carries H H') }
    ensures differs { (H H' : History) → IsState H old.now → IsState H' new.now
        → IfSome result (IsDifference H H') }
    // A difference that carrying on allows, such as a spent reel left behind, is no result.
    ensures refutes { (H H' : History) → IsState H old.now → IsState H' new.now
        → IfSome result (Refutes H H') }
{
    find(old, new)
}
