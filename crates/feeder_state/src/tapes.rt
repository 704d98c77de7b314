//! The live reels of slots.

ghost use Rattle.std.specs.Prelude.{◌≡◌, not, ◌&&◌, ◌==◌};
ghost use Rattle.std.specs.List.{list_any, filter, IsDistinct};
ghost use Rattle.desk_types.specs.Id.{Name, same};
ghost use Rattle.feeder_state.specs.Tape.{tape_at};
ghost use Rattle.feeder_state.specs.Rows.{left_at};
ghost use Rattle.feeder_state.specs.Spending.{is_spent_by, empties};

use crate::tape::Tape;
use desk_types::{Id, Purpose, Take};
use state_rows::{RowEdit, RowSet};
use std::collections::{BTreeMap, VecDeque};

/// Removes a reel from the reels of a slot, where it occurs at most once. It is usually the first.
fn remove(tape: &mut VecDeque<Id>, reel: &Id)
    requires { IsDistinct same tape.old.items }
    ensures { tape.new.items ≡ filter (λ r. not (same reel.now r)) tape.old.items }
{
    match tape.front() {
        Some(first) if *first == *reel => {
            tape.pop_front();
        }
        _ => tape.retain(|other| *other != *reel),
    }
}

fn drop_reel(tapes: &mut BTreeMap<(Id, Id), Tape>, machine: Id, slot: Id, reel: &Id)
    requires { IsDistinct same (tape_at tapes.old machine slot) }
    ensures { (m s : Name)
        → tape_at tapes.new m s ≡ filter
        (λ r. not ((same machine m && same slot s) && same reel.now r))
        (tape_at tapes.old m s) }
{
    if let Some(tape) = tapes.get_mut(&(machine, slot)) {
        remove(&mut tape.reels, reel);
    }
}

/// Whether the reel has no pieces left.
pub fn is_spent(rows: &RowSet, reel: &Id) -> bool
    ensures { result ≡ (left_at rows.now reel.now == 0) }
{
    match rows.reel(reel) {
        Some(row) => row.remaining == 0,
        None => true,
    }
}

fn drop_spent(rows: &RowSet, tapes: &mut BTreeMap<(Id, Id), Tape>, take: &Take)
    requires { (m s : Name) → IsDistinct same (tape_at tapes.old m s) }
    ensures { (m s : Name)
        → tape_at tapes.new m s ≡ filter (λ r. not (is_spent_by (left_at rows.now) m s r take.now))
        (tape_at tapes.old m s) }
{
    if !is_spent(rows, &take.reel) {
        return;
    }
    match take.purpose {
        Purpose::Placed { machine, slot, .. } => drop_reel(tapes, machine, slot, &take.reel),
        Purpose::Rejected { machine, slot } => drop_reel(tapes, machine, slot, &take.reel),
        Purpose::Counted => {}
    }
}

fn empties(edit: &RowEdit) -> bool
    ensures { result ≡ empties edit.now }
{
    match edit {
        RowEdit::PutReel(row) => row.remaining == 0,
        _ => false,
    }
}

/// Whether an edit leaves a reel without pieces.
pub fn spends(edits: &[RowEdit]) -> bool
    ensures { result ≡ list_any empties edits.now }
{
    edits.iter().any(|edit| empties(edit))
}

/// Takes the reels that takes spent off their slots.
pub fn drop_all_spent(rows: &RowSet, tapes: &mut BTreeMap<(Id, Id), Tape>, takes: &[Take])
    // A reel that stood twice on a slot would be taken off once.
    requires { (m s : Name) → IsDistinct same (tape_at tapes.old m s) }
    ensures { (m s : Name)
        → tape_at tapes.new m s ≡ filter
        (λ r. not (list_any (is_spent_by (left_at rows.now) m s r) takes.now))
        (tape_at tapes.old m s) }
{
    for take in takes {
        drop_spent(rows, tapes, take);
    }
}
