//! All pieces in doubt.

ghost use Rattle.std.specs.Prelude.{◌≡◌, ◌++◌, ℕ, Bool, Option, filter_map, length, map, true, IfOk, OnOk};
ghost use Rattle.std.specs.Option.{option_to_list};
ghost use Rattle.desk_types.specs.declared.placement.Placement.{Placement as Placed};
ghost use Rattle.desk_types.specs.Placements.{placements_of};
ghost use Rattle.line_book.specs.Restored.{history_of};
ghost use Rattle.line_doubt.specs.Order.{notes_rise, pieces_rise};
ghost use Rattle.line_doubt.specs.Reasons.{AreExplained, doubt_of, first_reason};

use crate::entries::{boundaries_by, unsettled_by};
use crate::late::late_by;
use crate::reason::{Doubt, Reason};
use crate::splices::are_near;
use desk_types::{Placement, Stamped};
use line_book::Note;
use std::alloc::{AllocError, Global};

/// Returns the pieces in doubt with a tolerance of so many pieces at each splice, in their order,
/// each with its first reason: an entry of the slot, a boundary, a late message, a splice.
///
/// `placed` has all pieces of the commands, and both lists are in the order of the history.
pub fn doubtful(
    alloc: Global,
    commands: &[Stamped],
    book: &[Note],
    placed: &[Placement],
    within: u32,
) -> Result<Vec<Doubt>, AllocError>
    requires book { notes_rise (length commands.now) book.now ≡ true }
    requires placed { pieces_rise (length commands.now) placed.now ≡ true }
    ensures { placed.now ≡ placements_of (history_of commands.now)
        → IfOk result (λ found.
        AreExplained (history_of commands.now) book.now within found.items) }
{
    let entries = unsettled_by(alloc, commands, book, placed)?;
    let boundaries = boundaries_by(alloc, book, placed)?;
    let late = late_by(alloc, commands, placed)?;
    let near = are_near(alloc, commands, placed, within)?;
    explained(alloc, placed, &entries, &boundaries, &late, &near)
}

/// Returns the pieces for which one of the lists has a reason, with the first.
fn explained(
    alloc: Global,
    placed: &[Placement],
    entries: &[Option<u64>],
    boundaries: &[Option<u64>],
    late: &[Option<u64>],
    near: &[bool],
) -> Result<Vec<Doubt>, AllocError>
    requires entries { length entries.now ≡ length placed.now }
    requires boundaries { length boundaries.now ≡ length placed.now }
    requires late { length late.now ≡ length placed.now }
    requires near { length near.now ≡ length placed.now }
    ensures { (f g h : Placed → Option ℕ) (k : Placed → Bool) → entries.now ≡ map f placed.now
        → boundaries.now ≡ map g placed.now → late.now ≡ map h placed.now
        → near.now ≡ map k placed.now
        → IfOk result (λ found. found.items
        ≡ filter_map (λ p. doubt_of p (first_reason (f p) (g p) (h p) (k p))) placed.now) }
{
    let mut found = Vec::new(alloc);
    for i in 0..placed.len() {
        let reason = first_reason(entries[i], boundaries[i], late[i], near[i]);
        keep(&mut found, &placed[i], reason)?;
    }
    Ok(found)
}

fn first_reason(
    entry: Option<u64>,
    boundary: Option<u64>,
    late: Option<u64>,
    near: bool,
) -> Option<Reason>
    ensures { result ≡ first_reason entry boundary late near }
{
    if let Some(number) = entry {
        return Some(Reason::Entry { number });
    }
    if let Some(number) = boundary {
        return Some(Reason::Boundary { number });
    }
    if let Some(number) = late {
        return Some(Reason::Late { number });
    }
    near.then_some(Reason::Splice)
}

fn keep(found: &mut Vec<Doubt>, piece: &Placement, reason: Option<Reason>) -> Result<(), AllocError>
    ensures { OnOk result
        (found.new.items ≡ found.old.items ++ option_to_list (doubt_of piece.now reason)) }
{
    if let Some(reason) = reason {
        found.push(Doubt {
            piece: *piece,
            reason,
        })?;
    }
    Ok(())
}
