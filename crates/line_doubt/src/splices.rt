//! Pieces near a splice.

ghost use Rattle.std.specs.Prelude.{◌≡◌, [], ℕ, length, map, reverse, true, IfOk};
ghost use Rattle.desk_types.specs.declared.placement.Placement.{Placement as Placed};
ghost use Rattle.desk_types.specs.Placements.{placements_of};
ghost use Rattle.line_book.specs.Doubt.{is_near_splice};
ghost use Rattle.line_book.specs.Restored.{history_of};
ghost use Rattle.line_doubt.specs.Order.{pieces_rise};
ghost use Rattle.line_doubt.specs.Runs.{close_flags, spot_from_end, spot_of};

use crate::comparing::either;
use crate::entries::restarts_before;
use crate::runs::{Spot, are_close};
use desk_types::{Placement, Stamped};
use std::alloc::{AllocError, Global};

/// Returns for each piece whether it is one of so many last pieces of a reel, or of so many first
/// ones of the reel that is spliced to it.
pub fn are_near(
    alloc: Global,
    commands: &[Stamped],
    placed: &[Placement],
    within: u32,
) -> Result<Vec<bool>, AllocError>
    requires { pieces_rise (length commands.now) placed.now ≡ true }
    ensures each { IfOk result (λ found. length found.items ≡ length placed.now) }
    ensures near { placed.now ≡ placements_of (history_of commands.now)
        → IfOk result (λ found.
        found.items ≡ map (is_near_splice (history_of commands.now) within) placed.now) }
{
    let restarted = restarts_before(alloc, commands, placed)?;
    let last = are_last(alloc, commands.len(), placed, &restarted, within)?;
    let first = are_first(alloc, placed, &restarted, within)?;
    either(alloc, &last, &first)
}

/// Returns for each piece whether a reel before it on its tape ended within so many pieces.
fn are_first(
    alloc: Global,
    placed: &[Placement],
    restarted: &[u64],
    within: u32,
) -> Result<Vec<bool>, AllocError>
    requires { length restarted.now ≡ length placed.now }
    ensures { (r : Placed → ℕ) → restarted.now ≡ map r placed.now
        → IfOk result (λ found.
        found.items ≡ close_flags within [] (map (λ p. spot_of p (r p)) placed.now)) }
{
    let spots = spots_of(alloc, placed, restarted)?;
    are_close(alloc, &spots, within)
}

/// Returns for each piece whether a reel behind it on its tape begins within so many pieces.
fn are_last(
    alloc: Global,
    commands: usize,
    placed: &[Placement],
    restarted: &[u64],
    within: u32,
) -> Result<Vec<bool>, AllocError>
    requires { length restarted.now ≡ length placed.now }
    ensures { (r : Placed → ℕ) → restarted.now ≡ map r placed.now
        → IfOk result (λ found. found.items ≡ reverse (close_flags within []
        (reverse (map (λ p. spot_from_end commands p (r p)) placed.now)))) }
{
    let mut spots = spots_from_end(alloc, commands, placed, restarted)?;
    spots.reverse();
    let mut found = are_close(alloc, &spots, within)?;
    found.reverse();
    Ok(found)
}

fn spots_of(alloc: Global, placed: &[Placement], restarted: &[u64]) -> Result<Vec<Spot>, AllocError>
    requires { length restarted.now ≡ length placed.now }
    ensures { (r : Placed → ℕ) → restarted.now ≡ map r placed.now
        → IfOk result (λ spots. spots.items ≡ map (λ p. spot_of p (r p)) placed.now) }
{
    let mut spots = Vec::new(alloc);
    for i in 0..placed.len() {
        let piece = &placed[i];
        spots.push(Spot {
            machine: piece.machine,
            slot: piece.slot,
            reel: piece.reel,
            own: restarted[i],
            kept: piece.number,
        })?;
    }
    Ok(spots)
}

fn spots_from_end(
    alloc: Global,
    commands: usize,
    placed: &[Placement],
    restarted: &[u64],
) -> Result<Vec<Spot>, AllocError>
    requires { length restarted.now ≡ length placed.now }
    ensures { (r : Placed → ℕ) → restarted.now ≡ map r placed.now
        → IfOk result (λ spots.
        spots.items ≡ map (λ p. spot_from_end commands p (r p)) placed.now) }
{
    let mut spots = Vec::new(alloc);
    for i in 0..placed.len() {
        let piece = &placed[i];
        let own = (commands as u64).saturating_sub(piece.number);
        let kept = (commands as u64).saturating_sub(restarted[i]);
        spots.push(Spot {
            machine: piece.machine,
            slot: piece.slot,
            reel: piece.reel,
            own,
            kept,
        })?;
    }
    Ok(spots)
}
