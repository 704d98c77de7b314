//! Pieces of late messages.

ghost use Rattle.std.specs.Prelude.{◌≡◌, ◌≤◌, ◌-◌, ℕ, All, length, map, true, IfOk};
ghost use Rattle.desk_types.specs.declared.limits.TheConstants.{GREATEST_MINUTE};
ghost use Rattle.desk_types.specs.declared.placement.Placement.{Placement};
ghost use Rattle.line_doubt.specs.Late.{ask_from_end, handled_from_end, handled_marks, late_by, minutes_of};
ghost use Rattle.line_doubt.specs.Marks.{AsksRise, best_before, number_above};
ghost use Rattle.line_doubt.specs.Order.{pieces_rise};
ghost use Rattle.line_doubt.specs.Sources.{ask_of};

use crate::asking::asks_of;
use crate::best::best_before;
use crate::comparing::{first_of, numbers_above};
use crate::handling::{asks_from_end, handled_from_end, handled_marks};
use crate::minutes::{minutes_left, minutes_of, own_minutes};
use desk_types::{Placement, Stamped};
use std::alloc::{AllocError, Global};

/// Returns for each piece the number of a load, splice or unload of its slot: it and the install came
/// to the desk in another order than by their own minutes.
pub fn late_by(
    alloc: Global,
    commands: &[Stamped],
    placed: &[Placement],
) -> Result<Vec<Option<u64>>, AllocError>
    requires { pieces_rise (length commands.now) placed.now ≡ true }
    ensures numbers { IfOk result (λ found. found.items ≡ map (late_by commands.now) placed.now) }
    ensures minutes { IfOk result (λ _. All (λ m. m ≤ GREATEST_MINUTE) (minutes_of commands.now)) }
{
    let all = minutes_of(alloc, commands)?;
    let minutes = own_minutes(alloc, &all, placed)?;
    let behind = swapped_behind(alloc, commands, placed, &minutes)?;
    let before = swapped_before(alloc, commands, placed, &minutes)?;
    first_of(alloc, &behind, &before)
}

/// Returns for each piece the number of a handling before its install that has a later minute.
fn swapped_before(
    alloc: Global,
    commands: &[Stamped],
    placed: &[Placement],
    minutes: &[u64],
) -> Result<Vec<Option<u64>>, AllocError>
    requires order { AsksRise 0 (map ask_of placed.now) }
    requires each { length minutes.now ≡ length placed.now }
    ensures { (own : Placement → ℕ) → minutes.now ≡ map own placed.now
        → IfOk result (λ found. found.items ≡ map (λ p. number_above
        (best_before (handled_marks commands.now) (ask_of p)) (own p)) placed.now) }
{
    let asks = asks_of(alloc, placed)?;
    let marks = handled_marks(alloc, commands)?;
    let latest = best_before(alloc, &marks, &asks)?;
    numbers_above(alloc, &latest, minutes)
}

/// Returns for each piece the number of a handling behind its install that has an earlier minute.
fn swapped_behind(
    alloc: Global,
    commands: &[Stamped],
    placed: &[Placement],
    minutes: &[u64],
) -> Result<Vec<Option<u64>>, AllocError>
    requires order { AsksRise 0 (map ask_of placed.now) }
    requires each { length minutes.now ≡ length placed.now }
    ensures { (own : Placement → ℕ) → minutes.now ≡ map own placed.now
        → IfOk result (λ found. found.items ≡ map (λ p. number_above
        (best_before (handled_from_end commands.now) (ask_from_end (length commands.now) p))
        (GREATEST_MINUTE - own p)) placed.now) }
{
    let asks = asks_from_end(alloc, commands.len(), placed)?;
    let marks = handled_from_end(alloc, commands)?;
    let mut soonest = best_before(alloc, &marks, &asks)?;
    soonest.reverse();
    let left = minutes_left(alloc, minutes)?;
    numbers_above(alloc, &soonest, &left)
}
