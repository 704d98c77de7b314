//! A command's takes and the details of its reply, from its picks.

ghost use Rattle.std.specs.Prelude.{◌≡◌, ◌≤◌, ◌^◌, ◌-◌, min, map, IfOk, OnOk, ◌∷◌, ◌++◌, []};
ghost use Rattle.std.specs.List.{AllByRecursion};
ghost use Rattle.desk_types.specs.declared.take.Pick.{Pick as Picking};
ghost use Rattle.desk_types.specs.History.{History, now_of};
ghost use Rattle.desk_types.specs.Outcome.{take_of, reels_of, pieces_of};
ghost use Rattle.desk_types.specs.Row.{IsRowOf};
ghost use Rattle.judging.specs.Facts.{IsBy, IsKnownReel};

use crate::facts::Facts;
use desk_types::{Id, IdList, Listing, Minute, Pick, ReelRow, Take, Takes};
use std::alloc::{AllocError, Global};

fn put_take(
    takes: &mut Vec<Take>,
    row: &ReelRow,
    minute: Minute,
    pick: &Pick,
) -> Result<(), AllocError>
    ensures { (H : History) → IsRowOf H pick.now.reel row.now → now_of H ≤ minute
        → OnOk result (takes.new.items ≡ takes.old.items ++ take_of H minute pick.now ∷ []) }
{
    let overdue = pick.purpose.is_placed() && row.is_expired(minute);
    takes.push(Take {
        reel: pick.reel,
        part: row.part,
        lot: row.lot,
        quantity: pick.quantity,
        purpose: pick.purpose,
        overdue,
    })?;
    Ok(())
}

/// Returns the takes for picks of received reels, in order.
pub fn takes_for<F: Facts>(
    alloc: Global,
    facts: &F,
    minute: Minute,
    picks: &[Pick],
) -> Result<Takes, AllocError>
    // A take says whether the floor life is used up, which no minute before the desk's can tell.
    requires by { IsBy F.Stands facts.now minute }
    // So each pick has a row, and there is no case for one without.
    requires known { (H : History) → F.Stands facts.now H
        → AllByRecursion (λ (p : Picking). IsKnownReel H p.reel) picks.now }
    ensures { (H : History) → F.Stands facts.now H
        → IfOk result (λ takes. takes ≡ map (take_of H minute) picks.now) }
{
    let mut takes = Vec::with_capacity(alloc, picks.len())?;
    for pick in picks {
        let row = facts.reel_row(&pick.reel).unwrap();
        put_take(&mut takes, &row, minute, pick)?;
    }
    Ok(Listing::new(takes))
}

/// Returns the reels of the picks in order.
pub fn reels_of(alloc: Global, picks: &[Pick]) -> Result<IdList, AllocError>
    ensures { IfOk result (λ reels. reels ≡ reels_of picks.now) }
{
    let mut reels = Vec::with_capacity(alloc, picks.len())?;
    for pick in picks {
        reels.push(pick.reel)?;
    }
    Ok(Listing::new(reels))
}

/// Returns the total pieces of the picks, at most the greatest `u64`.
pub fn pieces_of(picks: &[Pick]) -> u64
    ensures { result ≡ min (pieces_of picks.now) (2 ^ 64 - 1) }
{
    let mut pieces = 0u64;
    for pick in picks {
        pieces = pieces.saturating_add(pick.quantity);
    }
    pieces
}
