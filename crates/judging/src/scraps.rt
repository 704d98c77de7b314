//! Scraps: their refusals and takes.

ghost use Rattle.std.specs.Prelude.{◌≡◌, ◌++◌, IfOk, OnOk};
ghost use Rattle.desk_types.specs.declared.command.Command.TheVariants.{MaterialsScrapped};
ghost use Rattle.desk_types.specs.declared.take.Purpose.TheVariants.{Rejected};
ghost use Rattle.desk_types.specs.History.{History};
ghost use Rattle.desk_types.specs.Pieces.{left_of, pieces_off, picks_of};
ghost use Rattle.desk_types.specs.Refusals.{scrap_refusal};
ghost use Rattle.judging.specs.Placing.{IsPicked};
ghost use Rattle.judging.specs.Scrapping.{IsScrapped};

use crate::facts::Facts;
use crate::refusals::is_vacant;
use desk_types::{Id, JudgeFault, Listing, Pick, Purpose, Quantity, Refusal};
use std::alloc::{AllocError, Global};

/// Appends a pick of these pieces, if there are any.
pub fn put_off(
    picks: &mut Vec<Pick>,
    reel: Id,
    pieces: u64,
    purpose: Purpose,
) -> Result<(), AllocError>
    ensures { OnOk result (picks.new.items ≡ picks.old.items ++ pieces_off reel pieces purpose) }
{
    if pieces > 0 {
        picks.push(Pick {
            reel,
            quantity: pieces,
            purpose,
        })?;
    }
    Ok(())
}

/// Pieces off a slot's reels, and the number still missing.
#[derive(Drop)]
struct Scrapping {
    picks: Vec<Pick>,
    wanting: u64,
}

fn scrap<F: Facts>(
    alloc: Global,
    facts: &F,
    machine: &Id,
    slot: &Id,
    quantity: u64,
) -> Result<Scrapping, AllocError>
    ensures { (H : History) → F.Stands facts.now H
        → IfOk result
        (IsScrapped (left_of H) (Rejected machine.now slot.now)
        (F.reels_on facts.now machine.now slot.now) quantity) }
{
    let mut picks = Vec::new(alloc);
    let mut wanting = quantity;
    for index in 0..facts.reel_count(machine, slot) {
        if wanting == 0 {
            return Ok(Scrapping { picks, wanting });
        }
        if let Some(reel) = facts.reel_at(machine, slot, index) {
            let left = facts.left_of(&reel);
            let purpose = Purpose::Rejected {
                machine: *machine,
                slot: *slot,
            };
            put_off(&mut picks, reel, wanting.min(left), purpose)?;
            wanting = wanting.saturating_sub(left);
        }
    }
    Ok(Scrapping { picks, wanting })
}

/// Returns the pieces that a scrap takes, or its refusal.
pub fn picks_of_scrap<F: Facts>(
    alloc: Global,
    facts: &F,
    machine: &Id,
    slot: &Id,
    quantity: Quantity,
) -> Result<Listing<Pick>, JudgeFault>
    ensures { (H : History) → F.Stands facts.now H
        → IsPicked (scrap_refusal H machine.now slot.now quantity)
        (picks_of H (MaterialsScrapped machine.now slot.now quantity)) result }
{
    if is_vacant(facts, machine, slot) {
        return Err(JudgeFault::Refused(Refusal::SlotEmpty(*slot)));
    }
    let scrapping = scrap(alloc, facts, machine, slot, quantity.get())?;
    if scrapping.wanting > 0 {
        return Err(JudgeFault::Refused(Refusal::ReelShort(*slot)));
    }
    Ok(Listing::new(scrapping.picks))
}
