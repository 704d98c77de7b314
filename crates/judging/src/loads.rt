//! Refusals of loads and splices.

ghost use Rattle.std.specs.Prelude.{◌≡◌, Bool, not, [], ◌∷◌};
ghost use Rattle.desk_types.specs.declared.answer.Refusal.{Refusal as Refusing};
ghost use Rattle.desk_types.specs.declared.answer.Refusal.TheVariants.{SlotTaken, SlotEmpty};
ghost use Rattle.desk_types.specs.History.{History};
ghost use Rattle.desk_types.specs.Refusals.{first_refusal, is_vacant, mounting_refusal};
ghost use Rattle.judging.specs.Facts.{IsBy};
ghost use Rattle.judging.specs.Feeding.{reel_refusal};

use crate::facts::Facts;
use crate::refusals::is_vacant;
use desk_types::{Id, Minute, Refusal, SheetRow};
use setup_sheets::allowed;

#[tactic(auto, unfolding(crate::specs::Feeding::reel_refusal))]
fn reel_refusal<F: Facts>(facts: &F, minute: Minute, row: &SheetRow, reel: &Id) -> Option<Refusal>
    requires { IsBy F.Stands facts.now minute }
    ensures { (H : History) → F.Stands facts.now H
        → result ≡ reel_refusal H minute row.now reel.now }
{
    let Some(found) = facts.reel_row(reel) else {
        return Some(Refusal::UnknownReel(*reel));
    };
    if facts.is_mounted(reel) {
        return Some(Refusal::ReelMounted(*reel));
    }
    if facts.left_of(reel) == 0 {
        return Some(Refusal::ReelEmpty(*reel));
    }
    if !allowed(facts.alternates(), &row.part, &found.part) {
        return Some(Refusal::WrongPart(*reel));
    }
    if found.is_unbaked() {
        return Some(Refusal::NotBaked(*reel));
    }
    if found.is_expired(minute) {
        return Some(Refusal::Expired(*reel));
    }
    None
}

/// Returns the refusal of a load or splice. They differ only in the test of the slot.
#[tactic(auto, unfolding(desk_types::specs::Refusals::mounting_refusal, crate::specs::Feeding::reel_refusal))]
fn mounting_refusal<F: Facts>(
    facts: &F,
    minute: Minute,
    machine: &Id,
    slot: &Id,
    reel: &Id,
    slot_refusal: Option<Refusal>,
) -> Option<Refusal>
    requires { IsBy F.Stands facts.now minute }
    ensures { (H : History) (test : Bool × Refusing) → F.Stands facts.now H
        → slot_refusal ≡ first_refusal (test ∷ [])
        → result ≡ mounting_refusal H minute machine.now slot.now reel.now test }
{
    if facts.selected_on(machine).is_none() {
        return Some(Refusal::NoProduct(*machine));
    }
    let Some(row) = facts.row_on(machine, slot) else {
        return Some(Refusal::SlotNotOnSheet(*slot));
    };
    if slot_refusal.is_some() {
        return slot_refusal;
    }
    reel_refusal(facts, minute, row, reel)
}

pub fn load_refusal<F: Facts>(
    facts: &F,
    minute: Minute,
    machine: &Id,
    slot: &Id,
    reel: &Id,
) -> Option<Refusal>
    requires { IsBy F.Stands facts.now minute }
    ensures { (H : History) → F.Stands facts.now H
        → result ≡ mounting_refusal H minute machine.now slot.now reel.now
        (not (is_vacant H machine.now slot.now), SlotTaken slot.now) }
{
    let slot_refusal = if is_vacant(facts, machine, slot) {
        None
    } else {
        Some(Refusal::SlotTaken(*slot))
    };
    mounting_refusal(facts, minute, machine, slot, reel, slot_refusal)
}

pub fn splice_refusal<F: Facts>(
    facts: &F,
    minute: Minute,
    machine: &Id,
    slot: &Id,
    reel: &Id,
) -> Option<Refusal>
    requires { IsBy F.Stands facts.now minute }
    ensures { (H : History) → F.Stands facts.now H
        → result ≡ mounting_refusal H minute machine.now slot.now reel.now
        (is_vacant H machine.now slot.now, SlotEmpty slot.now) }
{
    let slot_refusal = if is_vacant(facts, machine, slot) {
        Some(Refusal::SlotEmpty(*slot))
    } else {
        None
    };
    mounting_refusal(facts, minute, machine, slot, reel, slot_refusal)
}
