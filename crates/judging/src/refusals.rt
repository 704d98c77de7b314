//! Refusals of the commands without a file of their own.

ghost use Rattle.std.specs.Prelude.{◌≡◌};
ghost use Rattle.desk_types.specs.History.{History};
ghost use Rattle.desk_types.specs.Refusals.{part_refusal, alternate_refusal, selection_refusal, receipt_refusal, opening_refusal, closing_refusal, completion_refusal, unload_refusal, is_vacant};

use crate::facts::Facts;
use crate::fronts::front;
use crate::setup::is_in_work_on;
use desk_types::{Id, Refusal};

#[tactic(auto, unfolding(desk_types::specs::Refusals::part_refusal))]
pub fn part_refusal<F: Facts>(facts: &F, part: &Id) -> Option<Refusal>
    ensures { (H : History) → F.Stands facts.now H → result ≡ part_refusal H part.now }
{
    if facts.parts().has(part) {
        return Some(Refusal::PartExists(*part));
    }
    None
}

#[tactic(auto, unfolding(desk_types::specs::Refusals::alternate_refusal))]
pub fn alternate_refusal<F: Facts>(facts: &F, part: &Id, alternate: &Id) -> Option<Refusal>
    ensures { (H : History) → F.Stands facts.now H
        → result ≡ alternate_refusal H part.now alternate.now }
{
    if !facts.parts().has(part) {
        return Some(Refusal::UnknownPart(*part));
    }
    if !facts.parts().has(alternate) {
        return Some(Refusal::UnknownPart(*alternate));
    }
    None
}

#[tactic(auto, unfolding(desk_types::specs::Refusals::selection_refusal))]
pub fn selection_refusal<F: Facts>(facts: &F, machine: &Id, product: &Id) -> Option<Refusal>
    ensures { (H : History) → F.Stands facts.now H
        → result ≡ selection_refusal H machine.now product.now }
{
    if facts.sheet_of(product, machine).is_none() {
        return Some(Refusal::UnknownSheet(*product));
    }
    if facts.in_work_on(machine).is_some() {
        return Some(Refusal::MachineBusy(*machine));
    }
    None
}

#[tactic(auto, unfolding(desk_types::specs::Refusals::receipt_refusal))]
pub fn receipt_refusal<F: Facts>(facts: &F, reel: &Id, part: &Id) -> Option<Refusal>
    ensures { (H : History) → F.Stands facts.now H → result ≡ receipt_refusal H reel.now part.now }
{
    if !facts.parts().has(part) {
        return Some(Refusal::UnknownPart(*part));
    }
    if facts.reel_row(reel).is_some() {
        return Some(Refusal::ReelExists(*reel));
    }
    None
}

#[tactic(auto, unfolding(desk_types::specs::Refusals::opening_refusal))]
pub fn opening_refusal<F: Facts>(facts: &F, reel: &Id) -> Option<Refusal>
    ensures { (H : History) → F.Stands facts.now H → result ≡ opening_refusal H reel.now }
{
    if facts.reel_row(reel).is_none() {
        return Some(Refusal::UnknownReel(*reel));
    }
    None
}

/// Returns the refusal of a seal or a bake.
#[tactic(auto, unfolding(desk_types::specs::Refusals::closing_refusal))]
pub fn closing_refusal<F: Facts>(facts: &F, reel: &Id) -> Option<Refusal>
    ensures { (H : History) → F.Stands facts.now H → result ≡ closing_refusal H reel.now }
{
    if facts.reel_row(reel).is_none() {
        return Some(Refusal::UnknownReel(*reel));
    }
    if facts.is_mounted(reel) {
        return Some(Refusal::ReelMounted(*reel));
    }
    None
}

pub fn is_vacant<F: Facts>(facts: &F, machine: &Id, slot: &Id) -> bool
    ensures { (H : History) → F.Stands facts.now H → result ≡ is_vacant H machine.now slot.now }
{
    front(facts, machine, slot).is_none()
}

#[tactic(auto, unfolding(desk_types::specs::Refusals::unload_refusal))]
pub fn unload_refusal<F: Facts>(facts: &F, machine: &Id, slot: &Id) -> Option<Refusal>
    ensures { (H : History) → F.Stands facts.now H
        → result ≡ unload_refusal H machine.now slot.now }
{
    if is_vacant(facts, machine, slot) {
        return Some(Refusal::SlotEmpty(*slot));
    }
    None
}

#[tactic(auto, unfolding(desk_types::specs::Refusals::completion_refusal))]
pub fn completion_refusal<F: Facts>(facts: &F, machine: &Id, board: &Id) -> Option<Refusal>
    ensures { (H : History) → F.Stands facts.now H
        → result ≡ completion_refusal H machine.now board.now }
{
    if !is_in_work_on(facts, machine, board) {
        return Some(Refusal::NotInWork(*board));
    }
    None
}
