//! Refusals of starts of work.

ghost use Rattle.std.specs.Prelude.{◌≡◌, [], unwrap_or};
ghost use Rattle.desk_types.specs.History.{History};
ghost use Rattle.desk_types.specs.Refusals.{slots_refusal, start_refusal, differ};
ghost use Rattle.desk_types.specs.Setup.{selected_on, sheet_on};
ghost use Rattle.desk_types.specs.Work.{product_of};
ghost use Rattle.judging.specs.Facts.{IsBy};
ghost use Rattle.judging.specs.Placing.{IsPassed};

use crate::facts::Facts;
use crate::fronts::fronts;
use crate::setup::sheet_on;
use desk_types::{Id, JudgeFault, Minute, Refusal};
use setup_sheets::verify;
use std::alloc::Global;

fn check_slots<F: Facts>(
    alloc: Global,
    facts: &F,
    minute: Minute,
    machine: &Id,
) -> Result<(), JudgeFault>
    requires { IsBy F.Stands facts.now minute }
    ensures { (H : History) → F.Stands facts.now H
        → IsPassed (slots_refusal H minute machine.now (unwrap_or (sheet_on H machine.now) []))
        result }
{
    let Some(rows) = sheet_on(facts, machine) else {
        return Ok(());
    };
    let fronts = fronts(alloc, facts, machine)?;
    match verify(rows, &fronts, facts.alternates(), minute) {
        Ok(()) => Ok(()),
        Err((_, refusal)) => Err(JudgeFault::Refused(refusal)),
    }
}

fn is_other_product<F: Facts>(facts: &F, machine: &Id, board: &Id) -> bool
    ensures { (H : History) → F.Stands facts.now H
        → result ≡ differ (product_of H board.now) (selected_on H machine.now) }
{
    match (facts.product_of(board), facts.selected_on(machine)) {
        (Some(product), Some(selected)) => product != selected,
        _ => false,
    }
}

/// Refuses a start of work by the first rule that it breaks.
#[tactic(auto, unfolding(desk_types::specs::Refusals::start_refusal))]
pub fn check_start<F: Facts>(
    alloc: Global,
    facts: &F,
    minute: Minute,
    machine: &Id,
    board: &Id,
) -> Result<(), JudgeFault>
    requires { IsBy F.Stands facts.now minute }
    ensures { (H : History) → F.Stands facts.now H
        → IsPassed (start_refusal H minute machine.now board.now) result }
{
    if facts.selected_on(machine).is_none() {
        return Err(JudgeFault::Refused(Refusal::NoProduct(*machine)));
    }
    if facts.in_work_on(machine).is_some() {
        return Err(JudgeFault::Refused(Refusal::MachineBusy(*machine)));
    }
    if facts.is_in_work(board) {
        return Err(JudgeFault::Refused(Refusal::BoardBusy(*board)));
    }
    if is_other_product(facts, machine, board) {
        return Err(JudgeFault::Refused(Refusal::OtherProduct(*board)));
    }
    check_slots(alloc, facts, minute, machine)
}
