//! Refusals of sheets.

ghost use Rattle.desk_types.specs.History.{History};
ghost use Rattle.desk_types.specs.Refusals.{definition_refusal};
ghost use Rattle.judging.specs.Placing.{IsPassed};

use crate::facts::Facts;
use desk_types::{Id, JudgeFault, Refusal, SheetRows};
use setup_sheets::{SheetFault, check_sheet};
use std::alloc::Global;

/// Refuses a sheet by the first rule that it breaks.
#[tactic(auto, unfolding(desk_types::specs::Refusals::definition_refusal))]
pub fn check_definition<F: Facts>(
    alloc: Global,
    facts: &F,
    machine: &Id,
    rows: &SheetRows,
) -> Result<(), JudgeFault>
    ensures { (H : History) → F.Stands facts.now H
        → IsPassed (definition_refusal H machine.now rows.now) result }
{
    if facts.in_work_on(machine).is_some() {
        return Err(JudgeFault::Refused(Refusal::MachineBusy(*machine)));
    }
    match check_sheet(alloc, facts.parts(), rows.as_slice()) {
        Ok(()) => Ok(()),
        Err(SheetFault::Refused(refusal)) => Err(JudgeFault::Refused(refusal)),
        Err(SheetFault::NoMemory) => Err(JudgeFault::NoMemory),
    }
}
