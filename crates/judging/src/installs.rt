//! Installs: their refusals and takes.

ghost use Rattle.desk_types.specs.declared.command.Command.TheVariants.{MaterialsInstalled};
ghost use Rattle.desk_types.specs.History.{History};
ghost use Rattle.desk_types.specs.Pieces.{picks_of};
ghost use Rattle.desk_types.specs.Refusals.{install_refusal};
ghost use Rattle.judging.specs.Placing.{IsPicked};

use crate::facts::Facts;
use crate::placing::place_all;
use crate::setup::is_in_work_on;
use desk_types::{Designators, Id, JudgeFault, Listing, Pick, Refusal};
use std::alloc::Global;

/// Returns the pieces that an install takes, or its refusal.
#[tactic(auto, unfolding(desk_types::specs::Refusals::install_refusal))]
pub fn picks_of_install<F: Facts>(
    alloc: Global,
    facts: &F,
    machine: &Id,
    board: &Id,
    designators: &Designators,
) -> Result<Listing<Pick>, JudgeFault>
    ensures { (H : History) → F.Stands facts.now H
        → IsPicked (install_refusal H machine.now board.now designators.now)
        (picks_of H (MaterialsInstalled machine.now board.now designators.now)) result }
{
    if !is_in_work_on(facts, machine, board) {
        return Err(JudgeFault::Refused(Refusal::NotInWork(*board)));
    }
    place_all(alloc, facts, machine, board, designators.as_slice())
}
