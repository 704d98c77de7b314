//! Direct consequences of the facts: the selected sheet and the board in work.

ghost use Rattle.std.specs.Prelude.{◌≡◌};
ghost use Rattle.std.specs.Option.{option_copied};
ghost use Rattle.desk_types.specs.History.{History};
ghost use Rattle.desk_types.specs.Setup.{sheet_on};
ghost use Rattle.desk_types.specs.Work.{is_in_work_on};

use crate::facts::Facts;
use desk_types::{Id, SheetRows};

/// Returns the selected product's sheet on the machine.
pub fn sheet_on<'a, F: Facts>(facts: &'a F, machine: &Id) -> Option<&'a SheetRows>
    ensures { (H : History) → F.Stands facts.now H → option_copied result ≡ sheet_on H machine.now }
{
    let product = facts.selected_on(machine)?;
    facts.sheet_of(&product, machine)
}

pub fn is_in_work_on<F: Facts>(facts: &F, machine: &Id, board: &Id) -> bool
    ensures { (H : History) → F.Stands facts.now H
        → result ≡ is_in_work_on H machine.now board.now }
{
    match facts.in_work_on(machine) {
        Some(other) => *board == other,
        None => false,
    }
}
