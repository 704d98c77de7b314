//! The shop floor as the accepted commands left it.

mod rows;

ghost use Rattle.std.specs.Prelude.{◌≡◌, ℕ, ◌∷◌, [], true, false, OnOk};
ghost use Rattle.desk_types.specs.declared.command.Entry.{Entry};
ghost use Rattle.desk_types.specs.History.{History};
ghost use Rattle.feeder_state.specs.Floor.{IsFloor};
ghost use Rattle.feeder_state.specs.Rows.{AreRows};
ghost use Rattle.feeder_state.specs.Noted.{IsNoted, may_take};
ghost use Rattle.feeder_state.specs.Spending.{NoneIsSpent};

pub use self::rows::floor_of;
use crate::resting::{end_rests, note_resting};
use crate::tape::{Tape, note_tape};
use crate::tapes::drop_all_spent;
use desk_types::{Command, Id, Take};
use state_rows::RowSet;
use std::alloc::{AllocError, Global};
use std::collections::{BTreeMap, BTreeSet};

/// The shop floor, in addition to the rows: the live reels of each slot in their order, and the reels of each part that
/// may be at rest, with pieces left and on no slot.
#[derive(Drop)]
pub struct Floor {
    pub tapes: BTreeMap<(Id, Id), Tape>,
    pub resting: BTreeMap<Id, BTreeSet<Id>>,
}

impl Floor {
    /// The floor of an empty history. Takes no memory.
    pub fn new(alloc: Global) -> Floor
        ensures { IsFloor [] result }
    {
        Floor {
            tapes: BTreeMap::new(alloc),
            resting: BTreeMap::new(alloc),
        }
    }

    /// Notes an accepted command with the pieces that it takes. The rows are those after it, and `spends` is false only
    /// if it spent no reel: most commands spend none, and then no take is looked at. After an `Err` the floor's state is
    /// unknown.
    pub fn note(
        &mut self,
        alloc: Global,
        rows: &RowSet,
        command: &Command,
        takes: &[Take],
        spends: bool,
    ) -> Result<(), AllocError>
        // The floor was right before the command, for one history at least.
        requires { (H : History) × (e : Entry) × (at : ℕ) × IsNoted H e command.now at takes.now
            × IsFloor H self.old }
        // For every such history, since the desk stands for all of them.
        ensures { (H : History) (e : Entry) (at : ℕ) → IsNoted H e command.now at takes.now
            → AreRows (e ∷ H) rows.now
            → NoneIsSpent spends H rows.now → IsFloor H self.old
            → OnOk result (IsFloor (e ∷ H) self.new) }
    {
        if may_take(command) {
            self.note_takes(rows, command, takes, spends);
            return Ok(());
        }
        note_resting(alloc, rows, &mut self.resting, &self.tapes, command)?;
        note_tape(alloc, &mut self.tapes, command)?;
        Ok(())
    }

    /// Takes the reels that a command spent off their slots and out of those at rest.
    fn note_takes(&mut self, rows: &RowSet, command: &Command, takes: &[Take], spends: bool)
        requires takes { may_take command.now ≡ true }
        requires known { (H : History) × (e : Entry) × (at : ℕ)
            × IsNoted H e command.now at takes.now
            × IsFloor H self.old }
        ensures { (H : History) (e : Entry) (at : ℕ) → IsNoted H e command.now at takes.now
            → AreRows (e ∷ H) rows.now
            → NoneIsSpent spends H rows.now → IsFloor H self.old → IsFloor (e ∷ H) self.new }
    {
        if !spends {
            return;
        }
        drop_all_spent(rows, &mut self.tapes, takes);
        end_rests(rows, &mut self.resting, command, takes);
    }
}

fn may_take(command: &Command) -> bool
    ensures { result ≡ may_take command.now }
{
    match command {
        Command::MaterialsInstalled { .. } => true,
        Command::MaterialsScrapped { .. } => true,
        Command::CountsTaken { .. } => true,
        _ => false,
    }
}
