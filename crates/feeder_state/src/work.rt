//! Boards in work, and their placed designators.

mod rows;

ghost use Rattle.std.specs.Prelude.{◌≡◌, ◌||◌, ◌&&◌, [], ◌∷◌, unwrap_or, OnOk};
ghost use Rattle.std.specs.List.{list_any};
ghost use Rattle.desk_types.specs.declared.command.Command.TheVariants.{WorkStarted};
ghost use Rattle.desk_types.specs.declared.command.Entry.{Entry as Accepted};
ghost use Rattle.desk_types.specs.Id.{Name, same};
ghost use Rattle.desk_types.specs.History.{History};
ghost use Rattle.desk_types.specs.Work.{work_by, in_work_on, places, is_placed_on};
ghost use Rattle.judging.specs.Facts.{ArePlacedOn};
ghost use Rattle.feeder_state.specs.Work.{IsWork, running_at, is_placed_at};

pub use self::rows::work_of;
use crate::placed::PlacedNames;
use desk_types::{Command, Designator, Id};
use std::alloc::{AllocError, Global};
use std::collections::BTreeMap;

/// The board in work on each machine, and the designators placed on each board.
#[derive(Drop)]
pub struct Work {
    running: BTreeMap<Id, Id>,
    placed: BTreeMap<Id, PlacedNames>,
}

impl Work {
    /// No work before the first command. Takes no memory.
    pub fn new(alloc: Global) -> Work
        ensures { IsWork [] result }
    {
        Work {
            running: BTreeMap::new(alloc),
            placed: BTreeMap::new(alloc),
        }
    }

    /// Notes an accepted command. Fails only if memory is refused; then drop the work.
    pub fn note(&mut self, alloc: Global, command: &Command) -> Result<(), AllocError>
        ensures { (H : History) (e : Accepted) → e.stamped.command ≡ command.now → IsWork H self.old
            → OnOk result (IsWork (e ∷ H) self.new) }
    {
        note_running(&mut self.running, command)?;
        note_placed(alloc, &mut self.placed, command)?;
        Ok(())
    }

    /// The board in work on the machine.
    pub fn in_work_on(&self, machine: &Id) -> Option<Id>
        ensures { (H : History) → IsWork H self.now → result ≡ in_work_on H machine.now }
    {
        match self.running.get(machine) {
            Some(board) => Some(*board),
            None => None,
        }
    }

    /// The designators that are placed on the board, in order.
    pub fn placed_on(&self, board: &Id) -> &[Designator]
        ensures { (H : History) → IsWork H self.now → ArePlacedOn H board.now result.now }
    {
        match self.placed.get(board) {
            Some(placed) => placed.in_order(),
            None => &[],
        }
    }

    /// Whether the designator is placed on the board.
    pub fn is_placed_on(&self, board: &Id, designator: &Designator) -> bool
        ensures { (H : History) → IsWork H self.now
            → result ≡ is_placed_on H board.now designator.now }
    {
        match self.placed.get(board) {
            Some(placed) => placed.has(designator),
            None => false,
        }
    }
}

fn note_running(running: &mut BTreeMap<Id, Id>, command: &Command) -> Result<(), AllocError>
    ensures { (m : Name)
        → OnOk result (running_at running.new m
        ≡ unwrap_or (work_by m command.now) (running_at running.old m)) }
{
    match command {
        Command::WorkStarted { machine, board } => {
            running.insert(*machine, *board)?;
        }
        Command::WorkCompleted { machine, .. } => {
            running.remove(machine);
        }
        _ => {}
    }
    Ok(())
}

fn place(
    alloc: Global,
    placed: &mut BTreeMap<Id, PlacedNames>,
    board: &Id,
    designators: &[Designator],
) -> Result<(), AllocError>
    ensures { (b d : Name)
        → OnOk result
        (is_placed_at placed.new b d ≡ (same board.now b && list_any
        (same d) designators.now || is_placed_at placed.old b d)) }
{
    match placed.get_mut(board) {
        Some(names) => names.add_all(designators)?,
        None => {
            let mut names = PlacedNames::new(alloc);
            names.add_all(designators)?;
            placed.insert(*board, names)?;
        }
    }
    Ok(())
}

fn note_placed(
    alloc: Global,
    placed: &mut BTreeMap<Id, PlacedNames>,
    command: &Command,
) -> Result<(), AllocError>
    ensures { (b d : Name)
        → OnOk result (is_placed_at placed.new b d
        ≡ (places b d command.now || is_placed_at placed.old b d)) }
{
    if let Command::MaterialsInstalled {
        board,
        designators,
        ..
    } = command
    {
        place(alloc, placed, board, designators.as_slice())?;
    }
    Ok(())
}
