//! The tapes of slots.

ghost use Rattle.std.specs.Prelude.{◌≡◌, ◌&&◌, [], ◌∷◌, if◌then◌else◌, IfOk, OnOk};
ghost use Rattle.desk_types.specs.Id.{Name, same};
ghost use Rattle.desk_types.specs.Tape.{tape_with, tape_after};
ghost use Rattle.line_book.specs.Guard.{tape_at};

use desk_types::{Command, Id};
use std::alloc::{AllocError, Global};
use std::collections::BTreeMap;
use std::marker::Model;

/// The reels of a slot since its last load, first one first, with the spent ones.
#[derive(Drop)]
pub struct Tape {
    reels: Vec<Id>,
}

impl Model for Tape {
    ghost use Rattle.std.specs.Prelude.{List};
    ghost use Rattle.desk_types.specs.Id.{Name};

    ghost Value = { List Name };

    ghost view = { λ a. a.reels.items };
}

impl Tape {
    fn of(alloc: Global, reel: Id) -> Result<Tape, AllocError>
        ensures { IfOk result (λ tape. tape ≡ reel ∷ []) }
    {
        let mut reels = Vec::new(alloc);
        reels.push(reel)?;
        Ok(Tape { reels })
    }

    /// Joins a reel to the end of a tape that isn't empty.
    fn join(&mut self, reel: Id) -> Result<(), AllocError>
        ensures { OnOk result (self.new ≡ tape_with self.old reel) }
    {
        if !self.reels.is_empty() {
            self.reels.push(reel)?;
        }
        Ok(())
    }

    fn as_slice(&self) -> &[Id]
        ensures { result.now ≡ self.now }
    {
        self.reels.as_slice()
    }
}

/// Returns the tape of the slot, empty without one.
pub fn tape_at<'a>(tapes: &'a BTreeMap<(Id, Id), Tape>, machine: &Id, slot: &Id) -> &'a [Id]
    ensures { result.now ≡ tape_at tapes.now machine.now slot.now }
{
    match tapes.get(&(*machine, *slot)) {
        Some(tape) => tape.as_slice(),
        None => &[],
    }
}

/// Updates the tapes for an accepted command.
pub fn note_tape(
    alloc: Global,
    tapes: &mut BTreeMap<(Id, Id), Tape>,
    command: &Command,
) -> Result<(), AllocError>
    ensures { (m s : Name) → OnOk result
        (tape_at tapes.new m s ≡ tape_after m s command.now (tape_at tapes.old m s)) }
{
    match command {
        Command::MaterialsLoaded {
            machine,
            slot,
            reel,
        } => load(alloc, tapes, *machine, *slot, *reel)?,
        Command::MaterialsSpliced {
            machine,
            slot,
            reel,
        } => splice(tapes, *machine, *slot, *reel)?,
        Command::MaterialsUnloaded { machine, slot } => unload(tapes, *machine, *slot),
        _ => {}
    }
    Ok(())
}

fn load(
    alloc: Global,
    tapes: &mut BTreeMap<(Id, Id), Tape>,
    machine: Id,
    slot: Id,
    reel: Id,
) -> Result<(), AllocError>
    ensures { (m s : Name) → OnOk result (tape_at tapes.new m s
        ≡ (if same machine m && same slot s then reel ∷ [] else tape_at tapes.old m s)) }
{
    let tape = Tape::of(alloc, reel)?;
    tapes.insert((machine, slot), tape)?;
    Ok(())
}

fn splice(
    tapes: &mut BTreeMap<(Id, Id), Tape>,
    machine: Id,
    slot: Id,
    reel: Id,
) -> Result<(), AllocError>
    ensures { (m s : Name) → OnOk result (tape_at tapes.new m s ≡ (if same machine m && same slot s
        then tape_with (tape_at tapes.old m s) reel else tape_at tapes.old m s)) }
{
    if let Some(tape) = tapes.get_mut(&(machine, slot)) {
        tape.join(reel)?;
    }
    Ok(())
}

fn unload(tapes: &mut BTreeMap<(Id, Id), Tape>, machine: Id, slot: Id)
    ensures { (m s : Name) → tape_at tapes.new m s
        ≡ (if same machine m && same slot s then [] else tape_at tapes.old m s) }
{
    tapes.remove(&(machine, slot));
}
