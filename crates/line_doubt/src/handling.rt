//! What handlings mark, from the beginning and from the end of the history.

ghost use Rattle.std.specs.Prelude.{◌≡◌, length, map, reverse, IfOk};
ghost use Rattle.line_doubt.specs.Late.{ask_from_end, from_end, handled_from_end, handled_mark, handled_marks};

use crate::mark::{Ask, Mark};
use crate::marking::keep;
use desk_types::{Command, GREATEST_MINUTE, Id, Placement, Stamped};
use std::alloc::{AllocError, Global};

/// Returns the marks of loads, splices and unloads: their own minutes.
pub fn handled_marks(alloc: Global, commands: &[Stamped]) -> Result<Vec<Mark>, AllocError>
    ensures { IfOk result (λ marks. marks.items ≡ handled_marks commands.now) }
{
    let mut marks = Vec::new(alloc);
    for i in 0..commands.len() {
        let stamped = &commands[i];
        let minute = stamped.minute.get();
        let number = i as u64 + 1;
        let mark = handled_mark(number, minute, number, &stamped.command);
        keep(&mut marks, mark)?;
    }
    Ok(marks)
}

/// Returns the marks of loads, splices and unloads from the end of the history.
pub fn handled_from_end(alloc: Global, commands: &[Stamped]) -> Result<Vec<Mark>, AllocError>
    ensures { IfOk result (λ marks. marks.items ≡ handled_from_end commands.now) }
{
    let mut marks = Vec::new(alloc);
    for i in 0..commands.len() {
        let stamped = &commands[i];
        let minute = stamped.minute.get();
        let behind = commands.len() - (i + 1);
        let left = GREATEST_MINUTE - minute;
        let number = i as u64 + 1;
        let mark = handled_mark(behind as u64, left, number, &stamped.command);
        keep(&mut marks, mark)?;
    }
    marks.reverse();
    Ok(marks)
}

fn handled_mark(at: u64, value: u64, number: u64, command: &Command) -> Option<Mark>
    ensures { result ≡ handled_mark at value number command.now }
{
    match command {
        Command::MaterialsLoaded { machine, slot, .. } => Some(mark(
            at, value, number, machine, slot,
        )),
        Command::MaterialsSpliced { machine, slot, .. } => Some(mark(
            at, value, number, machine, slot,
        )),
        Command::MaterialsUnloaded { machine, slot } => Some(mark(
            at, value, number, machine, slot,
        )),
        _ => None,
    }
}

fn mark(at: u64, value: u64, number: u64, machine: &Id, slot: &Id) -> Mark
    ensures { result ≡ record {
      at = at;
      machine = machine.now;
      slot = slot.now;
      value = value;
      number = number;
    } }
{
    Mark {
        at,
        machine: *machine,
        slot: *slot,
        value,
        number,
    }
}

/// Returns a question for each piece from the end of the history, the last piece first.
pub fn asks_from_end(
    alloc: Global,
    commands: usize,
    placed: &[Placement],
) -> Result<Vec<Ask>, AllocError>
    ensures { IfOk result (λ asks. asks.items ≡ reverse (map (ask_from_end commands) placed.now)) }
{
    let mut asks = Vec::new(alloc);
    for piece in placed {
        asks.push(Ask {
            at: (commands as u64).saturating_sub(piece.number),
            machine: piece.machine,
            slot: piece.slot,
        })?;
    }
    asks.reverse();
    Ok(asks)
}
