//! What the commands and the book mark.

ghost use Rattle.std.specs.Prelude.{◌≡◌, ◌+◌, ◌++◌, IfOk, OnOk};
ghost use Rattle.std.specs.Option.{option_to_list};
ghost use Rattle.line_doubt.specs.Sources.{restart_mark, restart_marks, unsettled_mark, unsettled_marks};

use crate::mark::{Mark, number_after};
use desk_types::{Command, Id, Stamped};
use line_book::{Matter, Note};
use std::alloc::{AllocError, Global};

/// Returns the marks of loads and unloads.
pub fn restart_marks(alloc: Global, commands: &[Stamped]) -> Result<Vec<Mark>, AllocError>
    ensures { IfOk result (λ marks. marks.items ≡ restart_marks commands.now) }
{
    let mut marks = Vec::new(alloc);
    for i in 0..commands.len() {
        let mark = restart_mark(i as u64 + 1, &commands[i].command);
        keep(&mut marks, mark)?;
    }
    Ok(marks)
}

fn restart_mark(number: u64, command: &Command) -> Option<Mark>
    ensures { result ≡ restart_mark number command.now }
{
    match command {
        Command::MaterialsLoaded { machine, slot, .. } => Some(Mark {
            at: number,
            machine: *machine,
            slot: *slot,
            value: number,
            number,
        }),
        Command::MaterialsUnloaded { machine, slot } => Some(Mark {
            at: number,
            machine: *machine,
            slot: *slot,
            value: number,
            number,
        }),
        _ => None,
    }
}

/// Returns the marks of refused handlings and differences.
pub fn unsettled_marks(alloc: Global, book: &[Note]) -> Result<Vec<Mark>, AllocError>
    ensures { IfOk result (λ marks. marks.items ≡ unsettled_marks book.now) }
{
    let mut marks = Vec::new(alloc);
    for note in book {
        let mark = unsettled_mark(note.number, note.after, &note.matter);
        keep(&mut marks, mark)?;
    }
    Ok(marks)
}

fn unsettled_mark(number: u32, after: u32, matter: &Matter) -> Option<Mark>
    ensures { result ≡ unsettled_mark number after matter.now }
{
    match matter {
        Matter::Handling { machine, slot, .. } => Some(unsettled(number, after, machine, slot)),
        Matter::Differs { machine, slot, .. } => Some(unsettled(number, after, machine, slot)),
        _ => None,
    }
}

fn unsettled(number: u32, after: u32, machine: &Id, slot: &Id) -> Mark
    ensures { result ≡ record {
      at = after;
      machine = machine.now;
      slot = slot.now;
      value = after + 1;
      number = number;
    } }
{
    Mark {
        at: u64::from(after),
        machine: *machine,
        slot: *slot,
        value: number_after(after),
        number: u64::from(number),
    }
}

/// Adds the mark if there is one.
pub fn keep(marks: &mut Vec<Mark>, mark: Option<Mark>) -> Result<(), AllocError>
    ensures { OnOk result (marks.new.items ≡ marks.old.items ++ option_to_list mark) }
{
    if let Some(mark) = mark {
        marks.push(mark)?;
    }
    Ok(())
}
