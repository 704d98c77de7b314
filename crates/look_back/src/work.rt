//! Boards in work, and the designators placed on them. Entries come oldest first.

ghost use Rattle.std.specs.Prelude.{◌≡◌, reverse};
ghost use Rattle.std.specs.List.{list_any};
ghost use Rattle.std.specs.Option.{option_and_then};
ghost use Rattle.desk_types.specs.Id.{same};
ghost use Rattle.desk_types.specs.Setup.{selected_on};
ghost use Rattle.desk_types.specs.Work.{work_by, in_work_on, is_in_work_on, is_in_work_where_started, is_in_work, start_by, product_of, places, is_placed_on};

use crate::setup::selected_on;
use desk_types::{Command, Designator, Entry, Id};

fn work_by(machine: &Id, command: &Command) -> Option<Option<Id>>
    ensures { result ≡ work_by machine.now command.now }
{
    match command {
        Command::WorkStarted { machine: at, board } if *at == *machine => Some(Some(*board)),
        Command::WorkCompleted { machine: at, .. } if *at == *machine => Some(None),
        _ => None,
    }
}

/// Returns the board in work on the machine.
pub fn in_work_on(entries: &[Entry], machine: &Id) -> Option<Id>
    ensures { result ≡ in_work_on (reverse entries.now) machine.now }
{
    let mut rest = entries;
    while let Some((entry, before)) = rest.split_last() {
        if let Some(work) = work_by(machine, &entry.stamped.command) {
            return work;
        }
        rest = before;
    }
    None
}

pub fn is_in_work_on(entries: &[Entry], machine: &Id, board: &Id) -> bool
    ensures { result ≡ is_in_work_on (reverse entries.now) machine.now board.now }
{
    match in_work_on(entries, machine) {
        Some(other) => *board == other,
        None => false,
    }
}

fn is_in_work_where_started(entries: &[Entry], board: &Id, command: &Command) -> bool
    ensures { result ≡ is_in_work_where_started (reverse entries.now) board.now command.now }
{
    match command {
        Command::WorkStarted { machine, board: b } => {
            *b == *board && is_in_work_on(entries, machine, board)
        }
        _ => false,
    }
}

/// Returns whether the board is in work on some machine.
pub fn is_in_work(entries: &[Entry], board: &Id) -> bool
    ensures { result ≡ is_in_work (reverse entries.now) board.now }
{
    entries.iter().rev().any(|entry| is_in_work_where_started(
        entries,
        board,
        &entry.stamped.command,
    ))
}

fn start_by(board: &Id, command: &Command) -> Option<Id>
    ensures { result ≡ start_by board.now command.now }
{
    match command {
        Command::WorkStarted { machine, board: b } if *b == *board => Some(*machine),
        _ => None,
    }
}

/// Returns the board's product: the one selected at its first start.
pub fn product_of(entries: &[Entry], board: &Id) -> Option<Id>
    ensures { result ≡ product_of (reverse entries.now) board.now }
{
    let mut found = None;
    let mut rest = entries;
    while let Some((entry, before)) = rest.split_last() {
        if let Some(product) = product_by(before, board, &entry.stamped.command) {
            found = Some(product);
        }
        rest = before;
    }
    found
}

/// Returns the selected product if the command starts the board.
fn product_by(before: &[Entry], board: &Id, command: &Command) -> Option<Id>
    ensures { result ≡ option_and_then (selected_on (reverse before.now))
        (start_by board.now command.now) }
{
    let machine = start_by(board, command)?;
    selected_on(before, &machine)
}

fn is_among(designators: &[Designator], designator: &Designator) -> bool
    ensures { result ≡ list_any (same designator.now) designators.now }
{
    designators.iter().any(|d| *designator == *d)
}

fn places(board: &Id, designator: &Designator, command: &Command) -> bool
    ensures { result ≡ places board.now designator.now command.now }
{
    match command {
        Command::MaterialsInstalled {
            board: b,
            designators,
            ..
        } => *b == *board && is_among(designators.as_slice(), designator),
        _ => false,
    }
}

/// Returns whether the designator is placed on the board. It searches the commands, because an
/// accepted install places each of its designators.
pub fn is_placed_on(entries: &[Entry], board: &Id, designator: &Designator) -> bool
    ensures { result ≡ is_placed_on (reverse entries.now) board.now designator.now }
{
    entries
        .iter()
        .rev()
        .any(|entry| places(board, designator, &entry.stamped.command))
}
