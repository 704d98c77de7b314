//! Which commands close an entry, and which entries stop a machine.

ghost use Rattle.std.specs.Prelude.{◌≡◌};
ghost use Rattle.desk_laws.specs.TapeOrder.{restarts};
ghost use Rattle.line_book.specs.Book.{closes, decides, is_fault, handles, mounts_reel, unloads, begins};
ghost use Rattle.line_book.specs.Causes.{concerns, is_on};
ghost use Rattle.line_book.specs.Undecided.{needs_decision, same_refusal, repeats};

use crate::note::{Matter, Note};
use desk_types::{Command, Id, SheetRows};
use setup_sheets::row_of;

/// Returns whether the accepted command closes the entry.
pub fn closes(matter: &Matter, command: &Command) -> bool
    ensures { result ≡ closes matter.now command.now }
{
    match matter {
        Matter::Handling { machine, slot, .. } => handles(machine, slot, command),
        Matter::Stray {
            reel: Some(reel),
            ..
        } => mounts_reel(reel, command),
        Matter::Stray {
            machine,
            reel: None,
            ..
        } => unloads(machine, command),
        Matter::Work { machine, .. } => begins(machine, command),
        Matter::Differs { machine, slot, .. } => restarts(machine, slot, command),
        _ => false,
    }
}

fn handles(machine: &Id, slot: &Id, command: &Command) -> bool
    ensures { result ≡ handles machine.now slot.now command.now }
{
    match command {
        Command::MaterialsLoaded {
            machine: m,
            slot: s,
            ..
        } => *m == *machine && *s == *slot,
        Command::MaterialsSpliced {
            machine: m,
            slot: s,
            ..
        } => *m == *machine && *s == *slot,
        Command::MaterialsUnloaded {
            machine: m,
            slot: s,
        } => *m == *machine && *s == *slot,
        _ => false,
    }
}

fn restarts(machine: &Id, slot: &Id, command: &Command) -> bool
    ensures { result ≡ restarts machine.now slot.now command.now }
{
    match command {
        Command::MaterialsLoaded {
            machine: m,
            slot: s,
            ..
        } => *m == *machine && *s == *slot,
        Command::MaterialsUnloaded {
            machine: m,
            slot: s,
        } => *m == *machine && *s == *slot,
        _ => false,
    }
}

fn mounts_reel(reel: &Id, command: &Command) -> bool
    ensures { result ≡ mounts_reel reel.now command.now }
{
    match command {
        Command::MaterialsLoaded { reel: r, .. } => *r == *reel,
        Command::MaterialsSpliced { reel: r, .. } => *r == *reel,
        _ => false,
    }
}

fn unloads(machine: &Id, command: &Command) -> bool
    ensures { result ≡ unloads machine.now command.now }
{
    match command {
        Command::MaterialsUnloaded { machine: m, .. } => *m == *machine,
        _ => false,
    }
}

fn begins(machine: &Id, command: &Command) -> bool
    ensures { result ≡ begins machine.now command.now }
{
    match command {
        Command::WorkStarted { machine: m, .. } => *m == *machine,
        _ => false,
    }
}

/// Returns whether an entry of this kind stops its machine until it is closed or decided.
pub fn is_fault(matter: &Matter) -> bool
    ensures { result ≡ is_fault matter.now }
{
    match matter {
        Matter::Handling { .. } => true,
        Matter::Stray { .. } => true,
        Matter::Work { .. } => true,
        Matter::Differs { .. } => true,
        _ => false,
    }
}

/// Returns whether somebody has to decide about an entry of this kind.
pub fn needs_decision(matter: &Matter) -> bool
    ensures { result ≡ needs_decision matter.now }
{
    match matter {
        Matter::Work { .. } => true,
        Matter::Unread { .. } => true,
        Matter::Differs { .. } => true,
        Matter::Uncompared { .. } => true,
        _ => false,
    }
}

/// Returns whether the entry is a decision about the entry with the number.
pub fn decides(number: u32, matter: &Matter) -> bool
    ensures { result ≡ decides number matter.now }
{
    match matter {
        Matter::Decision { about } => *about == number,
        _ => false,
    }
}

/// Returns whether the entry speaks of the machine while it has this sheet.
pub fn concerns(sheet: &Option<SheetRows>, machine: &Id, matter: &Matter) -> bool
    ensures { result ≡ concerns sheet.now machine.now matter.now }
{
    match matter {
        Matter::Handling {
            machine: m,
            slot,
            ..
        } => *m == *machine && is_on(sheet, slot),
        Matter::Stray { machine: m, .. } => *m == *machine,
        Matter::Work { machine: m, .. } => *m == *machine,
        Matter::Differs {
            machine: m,
            slot,
            ..
        } => *m == *machine && is_on(sheet, slot),
        _ => false,
    }
}

fn is_on(sheet: &Option<SheetRows>, slot: &Id) -> bool
    ensures { result ≡ is_on sheet.now slot.now }
{
    match sheet {
        Some(rows) => row_of(rows, slot).is_some(),
        None => false,
    }
}

/// Returns whether the entries are of one refusal: the same kind, word and command.
pub fn repeats(a: &Note, b: &Note) -> bool
    ensures { result ≡ repeats a.now b.now }
{
    same_refusal(&a.matter, &b.matter) && a.text == b.text
}

fn same_refusal(a: &Matter, b: &Matter) -> bool
    ensures { result ≡ same_refusal a.now b.now }
{
    match (a, b) {
        (Matter::Handling { word, .. }, Matter::Handling { word: w, .. }) => *word == *w,
        (Matter::Stray { word, .. }, Matter::Stray { word: w, .. }) => *word == *w,
        (Matter::Work { word, .. }, Matter::Work { word: w, .. }) => *word == *w,
        (Matter::Unread { word }, Matter::Unread { word: w }) => *word == *w,
        _ => false,
    }
}
