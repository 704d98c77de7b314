//! The desk minute, alternates, sheets, selections and receipts. Entries come oldest first.

ghost use Rattle.std.specs.Prelude.{◌≡◌, reverse};
ghost use Rattle.std.specs.Option.{option_copied};
ghost use Rattle.desk_types.specs.History.{desk_minute};
ghost use Rattle.desk_types.specs.Setup.{allows, is_alternate, is_allowed, sheet_by, sheet_of, selection_by, selected_on, sheet_on, row_on, slot_on, receipt_by, receipt_of};

use desk_types::{Command, Designator, Entry, Id, Minute, Receipt, SheetRow, SheetRows};
use setup_sheets::{row_of, slot_of};

/// Returns the greatest effective minute.
pub fn desk_minute(entries: &[Entry]) -> Option<Minute>
    ensures { result ≡ desk_minute (reverse entries.now) }
{
    let mut desk = None;
    for entry in entries {
        desk = match desk {
            Some(minute) if minute > entry.effective => Some(minute),
            _ => Some(entry.effective),
        };
    }
    desk
}

fn allows(part: &Id, alternate: &Id, command: &Command) -> bool
    ensures { result ≡ allows part.now alternate.now command.now }
{
    match command {
        Command::AlternateAllowed {
            part: p,
            alternate: q,
        } => *p == *part && *q == *alternate,
        _ => false,
    }
}

fn is_alternate(entries: &[Entry], part: &Id, alternate: &Id) -> bool
    ensures { result ≡ is_alternate (reverse entries.now) part.now alternate.now }
{
    entries
        .iter()
        .rev()
        .any(|entry| allows(part, alternate, &entry.stamped.command))
}

/// Returns whether the other part may replace the part.
pub fn is_allowed(entries: &[Entry], part: &Id, other: &Id) -> bool
    ensures { result ≡ is_allowed (reverse entries.now) part.now other.now }
{
    *other == *part || is_alternate(entries, part, other)
}

fn sheet_by<'a>(product: &Id, machine: &Id, command: &'a Command) -> Option<&'a SheetRows>
    ensures { option_copied result ≡ sheet_by product.now machine.now command.now }
{
    match command {
        Command::SheetDefined {
            product: p,
            machine: m,
            rows,
        } if *p == *product && *m == *machine => Some(rows),
        _ => None,
    }
}

/// Returns the product's last sheet on the machine.
pub fn sheet_of<'a>(entries: &'a [Entry], product: &Id, machine: &Id) -> Option<&'a SheetRows>
    ensures { option_copied result ≡ sheet_of (reverse entries.now) product.now machine.now }
{
    let mut rest = entries;
    while let Some((entry, before)) = rest.split_last() {
        if let Some(rows) = sheet_by(product, machine, &entry.stamped.command) {
            return Some(rows);
        }
        rest = before;
    }
    None
}

fn selection_by(machine: &Id, command: &Command) -> Option<Id>
    ensures { result ≡ selection_by machine.now command.now }
{
    match command {
        Command::ProductSelected {
            machine: at,
            product,
        } if *at == *machine => Some(*product),
        _ => None,
    }
}

/// Returns the product last selected on the machine.
pub fn selected_on(entries: &[Entry], machine: &Id) -> Option<Id>
    ensures { result ≡ selected_on (reverse entries.now) machine.now }
{
    let mut rest = entries;
    while let Some((entry, before)) = rest.split_last() {
        if let Some(product) = selection_by(machine, &entry.stamped.command) {
            return Some(product);
        }
        rest = before;
    }
    None
}

/// Returns the selected product's sheet on the machine.
pub fn sheet_on<'a>(entries: &'a [Entry], machine: &Id) -> Option<&'a SheetRows>
    ensures { option_copied result ≡ sheet_on (reverse entries.now) machine.now }
{
    let product = selected_on(entries, machine)?;
    sheet_of(entries, &product, machine)
}

pub fn row_on<'a>(entries: &'a [Entry], machine: &Id, slot: &Id) -> Option<&'a SheetRow>
    ensures { option_copied result ≡ row_on (reverse entries.now) machine.now slot.now }
{
    let rows = sheet_on(entries, machine)?;
    row_of(rows, slot)
}

pub fn slot_on(entries: &[Entry], machine: &Id, designator: &Designator) -> Option<Id>
    ensures { result ≡ slot_on (reverse entries.now) machine.now designator.now }
{
    let rows = sheet_on(entries, machine)?;
    slot_of(rows, designator)
}

pub fn receipt_by(reel: &Id, effective: Minute, command: &Command) -> Option<Receipt>
    ensures { result ≡ receipt_by reel.now effective command.now }
{
    match command {
        Command::ReelReceived {
            reel: r,
            part,
            lot,
            moisture,
            quantity,
        } if *r == *reel => Some(Receipt {
            part: *part,
            lot: *lot,
            moisture: *moisture,
            quantity: *quantity,
            effective,
        }),
        _ => None,
    }
}

pub fn receipt(entries: &[Entry], reel: &Id) -> Option<Receipt>
    ensures { result ≡ receipt_of (reverse entries.now) reel.now }
{
    let mut rest = entries;
    while let Some((entry, before)) = rest.split_last() {
        if let Some(found) = receipt_by(reel, entry.effective, &entry.stamped.command) {
            return Some(found);
        }
        rest = before;
    }
    None
}
