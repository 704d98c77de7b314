//! Validation of a sheet.

ghost use Rattle.std.specs.Prelude.{◌≡◌, ◌++◌, List, [], Ok, None, IfOk};
ghost use Rattle.desk_types.specs.Id.{Name};
ghost use Rattle.desk_types.specs.Refusals.{name_twice, slots_of_rows, designators_of_rows, unknown_part};
ghost use Rattle.setup_sheets.specs.Names.{HasSeen, is_among};
ghost use Rattle.setup_sheets.specs.Sheet.{IsChecked};

use crate::parts::Parts;
use desk_types::{Designator, Id, Refusal, SheetRow};
use std::alloc::{AllocError, Global};
use std::collections::BTreeSet;

/// Why a sheet is invalid.
#[derive(Clone, Copy, PartialEq, Eq)]
pub enum SheetFault {
    /// `SlotTwice`, `DesignatorTwice` or `UnknownPart`, with the name at fault.
    Refused(Refusal),
    /// There was too little memory to check the sheet.
    NoMemory,
}

impl From<AllocError> for SheetFault {
    ghost use Rattle.std.specs.Prelude.{◌≡◌};
    ghost use Rattle.setup_sheets.specs.declared.sheet.SheetFault.TheVariants.{NoMemory};

    ghost from_gives = { λ _ fault. fault ≡ NoMemory };

    fn from(_error: AllocError) -> SheetFault {
        SheetFault::NoMemory
    }
}

/// Checks a sheet for a repeated slot, then a repeated designator, then an unknown part.
///
/// It uses search trees, so the time grows little faster than the sheet.
#[tactic(auto, unfolding(desk_types::specs::Refusals::sheet_refusal))]
pub fn check_sheet(alloc: Global, parts: &Parts, rows: &[SheetRow]) -> Result<(), SheetFault>
    ensures { IsChecked parts.now rows.now result }
{
    if let Some(slot) = slot_twice(alloc, rows)? {
        return Err(SheetFault::Refused(Refusal::SlotTwice(slot)));
    }
    if let Some(designator) = designator_twice(alloc, rows)? {
        return Err(SheetFault::Refused(Refusal::DesignatorTwice(Id::from(designator))));
    }
    match part_unknown(parts, rows) {
        Some(part) => Err(SheetFault::Refused(Refusal::UnknownPart(part))),
        None => Ok(()),
    }
}

fn slot_twice(alloc: Global, rows: &[SheetRow]) -> Result<Option<Id>, AllocError>
    ensures { IfOk result (λ twice. twice ≡ name_twice [] (slots_of_rows rows.now)) }
{
    let mut seen = BTreeSet::new(alloc);
    for row in rows {
        if !seen.insert(row.slot)? {
            return Ok(Some(row.slot));
        }
    }
    Ok(None)
}

fn designator_twice(alloc: Global, rows: &[SheetRow]) -> Result<Option<Designator>, AllocError>
    ensures { IfOk result (λ twice. twice ≡ name_twice [] (designators_of_rows rows.now)) }
{
    let mut seen = BTreeSet::new(alloc);
    for row in rows {
        if let Some(designator) = twice_in(&mut seen, row.designators.as_slice())? {
            return Ok(Some(designator));
        }
    }
    Ok(None)
}

/// Returns the first designator that was seen before. Otherwise all of them are added to `seen`.
fn twice_in(
    seen: &mut BTreeSet<Designator>,
    designators: &[Designator],
) -> Result<Option<Designator>, AllocError>
    ensures twice { (before : List Name) → HasSeen seen.old before
        → IfOk result (λ twice. twice ≡ name_twice before designators.now) }
    // A designator may occur once in a whole sheet, so those of earlier rows count too.
    ensures seen { (before : List Name) → HasSeen seen.old before → result ≡ Ok None
        → HasSeen seen.new (before ++ designators.now) }
{
    for designator in designators {
        if !seen.insert(*designator)? {
            return Ok(Some(*designator));
        }
    }
    Ok(None)
}

fn part_unknown(parts: &Parts, rows: &[SheetRow]) -> Option<Id>
    ensures { result ≡ unknown_part (is_among parts.now) rows.now }
{
    rows.iter()
        .find(|row| !parts.has(&row.part))
        .map(|row| row.part)
}
