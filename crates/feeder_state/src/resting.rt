//! The reels that may be at rest, by their part: with pieces left, and on no slot.

ghost use Rattle.std.specs.Prelude.{◌≡◌, ◌||◌, ◌==◌, true, false, is_some, if◌then◌else◌, IfOk, OnOk};
ghost use Rattle.std.specs.List.{list_any};
ghost use Rattle.desk_types.specs.Id.{Name, same};
ghost use Rattle.desk_types.specs.History.{History};
ghost use Rattle.feeder_state.specs.Tape.{tape_at};
ghost use Rattle.desk_types.specs.Pieces.{is_mounted};
ghost use Rattle.desk_types.specs.Row.{IsRowOf};
ghost use Rattle.desk_types.specs.View.{part_of};
ghost use Rattle.state_rows.specs.Kept.{tables_in};
ghost use Rattle.feeder_state.specs.Restored.{AreRowsOf};
ghost use Rattle.feeder_state.specs.Rows.{left_at};
ghost use Rattle.feeder_state.specs.Resting.{rests, row_rests, rests_at, resting_after};
ghost use Rattle.feeder_state.specs.Sets.{is_name_at};

use crate::sets::{put_name, take_name};
use crate::tape::Tape;
use crate::tapes::is_spent;
use desk_types::{Command, Id, ReelRow, Take};
use state_rows::RowSet;
use std::alloc::{AllocError, Global};
use std::collections::{BTreeMap, BTreeSet};

/// Whether a reel has pieces left and is on no slot.
pub fn is_at_rest(row: &ReelRow, on_slot: bool) -> bool
    // A law of the row alone, for a caller that has no history.
    ensures row { result ≡ row_rests on_slot row.now }
    // If the row is a history's, this is the definition's value for that history.
    ensures listed { (H : History) (name : Name) → IsRowOf H name row.now
        → on_slot ≡ is_mounted H name → result ≡ rests H name }
{
    row.remaining > 0 && !on_slot
}

fn put_reel(
    alloc: Global,
    rows: &RowSet,
    resting: &mut BTreeMap<Id, BTreeSet<Id>>,
    reel: &Id,
) -> Result<(), AllocError>
    ensures { (r : Name) → is_some ((tables_in rows.now).reels r) ≡ true
        → OnOk result (rests_at rows.now resting.new r
        ≡ (same reel.now r || rests_at rows.now resting.old r)) }
{
    if let Some(row) = rows.reel(reel) {
        put_name(alloc, resting, &row.part, *reel)?;
    }
    Ok(())
}

fn take_reel(rows: &RowSet, resting: &mut BTreeMap<Id, BTreeSet<Id>>, reel: &Id)
    ensures { (r : Name) → is_some ((tables_in rows.now).reels r) ≡ true
        → rests_at rows.now resting.new r
        ≡ (if same reel.now r then false else rests_at rows.now resting.old r) }
{
    if let Some(row) = rows.reel(reel) {
        take_name(resting, &row.part, reel);
    }
}

fn put_tape(
    alloc: Global,
    rows: &RowSet,
    resting: &mut BTreeMap<Id, BTreeSet<Id>>,
    tape: &Tape,
) -> Result<(), AllocError>
    ensures { (r : Name) → is_some ((tables_in rows.now).reels r) ≡ true
        → OnOk result (rests_at rows.now resting.new r
        ≡ (list_any (same r) tape.now || rests_at rows.now resting.old r)) }
{
    for i in 0..tape.reels.len() {
        put_reel(alloc, rows, resting, &tape.reels[i])?;
    }
    Ok(())
}

fn put_slot(
    alloc: Global,
    rows: &RowSet,
    resting: &mut BTreeMap<Id, BTreeSet<Id>>,
    tapes: &BTreeMap<(Id, Id), Tape>,
    machine: &Id,
    slot: &Id,
) -> Result<(), AllocError>
    ensures { (r : Name) → is_some ((tables_in rows.now).reels r) ≡ true
        → OnOk result
        (rests_at rows.now resting.new r ≡ (list_any (same r)
        (tape_at tapes.now machine.now slot.now) || rests_at rows.now resting.old r)) }
{
    if let Some(tape) = tapes.get(&(*machine, *slot)) {
        put_tape(alloc, rows, resting, tape)?;
    }
    Ok(())
}

/// The reels that may be at rest after a command, whose rows these are; `tapes` are those before it.
pub fn note_resting(
    alloc: Global,
    rows: &RowSet,
    resting: &mut BTreeMap<Id, BTreeSet<Id>>,
    tapes: &BTreeMap<(Id, Id), Tape>,
    command: &Command,
) -> Result<(), AllocError>
    // Of each reel that was received: others have no part.
    ensures { (r : Name) → is_some ((tables_in rows.now).reels r) ≡ true
        → OnOk result
        (rests_at rows.now resting.new r
        ≡ resting_after (tape_at tapes.now) r command.now (rests_at rows.now resting.old r)) }
{
    match command {
        Command::ReelReceived { reel, .. } => put_reel(alloc, rows, resting, reel)?,
        Command::MaterialsUnloaded { machine, slot } => {
            put_slot(alloc, rows, resting, tapes, machine, slot)?
        }
        Command::MaterialsLoaded { reel, .. } => take_reel(rows, resting, reel),
        Command::MaterialsSpliced { reel, .. } => take_reel(rows, resting, reel),
        _ => {}
    }
    Ok(())
}

fn end_rest(rows: &RowSet, resting: &mut BTreeMap<Id, BTreeSet<Id>>, reel: &Id)
    ensures { (r : Name) → (left_at rows.now r == 0) ≡ false
        → rests_at rows.now resting.new r ≡ rests_at rows.now resting.old r }
{
    if is_spent(rows, reel) {
        take_reel(rows, resting, reel);
    }
}

fn end_each(rows: &RowSet, resting: &mut BTreeMap<Id, BTreeSet<Id>>, takes: &[Take])
    ensures { (r : Name) → (left_at rows.now r == 0) ≡ false
        → rests_at rows.now resting.new r ≡ rests_at rows.now resting.old r }
{
    for take in takes {
        end_rest(rows, resting, &take.reel);
    }
}

/// Takes out the reels that a command left with no pieces: only a count takes pieces of reels at rest.
pub fn end_rests(
    rows: &RowSet,
    resting: &mut BTreeMap<Id, BTreeSet<Id>>,
    command: &Command,
    takes: &[Take],
)
    ensures { (r : Name) → (left_at rows.now r == 0) ≡ false
        → rests_at rows.now resting.new r ≡ rests_at rows.now resting.old r }
{
    if let Command::CountsTaken { .. } = command {
        end_each(rows, resting, takes);
    }
}

/// The reels at rest, by their part.
pub fn resting_of(alloc: Global, rows: &RowSet) -> Result<BTreeMap<Id, BTreeSet<Id>>, AllocError>
    ensures { (H : History) → AreRowsOf H rows.now → (r : Name)
        → IfOk result
        (λ resting. rests H r ≡ true → is_name_at resting (part_of H r) r ≡ true) }
{
    let mut resting = BTreeMap::new(alloc);
    for (name, row) in rows.reels() {
        if is_at_rest(row, rows.is_mounted(name)) {
            put_name(alloc, &mut resting, &row.part, *name)?;
        }
    }
    Ok(resting)
}
