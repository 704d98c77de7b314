//! Pieces that a command takes.

ghost use Rattle.std.specs.Prelude.{◌≡◌, ◌++◌, Some, IfOk, OnOk, map, if◌then◌else◌};
ghost use Rattle.std.specs.List.{flat_map};
ghost use Rattle.std.specs.List.Sorted.{IsStrictlySortedBy};
ghost use Rattle.std.specs.Option.{option_map, option_or, option_to_list};
ghost use Rattle.std.specs.BTreeMap.{get, keys, values};
ghost use Rattle.desk_types.specs.Id.{Name, same, by_name};
ghost use Rattle.desk_types.specs.History.{Basis};
ghost use Rattle.desk_types.specs.declared.row.ReelRow.{ReelRow};
ghost use Rattle.desk_types.specs.declared.row.PlacementRow.{PlacementRow};
ghost use Rattle.desk_types.specs.declared.edit.RowEdit.TheVariants.{PutReel, PutPlacement};
ghost use Rattle.desk_types.specs.Tables.{reel_row};
ghost use Rattle.state_rows.specs.After.{placed_row};
ghost use Rattle.state_rows.specs.EditsOf.{pick_of, less_by, LessFits, ArePiecesFitting, picked_rows, take_spent, place_rows, AreTakeEdits};

use crate::views::Views;
use desk_types::{Id, PlacementRow, Purpose, ReelRow, RowEdit, Take};
use std::alloc::{AllocError, Global};
use std::collections::BTreeMap;

/// Takes a take's pieces off a row.
fn lessen(row: &mut ReelRow, take: &Take)
    requires { LessFits (pick_of take.now) row.old }
    ensures { row.new ≡ less_by (pick_of take.now) row.old }
{
    row.remaining = row.remaining.saturating_sub(take.quantity);
    if take.purpose.is_placed() {
        row.placed = row.placed.saturating_add(take.quantity);
    } else {
        row.scrapped = row.scrapped.saturating_add(take.quantity);
    }
}

/// Takes a take's pieces off the row of its reel: that among the rows, or else the desk's.
fn note<D: Views>(rows: &mut BTreeMap<Id, ReelRow>, desk: &D, take: &Take) -> Result<(), AllocError>
    requires fits { (B : Basis) × D.Stands desk.now B
        × ((row : ReelRow)
        → option_or (get by_name rows.old take.now.reel) (reel_row B.history take.now.reel)
        ≡ Some row
        → LessFits (pick_of take.now) row) }
    ensures { (B : Basis) → D.Stands desk.now B → (r : Name) → OnOk result (get by_name rows.new r
        ≡ (if same take.now.reel r then option_map (less_by (pick_of take.now))
        (option_or (get by_name rows.old r) (reel_row B.history r)) else get by_name rows.old r)) }
{
    if let Some(row) = rows.get_mut(&take.reel) {
        lessen(row, take);
        return Ok(());
    }
    if let Some(mut row) = desk.reel_row(&take.reel) {
        lessen(&mut row, take);
        rows.insert(take.reel, row)?;
        return Ok(());
    }
    Ok(())
}

/// The rows of the reels off which pieces come.
fn gather<D: Views>(
    alloc: Global,
    desk: &D,
    takes: &[Take],
) -> Result<BTreeMap<Id, ReelRow>, AllocError>
    requires fits { (B : Basis) × D.Stands desk.now B
        × ArePiecesFitting B.history (map pick_of takes.now) }
    ensures { (B : Basis) → D.Stands desk.now B
        → IfOk result (λ rows. (r : Name)
        → get by_name rows r ≡ picked_rows (reel_row B.history) (map pick_of takes.now) r) }
{
    let mut rows = BTreeMap::new(alloc);
    for take in takes {
        note(&mut rows, desk, take)?;
    }
    Ok(rows)
}

fn take_off(edits: &mut Vec<RowEdit>, rows: &BTreeMap<Id, ReelRow>) -> Result<(), AllocError>
    ensures { OnOk result
        (edits.new.items ≡ edits.old.items ++ flat_map take_spent (values rows.now)) }
{
    for row in rows.values() {
        take_if(edits, row)?;
    }
    Ok(())
}

fn take_if(edits: &mut Vec<RowEdit>, row: &ReelRow) -> Result<(), AllocError>
    ensures { OnOk result (edits.new.items ≡ edits.old.items ++ take_spent row.now) }
{
    if row.remaining == 0 {
        edits.push(RowEdit::TakeMount { reel: row.reel })?;
        return Ok(());
    }
    Ok(())
}

fn put_all(edits: &mut Vec<RowEdit>, rows: &BTreeMap<Id, ReelRow>) -> Result<(), AllocError>
    ensures put { OnOk result
        (edits.new.items ≡ edits.old.items ++ map (λ row. PutReel row) (values rows.now)) }
    ensures ordered { IsStrictlySortedBy by_name (keys rows.now) }
{
    for row in rows.values() {
        edits.push(RowEdit::PutReel(*row))?;
    }
    Ok(())
}

/// Puts the row of a placed piece.
fn place(edits: &mut Vec<RowEdit>, number: u64, place: u64, take: &Take) -> Result<(), AllocError>
    ensures { OnOk result
        (edits.new.items ≡ edits.old.items ++
        option_to_list (option_map
        (λ (r : PlacementRow). PutPlacement r) (placed_row number place take.now))) }
{
    if let Purpose::Placed {
        board,
        designator,
        machine,
        slot,
    } = &take.purpose
    {
        edits.push(RowEdit::PutPlacement(PlacementRow {
            number,
            place,
            board: *board,
            designator: *designator,
            machine: *machine,
            slot: *slot,
            reel: take.reel,
            overdue: take.overdue,
        }))?;
    }
    Ok(())
}

/// The rows of the placed pieces, in places from 1.
fn place_all(edits: &mut Vec<RowEdit>, number: u64, takes: &[Take]) -> Result<(), AllocError>
    ensures { OnOk result (edits.new.items ≡ edits.old.items ++ place_rows number 1 takes.now) }
{
    for index in 0..takes.len() {
        place(edits, number, index as u64 + 1, &takes[index])?;
    }
    Ok(())
}

/// The edits of takes.
pub fn take<D: Views>(
    alloc: Global,
    desk: &D,
    number: u64,
    takes: &[Take],
) -> Result<Vec<RowEdit>, AllocError>
    // Judging took no more from a reel than it has, so no number falls below 0.
    requires fits { (B : Basis) × D.Stands desk.now B
        × ArePiecesFitting B.history (map pick_of takes.now) }
    ensures { (B : Basis) → D.Stands desk.now B
        → IfOk result (λ edits. AreTakeEdits B.history number takes.now edits.items) }
{
    let rows = gather(alloc, desk, takes)?;
    let pieces_and_reels = takes.len().saturating_add(rows.len().saturating_mul(2));
    let mut edits = Vec::with_capacity(alloc, pieces_and_reels)?;
    take_off(&mut edits, &rows)?;
    put_all(&mut edits, &rows)?;
    place_all(&mut edits, number, takes)?;
    Ok(edits)
}
