//! The reels that could be loaded for a part.

ghost use Rattle.std.specs.Prelude.{◌≡◌, ◌++◌, List, Some, map, IfOk, OnOk};
ghost use Rattle.std.specs.List.{filter, filter_map, flat_map};
ghost use Rattle.std.specs.Option.{option_map};
ghost use Rattle.desk_types.specs.Id.{Name};
ghost use Rattle.desk_types.specs.History.{History, now_of};
ghost use Rattle.desk_types.specs.Pieces.{is_mounted};
ghost use Rattle.desk_types.specs.Row.{IsRowOf};
ghost use Rattle.desk_types.specs.View.{life_left, reel_view};
ghost use Rattle.desk_types.specs.Free.{reels_received, is_free, by_turn, in_order, free_reels};
ghost use Rattle.setup_sheets.specs.Alternates.{AreAlternates};
ghost use Rattle.judging.specs.Turns.{turn_of, if_free};
ghost use Rattle.feeder_state.specs.Rows.{AreRowsAt};
ghost use Rattle.feeder_state.specs.Floor.{IsFloor};
ghost use Rattle.feeder_state.specs.Sets.{names_at};
ghost use Rattle.feeder_state.specs.Setup.{IsSetup};

use crate::floor::Floor;
use crate::resting::is_at_rest;
use crate::setup::Setup;
use crate::views::reel_view_at;
use desk_types::{Id, Left, Listing, Minute, ReelRow, ReelView, ReelViews};
use judging::lives::{is_usable, life_left};
use judging::sets::{insert_if, push_if};
use setup_sheets::{Alternates, allowed};
use state_rows::RowSet;
use std::alloc::{AllocError, Global};
use std::collections::BTreeSet;

/// Returns whether a reel with this left could be loaded where a sheet requires the part.
fn is_free(alternates: &Alternates, part: &Id, row: &ReelRow, on_slot: bool, left: Left) -> bool
    ensures { (H : History) (name : Name) → AreAlternates H alternates.now
        → IsRowOf H name row.now → on_slot ≡ is_mounted H name
        → left ≡ life_left H name → result ≡ is_free H part.now name }
{
    allowed(alternates, part, &row.part) && !on_slot && row.remaining > 0 && is_usable(left)
}

fn turn_of(
    row: &ReelRow,
    on_slot: bool,
    minute: Minute,
    alternates: &Alternates,
    part: &Id,
    name: &Id,
) -> Option<(Left, Id)>
    ensures { (H : History) → IsRowOf H name.now row.now → on_slot ≡ is_mounted H name.now
        → now_of H ≡ minute → AreAlternates H alternates.now
        → result ≡ option_map (turn_of H) (if_free H part.now name.now) }
{
    if !is_at_rest(row, on_slot) {
        return None;
    }
    let left = life_left(row, minute);
    if !is_free(alternates, part, row, on_slot, left) {
        return None;
    }
    Some((left, *name))
}

fn turn_at(
    rows: &RowSet,
    minute: Minute,
    alternates: &Alternates,
    part: &Id,
    name: &Id,
) -> Option<(Left, Id)>
    ensures { (H : History) → AreRowsAt H (Some minute) rows.now → AreAlternates H alternates.now
        → result ≡ option_map (turn_of H) (if_free H part.now name.now) }
{
    let row = rows.reel(name)?;
    turn_of(row, rows.is_mounted(name), minute, alternates, part, name)
}

/// Adds the turns of the free reels among these. The set orders them, whichever reel is looked at first.
fn put_turns(
    turns: &mut BTreeSet<(Left, Id)>,
    rows: &RowSet,
    minute: Minute,
    alternates: &Alternates,
    part: &Id,
    reels: &BTreeSet<Id>,
) -> Result<(), AllocError>
    ensures { (H : History) (names : List Name) → AreRowsAt H (Some minute) rows.now
        → AreAlternates H alternates.now
        → turns.old.keys ≡ map (turn_of H)
        (in_order (by_turn H) (filter (is_free H part.now) names))
        → OnOk result (turns.new.keys ≡ map (turn_of H)
        (in_order (by_turn H) (filter (is_free H part.now) (names ++ reels.now.keys)))) }
{
    for name in reels {
        insert_if(turns, turn_at(rows, minute, alternates, part, name))?;
    }
    Ok(())
}

/// Adds the turns of the free reels among those of one part that may be at rest.
fn put_part(
    turns: &mut BTreeSet<(Left, Id)>,
    rows: &RowSet,
    floor: &Floor,
    minute: Minute,
    alternates: &Alternates,
    part: &Id,
    used: &Id,
) -> Result<(), AllocError>
    ensures { (H : History) (names : List Name) → AreRowsAt H (Some minute) rows.now
        → AreAlternates H alternates.now
        → turns.old.keys ≡ map (turn_of H)
        (in_order (by_turn H) (filter (is_free H part.now) names))
        → OnOk result (turns.new.keys ≡ map (turn_of H)
        (in_order (by_turn H)
        (filter (is_free H part.now) (names ++ names_at floor.now.resting used.now)))) }
{
    if let Some(reels) = floor.resting.get(used) {
        put_turns(turns, rows, minute, alternates, part, reels)?;
    }
    Ok(())
}

/// Adds the turns of the free reels among those of these parts that may be at rest.
fn put_others(
    turns: &mut BTreeSet<(Left, Id)>,
    rows: &RowSet,
    floor: &Floor,
    minute: Minute,
    alternates: &Alternates,
    part: &Id,
    others: &BTreeSet<Id>,
) -> Result<(), AllocError>
    ensures { (H : History) (names : List Name) → AreRowsAt H (Some minute) rows.now
        → AreAlternates H alternates.now
        → turns.old.keys ≡ map (turn_of H)
        (in_order (by_turn H) (filter (is_free H part.now) names))
        → OnOk result (turns.new.keys ≡ map (turn_of H)
        (in_order (by_turn H) (filter (is_free H part.now)
        (names ++ flat_map (names_at floor.now.resting) others.now.keys)))) }
{
    for other in others {
        put_part(turns, rows, floor, minute, alternates, part, other)?;
    }
    Ok(())
}

/// Adds the turns of the free reels among those of the part's alternates that may be at rest.
fn put_alternates(
    turns: &mut BTreeSet<(Left, Id)>,
    rows: &RowSet,
    floor: &Floor,
    setup: &Setup,
    minute: Minute,
    alternates: &Alternates,
    part: &Id,
) -> Result<(), AllocError>
    ensures { (H : History) (names : List Name) → AreRowsAt H (Some minute) rows.now
        → AreAlternates H alternates.now
        → turns.old.keys ≡ map (turn_of H)
        (in_order (by_turn H) (filter (is_free H part.now) names))
        → OnOk result (turns.new.keys ≡ map (turn_of H)
        (in_order (by_turn H) (filter (is_free H part.now)
        (names ++ flat_map (names_at floor.now.resting)
        (names_at setup.now.alternates part.now))))) }
{
    if let Some(others) = setup.alternates.get(part) {
        put_others(turns, rows, floor, minute, alternates, part, others)?;
    }
    Ok(())
}

/// The turns of the free reels, which are among those of the part and of its alternates that may be
/// at rest.
fn turns(
    alloc: Global,
    rows: &RowSet,
    floor: &Floor,
    setup: &Setup,
    minute: Minute,
    alternates: &Alternates,
    part: &Id,
) -> Result<BTreeSet<(Left, Id)>, AllocError>
    ensures { (H : History) → AreRowsAt H (Some minute) rows.now → IsFloor H floor.now
        → IsSetup H setup.now → AreAlternates H alternates.now
        → IfOk result
        (λ turns. turns.keys ≡ map (turn_of H)
        (in_order (by_turn H) (filter (is_free H part.now) (reels_received H)))) }
{
    let mut turns = BTreeSet::new(alloc);
    put_part(&mut turns, rows, floor, minute, alternates, part, part)?;
    put_alternates(&mut turns, rows, floor, setup, minute, alternates, part)?;
    Ok(turns)
}

fn views_of(
    alloc: Global,
    rows: &RowSet,
    minute: Minute,
    turns: &BTreeSet<(Left, Id)>,
) -> Result<Vec<ReelView>, AllocError>
    ensures { (H : History) → AreRowsAt H (Some minute) rows.now
        → IfOk result (λ views. views.items ≡ filter_map
        (λ turn. reel_view H turn.1) turns.now.keys) }
{
    let mut views = Vec::new(alloc);
    for turn in turns {
        push_if(&mut views, reel_view_at(rows, minute, &turn.1))?;
    }
    Ok(views)
}

/// Returns the reels that could be loaded for the part at the desk minute, in the order of use.
pub fn free_reels(
    alloc: Global,
    rows: &RowSet,
    floor: &Floor,
    setup: &Setup,
    minute: Option<Minute>,
    alternates: &Alternates,
    part: &Id,
) -> Result<ReelViews, AllocError>
    ensures { (H : History) → AreRowsAt H minute rows.now → IsFloor H floor.now
        → IsSetup H setup.now → AreAlternates H alternates.now
        → IfOk result (λ reels. reels ≡ free_reels H part.now) }
{
    let Some(minute) = minute else {
        return Ok(Listing::new(Vec::new(alloc)));
    };
    let turns = turns(alloc, rows, floor, setup, minute, alternates, part)?;
    let views = views_of(alloc, rows, minute, &turns)?;
    Ok(Listing::new(views))
}
