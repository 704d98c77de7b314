//! Pieces in doubt by an entry of the book.

ghost use Rattle.std.specs.Prelude.{◌≡◌, map, length, true, IfOk, OnOk};
ghost use Rattle.std.specs.Option.{option_or};
ghost use Rattle.line_doubt.specs.Order.{notes_rise, pieces_rise};
ghost use Rattle.line_doubt.specs.Sources.{Joint, boundary_at, boundary_by, joint_of, number_at, number_in, restarted_by, unsettled_by};

use crate::asking::asks_of;
use crate::best::best_before;
use crate::comparing::{numbers_above, values_of};
use crate::mark::number_after;
use crate::marking::{restart_marks, unsettled_marks};
use desk_types::{Id, Placement, Stamped};
use line_book::{Matter, Note};
use std::alloc::{AllocError, Global};
use std::collections::BTreeMap;

/// Returns for each piece the number of the entry of its slot that makes it doubtful: it was placed
/// after a refused handling or a difference there, and before the slot's next load or unload.
pub fn unsettled_by(
    alloc: Global,
    commands: &[Stamped],
    book: &[Note],
    placed: &[Placement],
) -> Result<Vec<Option<u64>>, AllocError>
    requires book { notes_rise (length commands.now) book.now ≡ true }
    requires placed { pieces_rise (length commands.now) placed.now ≡ true }
    ensures { IfOk result (λ found.
        found.items ≡ map (unsettled_by commands.now book.now) placed.now) }
{
    let restarted = restarts_before(alloc, commands, placed)?;
    let asks = asks_of(alloc, placed)?;
    let refusals = unsettled_marks(alloc, book)?;
    let refused = best_before(alloc, &refusals, &asks)?;
    numbers_above(alloc, &refused, &restarted)
}

/// Returns for each piece the number of its slot's last load or unload before its install, or 0.
pub fn restarts_before(
    alloc: Global,
    commands: &[Stamped],
    placed: &[Placement],
) -> Result<Vec<u64>, AllocError>
    requires { pieces_rise (length commands.now) placed.now ≡ true }
    ensures { IfOk result (λ numbers.
        numbers.items ≡ map (restarted_by commands.now) placed.now) }
{
    let asks = asks_of(alloc, placed)?;
    let restarts = restart_marks(alloc, commands)?;
    let last = best_before(alloc, &restarts, &asks)?;
    values_of(alloc, &last)
}

/// Returns for each piece the number of the entry of the book that is a boundary of it.
pub fn boundaries_by(
    alloc: Global,
    book: &[Note],
    placed: &[Placement],
) -> Result<Vec<Option<u64>>, AllocError>
    ensures { IfOk result (λ found. found.items ≡ map (boundary_by book.now) placed.now) }
{
    let joints = joints_in(alloc, book)?;
    let mut found = Vec::new(alloc);
    for piece in placed {
        found.push(number_in(&joints, piece))?;
    }
    Ok(found)
}

fn number_in(joints: &BTreeMap<(u64, (Id, Id), (Id, Id)), u64>, piece: &Placement) -> Option<u64>
    ensures { result ≡ number_in joints.now (joint_of piece.now) }
{
    match joints.get(&(
        piece.number,
        (piece.machine, piece.slot),
        (piece.board, piece.reel),
    )) {
        Some(number) => Some(*number),
        None => None,
    }
}

fn joints_in(
    alloc: Global,
    book: &[Note],
) -> Result<BTreeMap<(u64, (Id, Id), (Id, Id)), u64>, AllocError>
    ensures { (joint : Joint) → IfOk result (λ joints.
        number_in joints joint ≡ boundary_at book.now joint) }
{
    let mut joints = BTreeMap::new(alloc);
    for note in book {
        add_joint(&mut joints, note)?;
    }
    Ok(joints)
}

fn add_joint(
    joints: &mut BTreeMap<(u64, (Id, Id), (Id, Id)), u64>,
    note: &Note,
) -> Result<(), AllocError>
    ensures { (joint : Joint) → OnOk result (number_in joints.new joint
        ≡ option_or (number_at joint note.now.number note.now.after note.now.matter)
        (number_in joints.old joint)) }
{
    if let Matter::Boundary {
        machine,
        slot,
        board,
        desk_reel,
        ..
    } = &note.matter
    {
        let at = number_after(note.after);
        let number = u64::from(note.number);
        joints.insert((at, (*machine, *slot), (*board, *desk_reel)), number)?;
    }
    Ok(())
}
