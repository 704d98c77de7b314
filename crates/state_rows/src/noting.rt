//! The additions to the indexes from an accepted change.

ghost use Rattle.std.specs.Prelude.{◌≡◌, ◌++◌, ◌&&◌, ◌∷◌, [], ℕ, if◌then◌else◌, map, length, All, OnOk};
ghost use Rattle.desk_types.specs.Id.{Name, same};
ghost use Rattle.desk_types.specs.Pieces.{is_placed};
ghost use Rattle.state_rows.specs.Lists.{HasPieces, kept_at, key_of, keys_of_installs};
ghost use Rattle.state_rows.specs.Noting.{keys_in, install_keys};

use crate::kept::{KeptList, keep, make_room};
use crate::lists::{Install, PieceKey};
use desk_types::{Command, Id, Take};
use std::alloc::{AllocError, Global};
use std::collections::BTreeMap;

/// Reserves memory for a command's install.
pub fn room_for_install(
    alloc: Global,
    boards: &mut BTreeMap<Id, KeptList<Install>>,
    command: &Command,
) -> Result<(), AllocError>
    ensures { (n : Name) → kept_at boards.new n ≡ kept_at boards.old n }
{
    if let Command::MaterialsInstalled { board, .. } = command {
        make_room(alloc, boards, board, 1)?;
    }
    Ok(())
}

/// Reserves memory for the placed pieces, for each lot as if all were from it. Consecutive pieces
/// are mostly from one lot and share one lookup.
pub fn room_for_pieces(
    alloc: Global,
    lots: &mut BTreeMap<Id, KeptList<PieceKey>>,
    takes: &[Take],
) -> Result<(), AllocError>
    ensures { (n : Name) → kept_at lots.new n ≡ kept_at lots.old n }
{
    for i in 0..takes.len() {
        let take = &takes[i];
        if take.purpose.is_placed() && (i == 0 || takes[i - 1].lot != take.lot) {
            make_room(alloc, lots, &take.lot, takes.len())?;
        }
    }
    Ok(())
}

/// Adds the install of a command to those on its board, if it placed any piece.
pub fn note_install(
    alloc: Global,
    boards: &mut BTreeMap<Id, KeptList<Install>>,
    command: &Command,
    install: Install,
) -> Result<(), AllocError>
    // Each board at once: no other one's list changes.
    ensures keys { (n : Name)
        → OnOk result
        (keys_of_installs (kept_at boards.new n) ≡ keys_of_installs
        (kept_at boards.old n) ++ install_keys n command.now install) }
    // An install of no piece would never be found by a piece.
    ensures pieces { (n : Name) → All HasPieces (kept_at boards.old n)
        → OnOk result (All HasPieces (kept_at boards.new n)) }
{
    if install.pieces == 0 {
        return Ok(());
    }
    if let Command::MaterialsInstalled { board, .. } = command {
        keep(alloc, boards, board, install)?;
    }
    Ok(())
}

/// Adds the placed pieces to their lots, and the overdue ones to the overdue list.
pub fn note_pieces(
    alloc: Global,
    lots: &mut BTreeMap<Id, KeptList<PieceKey>>,
    overdue: &mut Vec<PieceKey>,
    install: Install,
    takes: &[Take],
) -> Result<(), AllocError>
    requires { install.pieces ≡ length takes.now }
    // Each lot at once: no other one's list changes.
    ensures lots { (n : Name) (minute : ℕ)
        → OnOk result
        (map key_of (kept_at lots.new n) ≡ map key_of (kept_at lots.old n) ++ keys_in
        (λ p. same p.lot n) install.number minute 1 takes.now) }
    // Whether a piece is overdue was judged when it was taken, and isn't judged again.
    ensures overdue { (minute : ℕ)
        → OnOk result
        (map key_of overdue.new.items ≡ map key_of overdue.old.items ++ keys_in
        (λ p. p.overdue) install.number minute 1 takes.now) }
{
    for i in 0..install.pieces {
        let piece = PieceKey {
            number: install.number,
            place: i + 1,
        };
        note_piece(alloc, lots, overdue, piece, &takes[i as usize])?;
    }
    Ok(())
}

fn note_piece(
    alloc: Global,
    lots: &mut BTreeMap<Id, KeptList<PieceKey>>,
    overdue: &mut Vec<PieceKey>,
    piece: PieceKey,
    take: &Take,
) -> Result<(), AllocError>
    ensures lots { (n : Name)
        → OnOk result
        (kept_at lots.new n ≡ kept_at lots.old n ++
        (if is_placed take.now.purpose && same take.now.lot n then piece ∷ [] else [])) }
    ensures overdue { OnOk result
        (overdue.new.items ≡ overdue.old.items ++
        (if is_placed take.now.purpose && take.now.overdue then piece ∷ [] else [])) }
{
    if !take.purpose.is_placed() {
        return Ok(());
    }
    keep(alloc, lots, &take.lot, piece)?;
    if take.overdue {
        overdue.push(piece)?;
    }
    Ok(())
}
