//! The pieces for which a machine names another reel than the desk.

ghost use Rattle.std.specs.Prelude.{◌≡◌, ◌++◌, None, map, option_to_list, IfOk, OnOk};
ghost use Rattle.std.specs.List.{list_any};
ghost use Rattle.line_book.specs.Guard.{tape_at};
ghost use Rattle.line_members.specs.Comparison.{are_neighbors, designators_like, differences, finding_of, firsts, is_alike, is_behind, is_pair, matter_of, piece_from, piece_of, pieces, with_alike, with_first, with_word};

use crate::finding::Finding;
use desk_types::{Designator, Id, Listing, Purpose, Take, Text};
use line_book::{Guard, Matter};
use std::alloc::{AllocError, Global};

/// A piece for which the machine names another reel than the desk.
#[derive(Clone, Copy, PartialEq, Eq)]
pub struct Piece {
    pub designator: Designator,
    pub slot: Id,
    pub desk_reel: Id,
    pub reel: Id,
}

/// Returns the pieces that differ, in the order of the takes.
pub fn pieces(alloc: Global, takes: &[Take], reels: &[Option<Id>]) -> Result<Vec<Piece>, AllocError>
    // A piece for which the machine names no reel can't differ.
    ensures { IfOk result (λ found. found.items ≡ pieces takes.now reels.now) }
{
    let mut found = Vec::new(alloc);
    for i in 0..takes.len() {
        if i < reels.len() {
            add(&mut found, piece_of(&takes[i], &reels[i]))?;
        }
    }
    Ok(found)
}

fn add(found: &mut Vec<Piece>, piece: Option<Piece>) -> Result<(), AllocError>
    ensures { OnOk result (found.new.items ≡ found.old.items ++ option_to_list piece) }
{
    if let Some(piece) = piece {
        found.push(piece)?;
    }
    Ok(())
}

fn piece_of(take: &Take, reel: &Option<Id>) -> Option<Piece>
    ensures { result ≡ piece_of take.now reel.now }
{
    match reel {
        Some(reel) => piece_from(&take.purpose, take.reel, *reel),
        None => None,
    }
}

fn piece_from(purpose: &Purpose, desk_reel: Id, reel: Id) -> Option<Piece>
    ensures { result ≡ piece_from purpose.now desk_reel reel }
{
    match *purpose {
        Purpose::Placed {
            designator,
            slot,
            ..
        } => {
            if reel == desk_reel {
                return None;
            }
            Some(Piece {
                designator,
                slot,
                desk_reel,
                reel,
            })
        }
        _ => None,
    }
}

/// Returns a finding for each slot and pair of reels that differ, in the order of their first
/// pieces.
pub fn differences(
    alloc: Global,
    machine: &Id,
    board: &Id,
    guard: &Guard,
    pieces: &[Piece],
) -> Result<Vec<Finding>, AllocError>
    ensures { IfOk result (λ found. found.items
        ≡ differences machine.now board.now (tape_at guard.now.tapes) pieces.now) }
{
    let firsts = firsts(alloc, pieces)?;
    findings_of(alloc, machine, board, guard, pieces, firsts.as_slice())
}

fn findings_of(
    alloc: Global,
    machine: &Id,
    board: &Id,
    guard: &Guard,
    pieces: &[Piece],
    firsts: &[Piece],
) -> Result<Vec<Finding>, AllocError>
    ensures { IfOk result (λ found. found.items
        ≡ map (finding_of machine.now board.now (tape_at guard.now.tapes) pieces.now) firsts.now) }
{
    let mut found = Vec::new(alloc);
    for first in firsts {
        let finding = finding_of(alloc, machine, board, guard, pieces, first)?;
        found.push(finding)?;
    }
    Ok(found)
}

fn firsts(alloc: Global, pieces: &[Piece]) -> Result<Vec<Piece>, AllocError>
    ensures { IfOk result (λ found. found.items ≡ firsts pieces.now) }
{
    let mut found = Vec::new(alloc);
    for piece in pieces {
        add_first(&mut found, piece)?;
    }
    Ok(found)
}

fn add_first(found: &mut Vec<Piece>, piece: &Piece) -> Result<(), AllocError>
    ensures { OnOk result (found.new.items ≡ with_first found.old.items piece.now) }
{
    if has_alike(found.as_slice(), piece) {
        return Ok(());
    }
    found.push(*piece)?;
    Ok(())
}

fn has_alike(found: &[Piece], piece: &Piece) -> bool
    ensures { result ≡ list_any (is_alike piece.now) found.now }
{
    found.iter().any(|other| is_alike(piece, other))
}

fn is_alike(piece: &Piece, other: &Piece) -> bool
    ensures { result ≡ is_alike piece.now other.now }
{
    piece.slot == other.slot && piece.reel == other.reel && piece.desk_reel == other.desk_reel
}

fn finding_of(
    alloc: Global,
    machine: &Id,
    board: &Id,
    guard: &Guard,
    pieces: &[Piece],
    piece: &Piece,
) -> Result<Finding, AllocError>
    ensures { IfOk result (λ finding. finding
        ≡ finding_of machine.now board.now (tape_at guard.now.tapes) pieces.now piece.now) }
{
    Ok(Finding {
        matter: matter_of(machine, board, guard, piece),
        told: designators_like(alloc, piece, pieces)?,
    })
}

fn matter_of(machine: &Id, board: &Id, guard: &Guard, piece: &Piece) -> Matter
    ensures { result ≡ matter_of machine.now board.now (tape_at guard.now.tapes) piece.now }
{
    let is_near = are_neighbors(
        guard.tape_on(machine, &piece.slot),
        &piece.reel,
        &piece.desk_reel,
    );
    let machine = *machine;
    let board = *board;
    let Piece {
        slot,
        desk_reel,
        reel,
        ..
    } = *piece;
    if is_near {
        Matter::Boundary {
            machine,
            slot,
            board,
            reel,
            desk_reel,
        }
    } else {
        Matter::Differs {
            machine,
            slot,
            board,
            reel,
            desk_reel,
        }
    }
}

fn designators_like(alloc: Global, piece: &Piece, pieces: &[Piece]) -> Result<Text, AllocError>
    ensures { IfOk result (λ text. text ≡ designators_like piece.now pieces.now) }
{
    let mut text = Vec::new(alloc);
    for other in pieces {
        add_alike(&mut text, piece, other)?;
    }
    Ok(Listing::new(text))
}

fn add_alike(text: &mut Vec<u8>, piece: &Piece, other: &Piece) -> Result<(), AllocError>
    ensures { OnOk result (text.new.items ≡ with_alike piece.now text.old.items other.now) }
{
    if is_alike(piece, other) {
        add_word(text, other.designator.as_bytes())?;
    }
    Ok(())
}

fn add_word(text: &mut Vec<u8>, word: &[u8]) -> Result<(), AllocError>
    ensures { OnOk result (text.new.items ≡ with_word text.old.items word.now) }
{
    if !text.is_empty() {
        text.push(b' ')?;
    }
    text.extend_from_slice(word)
}

fn are_neighbors(tape: &[Id], a: &Id, b: &Id) -> bool
    ensures { result ≡ are_neighbors tape.now a.now b.now }
{
    is_behind(tape, a, b) || is_behind(tape, b, a)
}

fn is_behind(tape: &[Id], a: &Id, b: &Id) -> bool
    ensures { result ≡ is_behind None tape.now a.now b.now }
{
    let mut before = None;
    let mut found = false;
    for reel in tape {
        found = found || is_pair(&before, reel, a, b);
        before = Some(*reel);
    }
    found
}

fn is_pair(before: &Option<Id>, reel: &Id, a: &Id, b: &Id) -> bool
    ensures { result ≡ is_pair before.now reel.now a.now b.now }
{
    match before {
        Some(before) => *before == *a && *reel == *b,
        None => false,
    }
}
