//! Pieces at the places that the trace indexes give. Each row is checked for its number and place; if one differs, the
//! indexes are not used.

ghost use Rattle.std.specs.Prelude.{◌≡◌, ◌+◌, ◌++◌, ◌<◌, ◌≤◌, ◌↔◌, pos, Some, IsTrue, IfOk, IfSome, OnOk, length, map, slice_get, ◌-◌};
ghost use Rattle.sqlite.specs.Effect.{Database};
ghost use Rattle.sqlite.specs.State.{HasCleanDisk};
ghost use Rattle.sqlite.specs.Held.{state};
ghost use Rattle.sqlite_rules.specs.Lists.{Has};
ghost use Rattle.desk_types.specs.History.{History};
ghost use Rattle.line_tables.specs.Line as line;
ghost use Rattle.line_tables.specs.Calls.{Reads};
ghost use Rattle.line_tables.specs.Rowids.{placement_id};
ghost use Rattle.line_tables.specs.Shown.{AreOf};
ghost use Rattle.line_tables.specs.StateRows.{rows_in};
ghost use Rattle.line_tables.specs.Frames.{ReadsOnly, IsRefusedInside};
ghost use Rattle.state_rows.specs.Lists.{key_of};
ghost use Rattle.line_traces.specs.Pieces.{piece_at};
ghost use Rattle.line_traces.specs.Working.{HoldsBoth, FindsOfBoth, AddsPieces};

use crate::decode::placement;
use crate::row::PlacedRows;
use crate::working::Working;
use desk_types::{Desk, Listing, Placement};
use line_tables::placements_between;
use line_tables::select::select;
use sqlite::{Alter, Connection, Error, Row};
use state_rows::PieceKey;
use std::alloc::Global;

/// The error for a connection that does not answer.
fn ask<S: Alter>(conn: &mut Connection<S>) -> Result<(), Error>
    ensures answers { HasCleanDisk (state S.Store conn.new)
        → OnOk result (IsTrue (state S.Store conn.old).is_open) }
    ensures reads { ReadsOnly S.Store conn.old conn.new }
    ensures inside { IsRefusedInside result conn.old conn.new }
{
    select(conn, "SELECT 1", &[])?;
    Ok(())
}

fn rowid_of(piece: PieceKey) -> i64
    ensures { result ≡ pos (placement_id piece.number piece.place) }
{
    (u64::from(piece.number) * 65_536 + u64::from(piece.place)) as i64
}

/// Splits off the first pieces that are consecutive in one message.
fn split_run(pieces: &[PieceKey]) -> (&[PieceKey], &[PieceKey])
    ensures whole { pieces.now ≡ result.0.now ++ result.1.now }
    ensures some { 0 < length pieces.now → 0 < length result.0.now }
{
    let length = run_length(pieces);
    (&pieces[..length], &pieces[length..])
}

/// Returns how many pieces, from the first on, are consecutive in one message.
fn run_length(pieces: &[PieceKey]) -> usize
    ensures within { result ≤ length pieces.now }
    ensures some { 0 < length pieces.now → 0 < result }
{
    let [first, others @ ..] = pieces else {
        return 0;
    };
    1 + more_places(*first, others)
}

/// Returns how many of the others follow the first piece, each in the next place of its message.
fn more_places(first: PieceKey, others: &[PieceKey]) -> usize
    ensures { result ≤ length others.now }
{
    let mut last = first;
    for (at, piece) in others.iter().enumerate() {
        if !is_next(last, *piece) {
            return at;
        }
        last = *piece;
    }
    others.len()
}

fn is_next(last: PieceKey, piece: PieceKey) -> bool
    ensures { IsTrue result ↔ (piece.number ≡ last.number) × (piece.place ≡ last.place + 1) }
{
    piece.number == last.number && piece.place > last.place && piece.place - last.place == 1
}

/// Returns the piece of a row of `placement` if the row has this number and place. Its part and lot are its reel's.
fn piece_of<D: Desk>(
    working: &Working<D>,
    key: PieceKey,
    row: &Row,
) -> Result<Option<Placement>, Error>
    ensures { IfOk result
        (λ found. IfSome found (λ piece. (db : Database) (H : History)
        → HoldsBoth D.Stands (Some working.now) db H
        → Has (rows_in line.placement db) row.now → piece_at H (key_of key) ≡ Some piece)) }
{
    let placed = placement(row)?;
    if placed.number != u64::from(key.number) || placed.place != u64::from(key.place) {
        return Ok(None);
    }
    let Some(reel) = working.desk.reel_row(&placed.reel) else {
        return Ok(None);
    };
    let Some(effective) = working.lists.minute(key.number) else {
        return Ok(None);
    };
    Ok(Some(Placement {
        number: placed.number,
        place: placed.place,
        board: placed.board,
        designator: placed.designator,
        part: reel.part,
        lot: reel.lot,
        reel: placed.reel,
        machine: placed.machine,
        slot: placed.slot,
        effective,
        overdue: placed.overdue,
    }))
}

/// Adds the pieces of the rows, if each row has its expected key. Returns whether it did: a row may be missing or
/// belong to another piece.
fn add_rows<D: Desk>(
    working: &Working<D>,
    keys: &[PieceKey],
    rows: &[Row],
    pieces: &mut Vec<Placement>,
) -> Result<bool, Error>
    // After `false` some of the pieces may have been added: the caller drops them.
    ensures { IfOk result (λ all. IsTrue all → (db : Database) (H : History)
        → HoldsBoth D.Stands (Some working.now) db H
        → AreOf line.placement rows.now db
        → AddsPieces H (map key_of keys.now) pieces.old.items pieces.new.items) }
{
    for (at, key) in keys.iter().enumerate() {
        let Some(row) = rows.get(at) else {
            return Ok(false); // A row is missing.
        };
        let Some(piece) = piece_of(working, *key, row)? else {
            return Ok(false);
        };
        pieces.push(piece)?;
    }
    Ok(true)
}

/// Returns the rowids that our files give the first and the last piece of a run.
fn ends_of(run: &[PieceKey]) -> (i64, i64)
    ensures first { IfSome (slice_get run.now 0)
        (λ key. result.0 ≡ pos (placement_id key.number key.place)) }
    ensures last { IfSome (slice_get run.now (length run.now - 1))
        (λ key. result.1 ≡ pos (placement_id key.number key.place)) }
{
    match (run.first(), run.last()) {
        (Some(first), Some(last)) => (rowid_of(*first), rowid_of(*last)),
        _ => (1, 0),
    }
}

/// Adds the pieces of a run, if the rows between its ends are theirs. Returns whether it did.
fn add_run<S: Alter, D: Desk>(
    conn: &mut Connection<S>,
    working: &Working<D>,
    run: &[PieceKey],
    pieces: &mut Vec<Placement>,
) -> Result<bool, Error>
    ensures added { HasCleanDisk (state S.Store conn.new)
        → IfOk result
        (λ all. Reads (state S.Store conn.old) (λ db. IsTrue all → (H : History)
        → HoldsBoth D.Stands (Some working.now) db H
        → AddsPieces H (map key_of run.now) pieces.old.items pieces.new.items)) }
    ensures reads { ReadsOnly S.Store conn.old conn.new }
{
    let (first, last) = ends_of(run);
    let rows = placements_between(conn, first, last)?;
    add_rows(working, run, rows.as_slice(), pieces)
}

/// Returns the pieces with these keys, in their order, by one query for each run of places. Returns `None` if a row is
/// missing or belongs to another piece.
pub fn pieces_at<S: Alter, D: Desk>(
    alloc: Global,
    conn: &mut Connection<S>,
    working: &Working<D>,
    keys: &[PieceKey],
) -> Result<Option<PlacedRows>, Error>
    // Says nothing of `None`, after which callers ask by a query.
    ensures told { HasCleanDisk (state S.Store conn.new)
        → IfOk result
        (λ found. IfSome found
        (λ pieces. FindsOfBoth D.Stands (Some working.now)
        (λ H. map (piece_at H) (map key_of keys.now))
        (state S.Store conn.old) (map Some pieces))) }
    ensures reads { ReadsOnly S.Store conn.old conn.new }
    ensures inside { IsRefusedInside result conn.old conn.new }
{
    ask(conn)?;
    let mut pieces = Vec::new(alloc);
    let mut left = keys;
    while !left.is_empty() {
        let (run, rest) = split_run(left);
        if !add_run(conn, working, run, &mut pieces)? {
            return Ok(None);
        }
        left = rest;
    }
    Ok(Some(Listing::new(pieces)))
}
