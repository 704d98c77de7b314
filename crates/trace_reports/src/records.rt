//! The fields of pieces in reports.

ghost use Rattle.std.specs.Prelude.{◌≡◌, ◌∷◌, [], IfOk, map};
ghost use Rattle.trace_reports.specs.Traces.{project, yes_or_no, on_board, of_lot, board_columns, lot_columns, board_rows, lot_rows, board_header, lot_header};
ghost use Rattle.trace_reports.specs.Sets.{bytes_of};

use desk_types::{Placement, TraceDetail};
use std::alloc::{AllocError, Global};
use std::collections::BTreeSet;

/// The fields of one record, borrowed from the pieces.
pub type Record<'a> = Vec<&'a [u8]>;

fn overdue_word(piece: &Placement) -> &[u8]
    ensures { result.now ≡ yes_or_no piece.now.overdue }
{
    if piece.overdue { b"yes" } else { b"no" }
}

fn on_board<'a>(
    alloc: Global,
    detail: TraceDetail,
    piece: &'a Placement,
) -> Result<Record<'a>, AllocError>
    ensures { IfOk result
        (λ row. bytes_of row.items ≡ project (board_columns detail) (on_board piece.now)) }
{
    let part = piece.part.as_bytes();
    let lot = piece.lot.as_bytes();
    let reel = piece.reel.as_bytes();
    match detail {
        TraceDetail::One => Ok(vec![in alloc; part]?),
        TraceDetail::Two => Ok(vec![in alloc; part, lot]?),
        TraceDetail::Three => Ok(vec![in alloc; part, lot, reel]?),
        TraceDetail::Four => Ok(vec![in alloc;
            piece.designator.as_bytes(),
            part,
            lot,
            reel,
            piece.machine.as_bytes(),
            piece.slot.as_bytes(),
            overdue_word(piece),
        ]?),
    }
}

fn of_lot<'a>(
    alloc: Global,
    detail: TraceDetail,
    piece: &'a Placement,
) -> Result<Record<'a>, AllocError>
    ensures { IfOk result
        (λ row. bytes_of row.items ≡ project (lot_columns detail) (of_lot piece.now)) }
{
    let board = piece.board.as_bytes();
    let part = piece.part.as_bytes();
    let reel = piece.reel.as_bytes();
    match detail {
        TraceDetail::One => Ok(vec![in alloc; board]?),
        TraceDetail::Two => Ok(vec![in alloc; board, part]?),
        TraceDetail::Three => Ok(vec![in alloc; board, part, reel]?),
        TraceDetail::Four => Ok(vec![in alloc;
            board,
            piece.designator.as_bytes(),
            part,
            reel,
            piece.machine.as_bytes(),
            piece.slot.as_bytes(),
            overdue_word(piece),
        ]?),
    }
}

pub fn board_rows<'a>(
    alloc: Global,
    detail: TraceDetail,
    pieces: &'a [Placement],
) -> Result<BTreeSet<Record<'a>>, AllocError>
    ensures { IfOk result
        (λ rows. map (λ r. bytes_of r.items) rows.keys ≡ board_rows detail pieces.now) }
{
    let mut rows = BTreeSet::new(alloc);
    for i in (0..pieces.len()).rev() {
        rows.insert(on_board(alloc, detail, &pieces[i])?)?;
    }
    Ok(rows)
}

pub fn lot_rows<'a>(
    alloc: Global,
    detail: TraceDetail,
    pieces: &'a [Placement],
) -> Result<BTreeSet<Record<'a>>, AllocError>
    ensures { IfOk result
        (λ rows. map (λ r. bytes_of r.items) rows.keys ≡ lot_rows detail pieces.now) }
{
    let mut rows = BTreeSet::new(alloc);
    for i in (0..pieces.len()).rev() {
        rows.insert(of_lot(alloc, detail, &pieces[i])?)?;
    }
    Ok(rows)
}

pub fn board_header(detail: TraceDetail) -> &'static [&'static [u8]]
    ensures { bytes_of result.now ≡ project (board_columns detail) board_header }
{
    match detail {
        TraceDetail::One => &[b"part"],
        TraceDetail::Two => &[b"part", b"lot"],
        TraceDetail::Three => &[b"part", b"lot", b"reel"],
        TraceDetail::Four => &[
            b"designator",
            b"part",
            b"lot",
            b"reel",
            b"machine",
            b"slot",
            b"overdue",
        ],
    }
}

pub fn lot_header(detail: TraceDetail) -> &'static [&'static [u8]]
    ensures { bytes_of result.now ≡ project (lot_columns detail) lot_header }
{
    match detail {
        TraceDetail::One => &[b"board"],
        TraceDetail::Two => &[b"board", b"part"],
        TraceDetail::Three => &[b"board", b"part", b"reel"],
        TraceDetail::Four => &[
            b"board",
            b"designator",
            b"part",
            b"reel",
            b"machine",
            b"slot",
            b"overdue",
        ],
    }
}
