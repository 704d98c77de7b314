//! What a chain needs of one store.

ghost use Rattle.std.specs.Prelude.{◌≡◌, ◌++◌, [], None, IsTrue, IfOk, OnOk, flat_map, unwrap_or};
ghost use Rattle.std.specs.BTreeSet.{contains_by};
ghost use Rattle.std.specs.List.{filter};
ghost use Rattle.std.specs.Option.{option_map, option_to_list};
ghost use Rattle.sqlite.specs.State.{HasCleanDisk};
ghost use Rattle.sqlite.specs.Held.{state};
ghost use Rattle.desk_types.specs.declared.command.Receipt.{Receipt};
ghost use Rattle.desk_types.specs.Id.{by_name, same};
ghost use Rattle.desk_types.specs.Placements.{set_of};
ghost use Rattle.desk_types.specs.Setup.{receipt_of};
ghost use Rattle.line_tables.specs.Frames.{ReadsOnly};
ghost use Rattle.line_schema.specs.Frames.{ReadsStore};
ghost use Rattle.line_schema.specs.Stands.{ForKept, Kept, Stands, conn_of};
ghost use Rattle.line_traces.specs.Pieces.{board_trace, lot_trace};
ghost use Rattle.chain_check.specs.declared.question.Subject.TheVariants.{Lot, Reels};
ghost use Rattle.chain_check.specs.Rows.{asked_of, lots_received, pieces_of};
ghost use Rattle.chain_stores.specs.Look.{Says};

use crate::begin::{Begin, begin_of};
use crate::first::first_desk;
use chain_check::{Question, Subject};
use desk_types::{Desk, Id, IdList, Listing, MOST_ENTRIES, Placement, Rules};
use line_schema::{LineStore, Unavailable};
use line_traces::{PlacedRows, Working};
use sqlite::{Alter, Connection};
use state_rows::KeepsRows;
use std::alloc::{AllocError, Global};
use std::collections::BTreeSet;

/// What a store says.
#[derive(Drop)]
pub struct Looked<D> {
    /// The desk of its first commands.
    pub begun: D,
    /// How it was begun.
    pub begin: Begin,
    /// Its whole desk.
    pub whole: D,
    /// The number of its commands.
    pub commands: u32,
    /// The pieces that the question is about.
    pub pieces: PlacedRows,
}

/// Returns the pieces of a lot, none if it was not received.
fn of_lot<S: Alter, D: KeepsRows + Drop>(
    alloc: Global,
    store: &mut LineStore<S, D>,
    lot: &Id,
) -> Result<PlacedRows, Unavailable>
    ensures pieces { ForKept S.Store D.Stands store.old store.new
        (λ L. IfOk result (λ pieces. pieces ≡ unwrap_or (lot_trace L.history lot.now) [])) }
    ensures reads { ReadsStore S.Store D.Stands store.old store.new }
{
    match store.lot_rows(lot) {
        Ok(Some(pieces)) => Ok(pieces),
        Ok(None) => Ok(Listing::new(Vec::new(alloc))),
        Err(_) => Err(Unavailable),
    }
}

/// Returns the pieces on a board, none if it was not started.
fn on_board<S: Alter, D: KeepsRows + Drop>(
    alloc: Global,
    store: &mut LineStore<S, D>,
    board: &Id,
) -> Result<PlacedRows, Unavailable>
    ensures pieces { ForKept S.Store D.Stands store.old store.new
        (λ L. IfOk result (λ pieces. pieces ≡ unwrap_or (board_trace L.history board.now) [])) }
    ensures reads { ReadsStore S.Store D.Stands store.old store.new }
{
    match store.board_rows(board) {
        Ok(Some(pieces)) => Ok(pieces),
        Ok(None) => Ok(Listing::new(Vec::new(alloc))),
        Err(_) => Err(Unavailable),
    }
}

/// Returns the lot of a reel, if it was received.
fn lot_of<S: Alter, D: KeepsRows + Drop>(
    store: &LineStore<S, D>,
    reel: &Id,
) -> Result<Option<Id>, Unavailable>
    ensures { (L : Kept) → Stands S.Store D.Stands store.now L
        → IfOk result
        (λ lot. lot ≡ option_map (λ (r : Receipt). r.lot) (receipt_of L.history reel.now)) }
{
    let Some(desk) = store.desk() else {
        return Err(Unavailable);
    };
    match desk.reel(reel) {
        Some(view) => Ok(Some(view.lot)),
        None => Ok(None),
    }
}

/// Returns the lots of those of these reels that were received.
fn lots_of<S: Alter, D: KeepsRows + Drop>(
    alloc: Global,
    store: &LineStore<S, D>,
    reels: &[Id],
) -> Result<Vec<Id>, Unavailable>
    ensures { (L : Kept) → Stands S.Store D.Stands store.now L
        → IfOk result (λ lots. lots.items ≡ lots_received reels.now L.history) }
{
    let mut lots = Vec::new(alloc);
    for reel in reels {
        let lot = lot_of(store, reel)?;
        add_lot(&mut lots, lot)?;
    }
    Ok(lots)
}

fn add_lot(lots: &mut Vec<Id>, lot: Option<Id>) -> Result<(), AllocError>
    ensures { OnOk result (lots.new.items ≡ lots.old.items ++ option_to_list lot) }
{
    if let Some(lot) = lot {
        lots.push(lot)?;
    }
    Ok(())
}

/// Returns these names as a set.
fn as_set(alloc: Global, names: &[Id]) -> Result<BTreeSet<Id>, AllocError>
    ensures { IfOk result (λ found. found.keys ≡ set_of names.now) }
{
    let mut found = BTreeSet::new(alloc);
    for name in names.iter().rev() {
        found.insert(*name)?;
    }
    Ok(found)
}

/// Returns these names, each once and in byte order.
fn in_order(alloc: Global, names: &[Id]) -> Result<IdList, AllocError>
    ensures { IfOk result (λ found. found ≡ set_of names.now) }
{
    let found = as_set(alloc, names)?;
    let list = found.into_iter().collect(alloc)?;
    Ok(Listing::new(list))
}

/// Adds the pieces of these reels.
fn add_pieces(
    kept: &mut Vec<Placement>,
    reels: &BTreeSet<Id>,
    pieces: &[Placement],
) -> Result<(), AllocError>
    ensures { OnOk result (kept.new.items ≡ kept.old.items
        ++ filter (λ p. contains_by (by_name p.reel) reels.now) pieces.now) }
{
    for piece in pieces {
        if reels.contains(&piece.reel) {
            kept.push(*piece)?;
        }
    }
    Ok(())
}

/// Returns the pieces of these reels, lot by lot.
fn of_lots<S: Alter, D: KeepsRows + Drop>(
    alloc: Global,
    store: &mut LineStore<S, D>,
    lots: &[Id],
    reels: &BTreeSet<Id>,
) -> Result<PlacedRows, Unavailable>
    ensures pieces { ForKept S.Store D.Stands store.old store.new
        (λ L. IfOk result (λ pieces. pieces ≡ flat_map (λ lot. filter
        (λ p. contains_by (by_name p.reel) reels.now) (pieces_of (Lot lot None) L.history))
        lots.now)) }
    ensures reads { ReadsStore S.Store D.Stands store.old store.new }
{
    let mut kept = Vec::new(alloc);
    for lot in lots {
        let pieces = of_lot(alloc, store, lot)?;
        add_pieces(&mut kept, reels, pieces.as_slice())?;
    }
    Ok(Listing::new(kept))
}

/// Returns the pieces of these reels.
fn of_reels<S: Alter, D: KeepsRows + Drop>(
    alloc: Global,
    store: &mut LineStore<S, D>,
    reels: &[Id],
) -> Result<PlacedRows, Unavailable>
    // The order is by lot, and not that of the reels in the question.
    ensures pieces { ForKept S.Store D.Stands store.old store.new
        (λ L. IfOk result (λ pieces. pieces ≡ pieces_of (Reels reels.now) L.history)) }
    ensures reads { ReadsStore S.Store D.Stands store.old store.new }
{
    let received = lots_of(alloc, store, reels)?;
    let lots = in_order(alloc, received.as_slice())?;
    let found = as_set(alloc, reels)?;
    let pieces = of_lots(alloc, store, lots.as_slice(), &found)?;
    Ok(pieces)
}

/// Keeps the pieces of a part.
fn only_of(alloc: Global, part: &Id, pieces: &[Placement]) -> Result<PlacedRows, AllocError>
    ensures { IfOk result (λ kept. kept ≡ filter (λ p. same p.part part.now) pieces.now) }
{
    let mut kept = Vec::new(alloc);
    for piece in pieces {
        if piece.part == *part {
            kept.push(*piece)?;
        }
    }
    Ok(Listing::new(kept))
}

/// Returns the pieces of a lot, or those of them of one part.
fn of_part<S: Alter, D: KeepsRows + Drop>(
    alloc: Global,
    store: &mut LineStore<S, D>,
    lot: &Id,
    part: &Option<Id>,
) -> Result<PlacedRows, Unavailable>
    ensures pieces { ForKept S.Store D.Stands store.old store.new
        (λ L. IfOk result (λ pieces. pieces ≡ pieces_of (Lot lot.now part.now) L.history)) }
    ensures reads { ReadsStore S.Store D.Stands store.old store.new }
{
    let pieces = of_lot(alloc, store, lot)?;
    match part {
        None => Ok(pieces),
        Some(part) => {
            let kept = only_of(alloc, part, pieces.as_slice())?;
            Ok(kept)
        }
    }
}

/// Returns the pieces of a lot or of reels, or on a board.
fn of_subject<S: Alter, D: KeepsRows + Drop>(
    alloc: Global,
    store: &mut LineStore<S, D>,
    subject: &Subject,
) -> Result<PlacedRows, Unavailable>
    ensures pieces { ForKept S.Store D.Stands store.old store.new
        (λ L. IfOk result (λ pieces. pieces ≡ pieces_of subject.now L.history)) }
    ensures reads { ReadsStore S.Store D.Stands store.old store.new }
{
    match subject {
        Subject::Lot { lot, part } => of_part(alloc, store, lot, part),
        Subject::Board(board) => on_board(alloc, store, board),
        Subject::Reels(reels) => of_reels(alloc, store, reels.as_slice()),
    }
}

/// Returns the pieces that the question is about.
fn asked_of<S: Alter, D: KeepsRows + Drop>(
    alloc: Global,
    store: &mut LineStore<S, D>,
    question: &Question,
) -> Result<PlacedRows, Unavailable>
    ensures pieces { ForKept S.Store D.Stands store.old store.new
        (λ L. IfOk result (λ pieces. pieces ≡ asked_of question.now L.history)) }
    ensures reads { ReadsStore S.Store D.Stands store.old store.new }
{
    match question {
        Question::Chain => Ok(Listing::new(Vec::new(alloc))),
        Question::Names(subject) => of_subject(alloc, store, subject),
        Question::Pieces(subject) => of_subject(alloc, store, subject),
    }
}

/// Takes a store apart: its connection, and what its history says.
pub fn look<S: Alter, D: KeepsRows + Drop>(
    alloc: Global,
    store: LineStore<S, D>,
    question: &Question,
) -> (Connection<S>, Result<Looked<D>, Unavailable>)
    // Asks about the disk after all reads: if it lied in any of them, nothing is said.
    ensures says { (L : Kept) → Stands S.Store D.Stands store L → IsTrue L.own
        → HasCleanDisk (state S.Store result.0)
        → IfOk result.1 (Says D.Stands L.history question.now) }
    // Holds after an error too: the connection comes back, with the same contents.
    ensures reads { ReadsOnly S.Store (conn_of store) result.0 }
{
    let mut store = store;
    let commands = store.count();
    let pieces = asked_of(alloc, &mut store, question);
    let (mut conn, working) = store.into_parts();
    let Ok(pieces) = pieces else {
        return (conn, Err(Unavailable));
    };
    let Some(
        Working {
            desk: whole,
            lists: _lists,
        },
    ) = working
    else {
        return (conn, Err(Unavailable));
    };
    if u64::from(commands) > MOST_ENTRIES {
        return (conn, Err(Unavailable));
    }
    let Ok(begin) = begin_of(alloc, &mut conn, commands) else {
        return (conn, Err(Unavailable));
    };
    match first_desk(alloc, &mut conn, Rules::Two, begin.commands) {
        Some(begun) => (
            conn,
            Ok(Looked {
                begun,
                begin,
                whole,
                commands,
                pieces,
            }),
        ),
        None => (conn, Err(Unavailable)),
    }
}
