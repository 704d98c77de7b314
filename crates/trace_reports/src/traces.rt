//! Traces of boards and lots, and the overdue list, from the tables of a store.

ghost use Rattle.line_schema.specs.Stands.{ForKept};
ghost use Rattle.line_schema.specs.Frames.{ReadsStore};
ghost use Rattle.trace_reports.specs.declared.kind.Kind.TheVariants as Kind;
ghost use Rattle.trace_reports.specs.Reports.{board_trace, lot_trace, overdue_list, Answers, AnswersAlways};

use crate::fault::ReportFault;
use crate::kind::Kind;
use crate::trace_texts::{board_text, lot_text, overdue_text};
use desk_types::{Id, Text, TraceDetail};
use line_schema::LineStore;
use sqlite::Alter;
use state_rows::KeepsRows;
use std::alloc::Global;

/// Returns the trace of a board: its pieces. It is not found if no accepted command started the
/// board.
pub fn board_trace<S: Alter, D: KeepsRows + Drop>(
    alloc: Global,
    store: &mut LineStore<S, D>,
    board: &Id,
    detail: TraceDetail,
) -> Result<Text, ReportFault>
    // A started board without pieces has a report, with a header only.
    ensures trace { ForKept S.Store D.Stands store.old store.new
        (λ L. Answers Kind.Board (board_trace detail L.history board.now) result) }
    ensures reads { ReadsStore S.Store D.Stands store.old store.new }
{
    let Some(pieces) = store.board_rows(board)? else {
        return Err(ReportFault::NotFound(Kind::Board));
    };
    Ok(board_text(alloc, detail, pieces.as_slice())?)
}

/// Returns the trace of a lot: the boards that hold its pieces. It is not found if no accepted
/// command received a reel of the lot.
pub fn lot_trace<S: Alter, D: KeepsRows + Drop>(
    alloc: Global,
    store: &mut LineStore<S, D>,
    lot: &Id,
    detail: TraceDetail,
) -> Result<Text, ReportFault>
    ensures trace { ForKept S.Store D.Stands store.old store.new
        (λ L. Answers Kind.Lot (lot_trace detail L.history lot.now) result) }
    ensures reads { ReadsStore S.Store D.Stands store.old store.new }
{
    let Some(pieces) = store.lot_rows(lot)? else {
        return Err(ReportFault::NotFound(Kind::Lot));
    };
    Ok(lot_text(alloc, detail, pieces.as_slice())?)
}

/// Returns the pieces placed from reels whose floor life was used up, by number, then place, with
/// the effective minutes of their installs.
pub fn overdue_list<S: Alter, D: KeepsRows + Drop>(
    alloc: Global,
    store: &mut LineStore<S, D>,
) -> Result<Text, ReportFault>
    // There is always a list, since no name is asked for that could be unknown.
    ensures list { ForKept S.Store D.Stands store.old store.new
        (λ L. AnswersAlways (overdue_list L.history) result) }
    ensures reads { ReadsStore S.Store D.Stands store.old store.new }
{
    let pieces = store.overdue_rows()?;
    Ok(overdue_text(alloc, pieces.as_slice())?)
}
