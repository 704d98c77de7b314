//! The reports of a line's store.

ghost use Rattle.std.specs.Prelude.{◌≡◌, Option, List, ℕ, IfOk};
ghost use Rattle.line_schema.specs.Stands.{ForKept, Kept, Stands};
ghost use Rattle.line_schema.specs.Verdict.{KeepsBoth};
ghost use Rattle.trace_reports.specs.declared.kind.Kind.{Kind};
ghost use Rattle.trace_reports.specs.Reports.{Answers};
ghost use Rattle.gateway_http.specs.Reports.{report_of};

use crate::asked::Report;
use crate::reported::ReportedOwner;
use desk_types::Text;
use line_schema::{LineStore, Unavailable};
use sqlite::Alter;
use state_rows::KeepsRows;
use std::alloc::Global;
use trace_reports::{
    ReportFault, board_trace, kit_list, lot_trace, overdue_list, reel_card, slot_list,
};

/// Its reports are those of `trace_reports`.
impl<S: Alter, D: KeepsRows + Drop> ReportedOwner for LineStore<S, D> {
    ghost use Rattle.gateway_http.specs.Reports.{report_of};

    ghost reports = { report_of };

    fn report(&mut self, alloc: Global, asked: Report) -> Result<Option<Text>, Unavailable> {
        report_of(alloc, self, asked)
    }
}

/// Returns a report of a store, or none if its subject isn't found. The history is unchanged, and so is
/// the book, if the file has one.
pub fn report_of<S: Alter, D: KeepsRows + Drop>(
    alloc: Global,
    store: &mut LineStore<S, D>,
    asked: Report,
) -> Result<Option<Text>, Unavailable>
    requires stands { (L : Kept) × Stands S.Store D.Stands store.old L }
    ensures told { ForKept S.Store D.Stands store.old store.new
        (λ L. IfOk result (λ text. text ≡ report_of asked L.history)) }
    ensures stands { ForKept S.Store D.Stands store.old store.new
        (Stands S.Store D.Stands store.new) }
    ensures keeps { KeepsBoth S.Store D.Stands store.old store.new }
{
    match asked {
        Report::BoardTrace { board, detail } => {
            if_found(board_trace(alloc, store, &board, detail))
        }
        Report::LotTrace { lot, detail } => if_found(lot_trace(alloc, store, &lot, detail)),
        Report::ReelCard { reel } => {
            store.ready()?;
            if_found(reel_card(alloc, store, &reel))
        }
        Report::SlotList { machine } => {
            store.ready()?;
            if_found(slot_list(alloc, store, &machine))
        }
        Report::KitList {
            product,
            machine,
            boards,
        } => {
            store.ready()?;
            if_found(kit_list(alloc, store, &product, &machine, boards))
        }
        Report::OverdueList => match overdue_list(alloc, store) {
            Ok(text) => Ok(Some(text)),
            Err(_) => Err(Unavailable),
        },
    }
}

fn if_found(told: Result<Text, ReportFault>) -> Result<Option<Text>, Unavailable>
    ensures { (kind : Kind) (text : Option (List ℕ)) → Answers kind text told
        → IfOk result (λ found. found ≡ text) }
{
    match told {
        Ok(text) => Ok(Some(text)),
        Err(ReportFault::NotFound(_)) => Ok(None),
        Err(ReportFault::Unavailable) => Err(Unavailable),
    }
}
