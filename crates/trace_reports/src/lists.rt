//! The lists of a desk: the card of a reel, the slot list of a machine, the kit of a product.

ghost use Rattle.std.specs.Prelude.{Option, List, ℕ};
ghost use Rattle.line_schema.specs.Stands.{ForKept, Kept, Stands};
ghost use Rattle.line_schema.specs.Frames.{MakesDesk};
ghost use Rattle.trace_reports.specs.Card.{reel_card};
ghost use Rattle.trace_reports.specs.Slots.{slot_list};
ghost use Rattle.trace_reports.specs.Kit.{kit_list};
ghost use Rattle.trace_reports.specs.declared.kind.Kind.TheVariants as Kind;
ghost use Rattle.trace_reports.specs.Reports.{Answers};

use crate::fault::ReportFault;
use crate::kind::Kind;
use desk_types::{Boards, Id, Text};
use line_schema::LineStore;
use sqlite::Alter;
use state_rows::KeepsRows;
use std::alloc::Global;

fn or_not_found(text: Option<Text>, kind: Kind) -> Result<Text, ReportFault>
    ensures { Answers kind text result }
{
    match text {
        Some(text) => Ok(text),
        None => Err(ReportFault::NotFound(kind)),
    }
}

/// Returns the card of a reel: its received pieces, where they went, and its floor life at the desk
/// minute. It is not found if no such reel was received.
pub fn reel_card<S: Alter, D: KeepsRows + Drop>(
    alloc: Global,
    store: &mut LineStore<S, D>,
    reel: &Id,
) -> Result<Text, ReportFault>
    // `ready` may have to load the desk, so the store must represent some history.
    requires stands { (L : Kept) × Stands S.Store D.Stands store.old L }
    ensures card { ForKept S.Store D.Stands store.old store.new
        (λ L. Answers Kind.Reel (reel_card L.history reel.now) result) }
    // The call may load the desk; the history stays, and a crash leaves nothing new.
    ensures makes_desk { MakesDesk S.Store D.Stands store.old store.new }
{
    store.ready()?;
    let Some(desk) = store.desk() else {
        unreachable!()
    };
    or_not_found(crate::card::reel_card(alloc, desk, reel)?, Kind::Reel)
}

/// Returns the live reels of a machine's slots, by slot and then by position. It is not found if no
/// sheet names the machine.
pub fn slot_list<S: Alter, D: KeepsRows + Drop>(
    alloc: Global,
    store: &mut LineStore<S, D>,
    machine: &Id,
) -> Result<Text, ReportFault>
    requires stands { (L : Kept) × Stands S.Store D.Stands store.old L }
    ensures list { ForKept S.Store D.Stands store.old store.new
        (λ L. Answers Kind.Machine (slot_list L.history machine.now) result) }
    ensures makes_desk { MakesDesk S.Store D.Stands store.old store.new }
{
    store.ready()?;
    let Some(desk) = store.desk() else {
        unreachable!()
    };
    or_not_found(
        crate::slots::slot_list(alloc, desk, machine)?,
        Kind::Machine,
    )
}

/// Returns the reels to bring for this number of boards of a product on a machine. It is not found
/// if the product has no sheet there.
pub fn kit_list<S: Alter, D: KeepsRows + Drop>(
    alloc: Global,
    store: &mut LineStore<S, D>,
    product: &Id,
    machine: &Id,
    boards: Boards,
) -> Result<Text, ReportFault>
    requires stands { (L : Kept) × Stands S.Store D.Stands store.old L }
    ensures list { ForKept S.Store D.Stands store.old store.new
        (λ L. Answers Kind.Sheet (kit_list L.history product.now machine.now boards) result) }
    ensures makes_desk { MakesDesk S.Store D.Stands store.old store.new }
{
    store.ready()?;
    let Some(desk) = store.desk() else {
        unreachable!()
    };
    or_not_found(
        crate::kit::kit_list(alloc, desk, product, machine, boards)?,
        Kind::Sheet,
    )
}
