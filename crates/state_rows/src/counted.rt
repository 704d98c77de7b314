//! Rows of reels that are counted.

ghost use Rattle.std.specs.Prelude.{◌≡◌, ◌++◌, ◌≤◌, IfOk, OnOk, Some};
ghost use Rattle.std.specs.List.{flat_map};
ghost use Rattle.desk_types.specs.declared.rules.Rules.TheVariants.{Two};
ghost use Rattle.desk_types.specs.History.{Basis};
ghost use Rattle.desk_types.specs.Judged.{IsJudged};
ghost use Rattle.desk_types.specs.Desk.{HasRoom};
ghost use Rattle.desk_types.specs.Tables.{columns_of};
ghost use Rattle.state_rows.specs.EditsOf.{counted_row, counted_edits, count_edits, CountFits};

use crate::views::Views;
use desk_types::{CountRow, ReelRow, ReelView, RowEdit};
use std::alloc::{AllocError, Global};

fn counted_row(view: &ReelView, pieces: u64) -> ReelRow
    requires { CountFits pieces view.now }
    ensures { result ≡ counted_row pieces (columns_of view.now) }
{
    let row = view.columns();
    let received = row
        .received
        .saturating_add(pieces.saturating_sub(row.remaining));
    let scrapped = row
        .scrapped
        .saturating_add(row.remaining.saturating_sub(pieces));
    ReelRow {
        received,
        scrapped,
        remaining: pieces,
        ..row
    }
}

fn note(edits: &mut Vec<RowEdit>, view: &ReelView, pieces: u64) -> Result<(), AllocError>
    requires { CountFits pieces view.now }
    ensures { OnOk result
        (edits.new.items ≡ edits.old.items ++ counted_edits pieces (Some view.now)) }
{
    edits.push(RowEdit::PutReel(counted_row(view, pieces)))?;
    if view.remaining < pieces {
        edits.push(RowEdit::PutFound {
            reel: view.reel,
            pieces: view
                .found
                .saturating_add(pieces.saturating_sub(view.remaining)),
        })?;
        return Ok(());
    }
    Ok(())
}

fn count_row<D: Views>(edits: &mut Vec<RowEdit>, desk: &D, row: &CountRow) -> Result<(), AllocError>
    requires room { HasRoom D.Stands desk.now 1 }
    requires judged { (B : Basis) → D.Stands desk.now B → IsJudged Two B.history }
    ensures { (B : Basis) → D.Stands desk.now B
        → OnOk result (edits.new.items ≡ edits.old.items ++ count_edits B.history row.now) }
{
    let pieces = row.quantity.get();
    match desk.reel(&row.reel) {
        Some(view) => {
            note(edits, &view, pieces)?;
            Ok(())
        }
        None => Ok(()),
    }
}

/// The edits of a count.
pub fn count<D: Views>(
    alloc: Global,
    desk: &D,
    rows: &[CountRow],
) -> Result<Vec<RowEdit>, AllocError>
    requires room { HasRoom D.Stands desk.now 1 }
    // The rows of a judged history add up, so those of the edits do.
    requires judged { (B : Basis) → D.Stands desk.now B → IsJudged Two B.history }
    ensures { (B : Basis) → D.Stands desk.now B
        → IfOk result (λ edits. edits.items ≡ flat_map (count_edits B.history) rows.now) }
{
    let mut edits = Vec::new(alloc);
    for row in rows {
        count_row(&mut edits, desk, row)?;
    }
    Ok(edits)
}
