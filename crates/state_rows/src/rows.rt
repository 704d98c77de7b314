//! The edits of an accepted command.

ghost use Rattle.std.specs.Prelude.{◌≡◌, ◌+◌, ◌≤◌, IfOk, length, map, ◌∷◌, []};
ghost use Rattle.desk_types.specs.declared.rules.Rules.TheVariants.{Two};
ghost use Rattle.desk_types.specs.History.{Basis, now_of, accept};
ghost use Rattle.desk_types.specs.Judged.{IsJudged};
ghost use Rattle.desk_types.specs.Desk.{HasRoom, IsChange};
ghost use Rattle.desk_types.specs.Tables.{tables_of};
ghost use Rattle.desk_types.specs.Edits.{with_edits, AreNew, AreTakesFirst, AreBalanced};
ghost use Rattle.state_rows.specs.Kept.{unnumbered};
ghost use Rattle.state_rows.specs.EditsOf.{pick_of, AreEditsOf, ArePiecesFitting};

use crate::counted::count;
use crate::reels::{bake, mount, open, seal};
use crate::sheets::define;
use crate::slot_rows::{board, unload};
use crate::takes::take;
use crate::views::{DeskViews, Views};
use desk_types::{
    Change, Command, Desk, Listing, Minute, MountRow, ReelRow, RowEdit, RowEdits, Take,
};
use std::alloc::{AllocError, Global};

fn one(alloc: Global, edit: RowEdit) -> Result<Vec<RowEdit>, AllocError>
    ensures { IfOk result (λ edits. edits.items ≡ edit ∷ []) }
{
    let mut edits = Vec::new(alloc);
    edits.push(edit)?;
    Ok(edits)
}

fn edits_of<D: Views>(
    alloc: Global,
    desk: &D,
    command: &Command,
    number: u64,
    minute: Minute,
    takes: &[Take],
) -> Result<Vec<RowEdit>, AllocError>
    requires room { HasRoom D.Stands desk.now 1 }
    requires judged { (B : Basis) → D.Stands desk.now B → IsJudged Two B.history }
    requires not_before { (B : Basis) → D.Stands desk.now B → now_of B.history ≤ minute }
    requires fits { (B : Basis) × D.Stands desk.now B
        × ArePiecesFitting B.history (map pick_of takes.now) }
    ensures { (B : Basis) → D.Stands desk.now B
        → IfOk result
        (λ edits. AreEditsOf B.history number minute takes.now command.now edits.items) }
{
    match command {
        Command::PartDefined { part } => one(alloc, RowEdit::PutPart { part: *part }),
        Command::AlternateAllowed { part, alternate } => one(
            alloc,
            RowEdit::PutAlternate {
                part: *part,
                alternate: *alternate,
            },
        ),
        Command::SheetDefined {
            product,
            machine,
            rows,
        } => define(alloc, desk, product, machine, rows.as_slice()),
        Command::ProductSelected { machine, product } => one(
            alloc,
            RowEdit::PutSelected {
                machine: *machine,
                product: *product,
            },
        ),
        Command::ReelReceived {
            reel,
            part,
            lot,
            moisture,
            quantity,
        } => one(
            alloc,
            RowEdit::PutReel(ReelRow::fresh(*reel, *part, *lot, *moisture, *quantity)),
        ),
        Command::ReelOpened { reel } => open(alloc, desk, reel, minute),
        Command::ReelSealed { reel } => seal(alloc, desk, reel, minute),
        Command::ReelBaked { reel } => bake(alloc, desk, reel),
        Command::MaterialsLoaded {
            machine,
            slot,
            reel,
        }
        | Command::MaterialsSpliced {
            machine,
            slot,
            reel,
        } => mount(
            alloc,
            desk,
            MountRow {
                since: number,
                machine: *machine,
                slot: *slot,
                reel: *reel,
            },
            minute,
        ),
        Command::MaterialsUnloaded { machine, slot } => unload(alloc, desk, machine, slot),
        Command::WorkStarted { machine, board: at } => {
            board(alloc, desk, machine, at, Some(*machine))
        }
        Command::WorkCompleted { machine, board: at } => board(alloc, desk, machine, at, None),
        Command::MaterialsInstalled { .. } | Command::MaterialsScrapped { .. } => {
            take(alloc, desk, number, takes)
        }
        Command::CountsTaken { counts } => count(alloc, desk, counts.as_slice()),
        Command::ClockSet => Ok(Vec::new(alloc)),
    }
}

/// Makes the edits of a change, as `rows_of`, from views. Under any number they lead to the tables with
/// the change, except for what has that number: placements, and the `since` of a mount.
pub fn edits_for<D: Views>(
    alloc: Global,
    desk: &D,
    change: &Change,
    number: u64,
) -> Result<RowEdits, AllocError>
    requires room { HasRoom D.Stands desk.now 1 }
    requires judged { (B : Basis) → D.Stands desk.now B
        → IsChange B.rules B.history change.now.stamped change.now }
    // Of the number that the command gets: the tables that the definitions give.
    ensures lead { (B : Basis) → D.Stands desk.now B → number ≡ length B.history + 1
        → IfOk result (λ edits. with_edits edits (tables_of B.history)
        ≡ tables_of (accept B.history change.now.stamped)) }
    // SQL's INSERT of a placement, a mount or a sheet's row meets no row with its key.
    ensures new { (B : Basis) → D.Stands desk.now B → number ≡ length B.history + 1
        → IfOk result (λ edits. AreNew edits (tables_of B.history)) }
    // Under any other number all but the number is right, so a desk in memory settles by them.
    ensures same { (B : Basis) → D.Stands desk.now B
        → IfOk result
        (λ edits. unnumbered (with_edits edits (tables_of B.history))
        ≡ unnumbered (tables_of (accept B.history change.now.stamped))) }
    // Rows go before others come, and sums are right, so SQL's checks hold after each edit.
    ensures in_order { IfOk result (λ edits. AreTakesFirst edits × AreBalanced edits) }
{
    change.stamped.ranges_hold();
    let _ = change.minute.get();
    let edits = edits_of(
        alloc,
        desk,
        &change.stamped.command,
        number,
        change.minute,
        change.takes(),
    )?;
    Ok(Listing::new(edits))
}

/// Returns the edits that turn the state tables into those with the change, accepted under this number. Made one after
/// another, they keep each table's keys and checks: rows are removed before others are inserted; a placement, a mount
/// or a row of a sheet is inserted only if its key is free; and the pieces in each new row add up.
pub fn rows_of<D: Desk>(
    alloc: Global,
    desk: &D,
    change: &Change,
    number: u64,
) -> Result<RowEdits, AllocError>
    requires room { HasRoom D.Stands desk.now 1 }
    requires judged { (B : Basis) → D.Stands desk.now B
        → IsChange B.rules B.history change.now.stamped change.now }
    // Of the number that the command gets: the tables that the definitions give.
    ensures lead { (B : Basis) → D.Stands desk.now B → number ≡ length B.history + 1
        → IfOk result (λ edits. with_edits edits (tables_of B.history)
        ≡ tables_of (accept B.history change.now.stamped)) }
    // SQL's INSERT of a placement, a mount or a sheet's row meets no row with its key.
    ensures new { (B : Basis) → D.Stands desk.now B → number ≡ length B.history + 1
        → IfOk result (λ edits. AreNew edits (tables_of B.history)) }
    // Under any other number all but the number is right, so a desk in memory settles by them.
    ensures same { (B : Basis) → D.Stands desk.now B
        → IfOk result
        (λ edits. unnumbered (with_edits edits (tables_of B.history))
        ≡ unnumbered (tables_of (accept B.history change.now.stamped))) }
    // Rows go before others come, and sums are right, so SQL's checks hold after each edit.
    ensures in_order { IfOk result (λ edits. AreTakesFirst edits × AreBalanced edits) }
{
    let views = DeskViews { desk };
    edits_for(alloc, &views, change, number)
}
