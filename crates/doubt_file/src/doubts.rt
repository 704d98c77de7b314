//! The pieces in doubt by both lists of a store.

ghost use Rattle.std.specs.Prelude.{◌≡◌, IfErr, IfOk, length};
ghost use Rattle.line_book_store.specs.declared.fault.BookFault.TheVariants.{Unavailable};
ghost use Rattle.line_doubt.specs.Reasons.{AreExplained};
ghost use Rattle.line_file.specs.Lists.{IsBookFault, IsSound};
ghost use Rattle.line_schema.specs.Frames.{ReadsStore};
ghost use Rattle.line_schema.specs.Stands.{ForKept, Kept, Stands, state_of};
ghost use Rattle.doubt_file.specs.Doubts.{ReadsDoubts};

use crate::commands::commands_of;
use crate::entries::entries_of;
use line_book::Note;
use line_book_store::BookFault;
use line_doubt::{Doubt, doubtful, notes_rise, pieces_rise};
use line_schema::LineStore;
use sqlite::Alter;
use state_rows::KeepsRows;
use std::alloc::Global;

/// Returns the pieces in doubt by both lists, with a tolerance of so many pieces at each splice. A file without a book
/// has an empty one.
pub fn doubts_of<S: Alter, D: KeepsRows + Drop>(
    alloc: Global,
    store: &mut LineStore<S, D>,
    within: u32,
) -> Result<Vec<Doubt>, BookFault>
    ensures ok { (L : Kept) → Stands S.Store D.Stands store.old L
        → IfOk result (λ found. ReadsDoubts L within (IsSound (state_of S.Store store.new))
        (state_of S.Store store.old) found.items) }
    ensures err { (L : Kept) → Stands S.Store D.Stands store.old L
        → IsSound (state_of S.Store store.new)
        → IfErr result (IsBookFault (length L.history) (state_of S.Store store.old)) }
    ensures reads { ReadsStore S.Store D.Stands store.old store.new }
{
    let has = match store.has_book() {
        Ok(has) => has,
        Err(fault) => return Err(fault),
    };
    if !has {
        return doubts_with(alloc, store, &[], within);
    }
    let book = entries_of(alloc, store)?;
    doubts_with(alloc, store, &book, within)
}

/// The same with this book.
fn doubts_with<S: Alter, D: KeepsRows + Drop>(
    alloc: Global,
    store: &mut LineStore<S, D>,
    book: &[Note],
    within: u32,
) -> Result<Vec<Doubt>, BookFault>
    ensures doubts { ForKept S.Store D.Stands store.old store.new (λ L. IfOk result
        (λ found. AreExplained L.history book.now within found.items)) }
    ensures err { IfErr result (λ fault. fault ≡ Unavailable) }
    ensures reads { ReadsStore S.Store D.Stands store.old store.new }
{
    let commands = commands_of(alloc, store)?;
    let placed = match store.placed_rows() {
        Ok(placed) => placed,
        Err(_) => return Err(BookFault::Unavailable),
    };
    let pieces = placed.as_slice();
    if !notes_rise(commands.len(), book) || !pieces_rise(commands.len(), pieces) {
        return Err(BookFault::Unavailable);
    }
    match doubtful(alloc, &commands, book, pieces, within) {
        Ok(found) => Ok(found),
        Err(_) => Err(BookFault::Unavailable),
    }
}
