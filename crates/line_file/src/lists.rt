//! Both lists of a store, with a book or without one.

ghost use Rattle.std.specs.Prelude.{◌≡◌, IfErr, IfOk, length};
ghost use Rattle.sqlite.specs.State.{HasCleanDisk};
ghost use Rattle.line_book_store.specs.declared.fault.BookFault.TheVariants.{Unavailable};
ghost use Rattle.line_schema.specs.Frames.{ReadsStore};
ghost use Rattle.line_schema.specs.Stands.{Kept, Stands, state_of};
ghost use Rattle.book_store.specs.Restored.{IsWrong};
ghost use Rattle.line_file.specs.Lists.{ReadsBook, ReadsLists, IsBookFault, IsSound, ReadsHistory};

use book_store::{Restored, advance, restore};
use line_book::{BookRow, Guard, Reading};
use line_book_store::BookFault;
use line_schema::LineStore;
use sqlite::Alter;
use state_rows::KeepsRows;
use std::alloc::Global;

/// Both lists as they were read.
#[derive(Drop)]
pub struct Found {
    pub lists: Restored,
    /// The rows of the book if they were asked for, else none.
    pub rows: Vec<BookRow>,
}

/// Reads both lists, and checks the book. A file without a book has an empty one, and gets none.
pub fn read_lists<S: Alter, D: KeepsRows + Drop>(
    alloc: Global,
    store: &mut LineStore<S, D>,
    with_rows: bool,
) -> Result<Found, BookFault>
    ensures ok { (L : Kept) → Stands S.Store D.Stands store.old L
        → IfOk result (ReadsLists L with_rows (IsSound (state_of S.Store store.new))
        (state_of S.Store store.old)) }
    ensures err { (L : Kept) → Stands S.Store D.Stands store.old L
        → IsSound (state_of S.Store store.new)
        → IfErr result (IsBookFault (length L.history) (state_of S.Store store.old)) }
    ensures reads { ReadsStore S.Store D.Stands store.old store.new }
{
    let has = match store.has_book() {
        Ok(has) => has,
        Err(fault) => return Err(fault),
    };
    if has {
        return read_book(alloc, store, with_rows);
    }
    let lists = read_history(alloc, store)?;
    Ok(Found {
        lists,
        rows: Vec::new(alloc),
    })
}

/// The same of a file with a book.
fn read_book<S: Alter, D: KeepsRows + Drop>(
    alloc: Global,
    store: &mut LineStore<S, D>,
    with_rows: bool,
) -> Result<Found, BookFault>
    ensures ok { (L : Kept) → Stands S.Store D.Stands store.old L
        → IfOk result (ReadsBook L with_rows (HasCleanDisk (state_of S.Store store.new))
        (state_of S.Store store.old)) }
    ensures err { (L : Kept) → Stands S.Store D.Stands store.old L
        → HasCleanDisk (state_of S.Store store.new)
        → IfErr result (IsWrong (length L.history) (state_of S.Store store.old)) }
    ensures reads { ReadsStore S.Store D.Stands store.old store.new }
{
    let lists = restore(alloc, store)?;
    if !with_rows {
        return Ok(Found {
            lists,
            rows: Vec::new(alloc),
        });
    }
    match store.entries_after(0, lists.reading.entries) {
        Ok(rows) => Ok(Found { lists, rows }),
        Err(_) => Err(BookFault::Unavailable),
    }
}

/// Returns the guard of the history alone.
fn read_history<S: Alter, D: KeepsRows + Drop>(
    alloc: Global,
    store: &mut LineStore<S, D>,
) -> Result<Restored, BookFault>
    ensures ok { (L : Kept) → Stands S.Store D.Stands store.old L
        → IfOk result (ReadsHistory L (IsSound (state_of S.Store store.new))) }
    ensures err { IfErr result (λ fault. fault ≡ Unavailable) }
    ensures reads { ReadsStore S.Store D.Stands store.old store.new }
{
    let commands = store.count();
    let mut guard = Guard::new(alloc);
    advance(store, &mut guard, 0, commands)?;
    let reading = Reading::new(u64::from(commands));
    Ok(Restored { guard, reading })
}
