//! Opening: the book of a store is checked, and the guard of both lists is made.

ghost use Rattle.std.specs.Prelude.{◌≡◌, ◌≢◌, IfErr, IfOk, IsTrue, OnOk};
ghost use Rattle.sqlite.specs.State.{HasCleanDisk};
ghost use Rattle.line_book_store.specs.Book.{IsAlone};
ghost use Rattle.line_book_store.specs.declared.fault.BookFault.TheVariants.{Unavailable};
ghost use Rattle.line_schema.specs.Book.{disowned};
ghost use Rattle.line_schema.specs.Frames.{ReadsStore};
ghost use Rattle.line_schema.specs.Stands.{Kept, Stands, state_of};
ghost use Rattle.book_store.specs.Lists.{Serves};
ghost use Rattle.book_store.specs.Opened.{Finds, HasPlace, IsFault, IsNamed, Knows, LeavesOpened, Opens, opened_state};

use crate::restoring::{Restored, restore};
use crate::store::BookStore;
use line_book_store::BookFault;
use line_schema::LineStore;
use sqlite::Alter;
use state_rows::KeepsRows;
use std::alloc::Global;

impl<S: Alter, D: KeepsRows + Drop> BookStore<S, D> {
    /// Opens the book of a store: reads it in turn, and makes the guard of both lists. A file without a
    /// book gets an empty one. A file with another table in the book's place is refused by name, and so
    /// is a book by its first wrong entry; the store then comes back.
    pub fn open(
        alloc: Global,
        store: LineStore<S, D>,
    ) -> Result<BookStore<S, D>, (BookFault, LineStore<S, D>)>
        ensures opened { (L : Kept) → Stands S.Store D.Stands store L
            → IfOk result (λ s. Opens S.Store D.Stands store s L) }
        // So it can be asked, whatever the disk did.
        ensures serves { (L : Kept) → Stands S.Store D.Stands store L
            → IfOk result (Serves S.Store D.Stands) }
        // What the file had when it was given has the fault that is named.
        ensures fault { (L : Kept) → Stands S.Store D.Stands store L
            → IfErr result (λ e. IsFault L (state_of S.Store store) (state_of S.Store e.1) e.0) }
        // A file that is refused by name isn't changed.
        ensures refused { IfErr result (λ e. e.0 ≢ Unavailable
            → ReadsStore S.Store D.Stands store e.1) }
        ensures kept { (L : Kept) → Stands S.Store D.Stands store L
            → IfErr result (λ e. Stands S.Store D.Stands e.1 (disowned L)) }
        // A book that is made is on disk, whole.
        ensures crash { (L : Kept) → Stands S.Store D.Stands store L
            → HasPlace (state_of S.Store store).committed → IsTrue (state_of S.Store store).is_open
            → LeavesOpened L (state_of S.Store store) (opened_state S.Store result) result }
    {
        let mut store = store;
        match find_book(alloc, &mut store) {
            Ok(Restored { guard, reading }) => Ok(BookStore {
                alloc,
                store,
                reading,
                guard: Some(guard),
            }),
            Err(fault) => Err((fault, store)),
        }
    }
}

fn find_book<S: Alter, D: KeepsRows + Drop>(
    alloc: Global,
    store: &mut LineStore<S, D>,
) -> Result<Restored, BookFault>
    ensures named { (L : Kept) → Stands S.Store D.Stands store.old L
        → OnOk result (IsNamed (state_of S.Store store.old)) }
    ensures lists { (L : Kept) → Stands S.Store D.Stands store.old L
        → IfOk result (Finds S.Store D.Stands store.old store.new L) }
    ensures fault { (L : Kept) → Stands S.Store D.Stands store.old L → IfErr result
        (IsFault L (state_of S.Store store.old) (state_of S.Store store.new)) }
    ensures refused { IfErr result (λ fault. fault ≢ Unavailable
        → ReadsStore S.Store D.Stands store.old store.new) }
    ensures kept { (L : Kept) → Stands S.Store D.Stands store.old L
        → Stands S.Store D.Stands store.new (disowned L) }
    ensures crash { (L : Kept) → Stands S.Store D.Stands store.old L
        → HasPlace (state_of S.Store store.old).committed
        → IsTrue (state_of S.Store store.old).is_open
        → LeavesOpened L (state_of S.Store store.old) (state_of S.Store store.new) result }
{
    let has = match store.has_book() {
        Ok(has) => has,
        Err(fault) => return Err(fault),
    };
    if has {
        return restore(alloc, store);
    }
    begin_book(alloc, store)
}

/// Makes the book in a file without one.
fn begin_book<S: Alter, D: KeepsRows + Drop>(
    alloc: Global,
    store: &mut LineStore<S, D>,
) -> Result<Restored, BookFault>
    ensures was_open { HasCleanDisk (state_of S.Store store.new)
        → OnOk result (IsTrue (state_of S.Store store.old).is_open) }
    ensures lists { (L : Kept) → Stands S.Store D.Stands store.old L
        → IsAlone (state_of S.Store store.old).committed
        → IfOk result (Knows S.Store D.Stands store.new L) }
    ensures err { IfErr result (λ fault. fault ≡ Unavailable) }
    ensures kept { (L : Kept) → Stands S.Store D.Stands store.old L
        → Stands S.Store D.Stands store.new (disowned L) }
    ensures crash { (L : Kept) → Stands S.Store D.Stands store.old L
        → IsAlone (state_of S.Store store.old).committed
        → LeavesOpened L (state_of S.Store store.old) (state_of S.Store store.new) result }
{
    let Ok(()) = store.add_book() else {
        return Err(BookFault::Unavailable);
    };
    match restore(alloc, store) {
        Ok(restored) => Ok(restored),
        Err(_) => Err(BookFault::Unavailable),
    }
}
