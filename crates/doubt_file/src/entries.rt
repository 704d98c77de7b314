//! The entries of a store's book.

ghost use Rattle.std.specs.Prelude.{IfErr, IfOk, length};
ghost use Rattle.sqlite.specs.State.{HasCleanDisk};
ghost use Rattle.line_schema.specs.Frames.{ReadsStore};
ghost use Rattle.line_schema.specs.Stands.{Kept, Stands, state_of};
ghost use Rattle.book_store.specs.Restored.{IsWrong};
ghost use Rattle.doubt_file.specs.Doubts.{AreEntries};

use crate::adding::add;
use book_store::wrong_after;
use line_book::{Note, Reading};
use line_book_store::BookFault;
use line_schema::LineStore;
use sqlite::Alter;
use state_rows::KeepsRows;
use std::alloc::Global;

/// Returns all entries of the book, in their order, and checks them on the way. Nothing changes in the file.
pub fn entries_of<S: Alter, D: KeepsRows + Drop>(
    alloc: Global,
    store: &mut LineStore<S, D>,
) -> Result<Vec<Note>, BookFault>
    ensures ok { (L : Kept) → Stands S.Store D.Stands store.old L
        → IfOk result (λ notes. AreEntries L (HasCleanDisk (state_of S.Store store.new))
        (state_of S.Store store.old) notes.items) }
    // The first entry that can't follow those before it.
    ensures err { (L : Kept) → Stands S.Store D.Stands store.old L
        → HasCleanDisk (state_of S.Store store.new)
        → IfErr result (IsWrong (length L.history) (state_of S.Store store.old)) }
    ensures reads { ReadsStore S.Store D.Stands store.old store.new }
{
    let commands = store.count();
    let mut notes = Vec::new(alloc);
    let mut reading = Reading::new(u64::from(commands));
    let mut more = true;
    while more {
        match store.next_note(&mut reading)? {
            Some(note) => add(&mut notes, note)?,
            None => more = false,
        }
    }
    let whole = store.is_whole(reading.entries)?;
    if !whole {
        return Err(wrong_after(reading.entries));
    }
    Ok(notes)
}
