//! An entry of the book.

ghost use Rattle.std.specs.Prelude.{◌≡◌, ◌++◌, ◌∷◌, [], IfErr, IfOk, IfSome, length};
ghost use Rattle.sqlite.specs.State.{HasCleanDisk};
ghost use Rattle.desk_types.specs.History.{History};
ghost use Rattle.line_book.specs.Book.{Book};
ghost use Rattle.line_book.specs.declared.note.Note.{Note as Entry};
ghost use Rattle.line_book.specs.Guard.{IsGuard, IsNextNote};
ghost use Rattle.line_book.specs.Rows.{read_on};
ghost use Rattle.line_book_store.specs.Checking.{IsRead};
ghost use Rattle.line_schema.specs.Stands.{Kept, Stands};
ghost use Rattle.book_store.specs.Accepted.{RefusesRow};
ghost use Rattle.book_store.specs.Ended.{Ends, with_note};
ghost use Rattle.book_store.specs.Lists.{ForLists, Lists, Serves, StandsFor, book_state};
ghost use Rattle.book_store.specs.Noted.{AddsEntry, IsNextEntry, KeepsAny, place_in};

use crate::fault::NoteFault;
use crate::store::BookStore;
use line_book::{BookRow, Guard, Note, Reading, RowFault};
use line_entries::{Place, Sender, row_of};
use line_schema::Unavailable;
use sqlite::Alter;
use state_rows::KeepsRows;
use std::alloc::Global;

impl<S: Alter, D: KeepsRows + Drop> BookStore<S, D> {
    /// Writes an entry behind the others, at the end of the history, and commits it before it returns.
    /// A row that could not be read again as the next entry is refused. The history stays.
    pub fn note(&mut self, row: &BookRow) -> Result<(), NoteFault>
        requires serves { Serves S.Store D.Stands self.old }
        // The book has the entry that the row says, on disk; or it is the same, and so is what the
        // store says of both lists.
        ensures noted { ForLists S.Store D.Stands self.old self.new (λ L.
            Ends S.Store D.Stands self.old self.new L result (λ _ M. (n : Entry)
            × IsRead self.old.reading row.now n × (M ≡ with_note L row.now n))) }
        // A row is refused for its own fault.
        ensures refused { (L : Kept) → Stands S.Store D.Stands self.old.store L
            → IfErr result (RefusesRow self.old.reading (length L.history) row.now) }
        // A disk that has lied is never honest again.
        ensures clean { HasCleanDisk (book_state S.Store self.new)
            → HasCleanDisk (book_state S.Store self.old) }
        ensures serves { Serves S.Store D.Stands self.new }
    {
        let mut reading = self.reading;
        let entry = read_placed(self.alloc, &mut reading, self.store.count(), row)?;
        self.store.note(row)?;
        self.reading = reading;
        take_in(&mut self.guard, &entry);
        Ok(())
    }

    /// Returns where the next entry is written. If a command has several, they are numbered on from
    /// it, at the same place of the history.
    pub fn place(&self) -> Result<Place, Unavailable>
        ensures { (L : Lists) → StandsFor S.Store D.Stands self.now L
            → IfOk result (λ place. place ≡ place_in L) }
    {
        match self.reading.entries.checked_add(1) {
            Some(number) => Ok(Place {
                number,
                after: self.store.count(),
                carries: 0,
            }),
            None => Err(Unavailable),
        }
    }

    /// Writes the next entry, with the sender's words.
    pub fn write(&mut self, note: &Note, sender: &Sender, told: &[u8]) -> Result<(), Unavailable>
        requires serves { Serves S.Store D.Stands self.old }
        // Its row is read back as this entry.
        ensures written { ForLists S.Store D.Stands self.old self.new (λ L.
            IsNextEntry L told.now note.now
            → Ends S.Store D.Stands self.old self.new L result
            (λ _. AddsEntry L note.now sender.now told.now)) }
        ensures clean { HasCleanDisk (book_state S.Store self.new)
            → HasCleanDisk (book_state S.Store self.old) }
        ensures serves { Serves S.Store D.Stands self.new }
    {
        let row = row_of(self.alloc, note, sender, told)?;
        match self.note(&row) {
            Ok(()) => Ok(()),
            Err(_) => Err(Unavailable),
        }
    }

    /// Writes the next entry if there is one, unless the book has it in an entry that isn't closed.
    pub fn keep(
        &mut self,
        entry: &Option<Note>,
        sender: &Sender,
        told: &[u8],
    ) -> Result<(), Unavailable>
        requires serves { Serves S.Store D.Stands self.old }
        ensures kept { ForLists S.Store D.Stands self.old self.new (λ L.
            IfSome entry.now (IsNextEntry L told.now)
            → Ends S.Store D.Stands self.old self.new L result
            (λ _. KeepsAny L entry.now sender.now told.now)) }
        ensures clean { HasCleanDisk (book_state S.Store self.new)
            → HasCleanDisk (book_state S.Store self.old) }
        ensures serves { Serves S.Store D.Stands self.new }
    {
        let Some(note) = entry else {
            return Ok(());
        };
        let Some(guard) = &self.guard else {
            return Err(Unavailable);
        };
        if guard.is_known(note) {
            return Ok(());
        }
        self.write(note, sender, told)
    }
}

/// Reads a row as the next entry, after so many commands.
pub fn read_placed(
    alloc: Global,
    reading: &mut Reading,
    place: u32,
    row: &BookRow,
) -> Result<Note, NoteFault>
    ensures read { IfOk result (λ n. IsRead reading.old row.now n
        × (reading.new ≡ read_on reading.old n)) }
    ensures placed { IfOk result (λ n. n.after ≡ place) }
    ensures err { IfErr result (RefusesRow reading.old place row.now) }
{
    match reading.next(alloc, row)? {
        Ok(note) if note.after == place => Ok(note),
        Ok(_) => Err(NoteFault::NoEntry(RowFault::WrongPlace)),
        Err(fault) => Err(NoteFault::NoEntry(fault)),
    }
}

/// Takes in an entry. Drops the guard if memory is refused.
pub fn take_in(guard: &mut Option<Guard>, note: &Note)
    ensures { (H : History) (B : Book) → IfSome guard.old (IsGuard H B) → IsNextNote H B note.now
        → IfSome guard.new (IsGuard H (B ++ note.now ∷ [])) }
{
    let Some(mut taken) = guard.take() else {
        return;
    };
    if taken.noted(note).is_ok() {
        *guard = Some(taken);
    }
}
