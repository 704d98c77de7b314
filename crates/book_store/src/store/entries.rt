//! The rows of the book.

ghost use Rattle.std.specs.Prelude.{◌≡◌, IfOk, length, map};
ghost use Rattle.sqlite.specs.State.{Survives};
ghost use Rattle.line_book_store.specs.Book.{entry_columns};
ghost use Rattle.line_book_store.specs.Reading.{window};
ghost use Rattle.line_answers.specs.Book.{book_text, written_row};
ghost use Rattle.line_answers.specs.Counts.{counts_of};
ghost use Rattle.book_store.specs.Entries.{before_wanted};
ghost use Rattle.book_store.specs.Lists.{ForLists, Lists, Serves, StandsFor, book_state};

use crate::store::BookStore;
use desk_types::Text;
use line_answers::{Counts, Wanted, book_text};
use line_book::BookRow;
use line_schema::Unavailable;
use sqlite::Alter;
use state_rows::KeepsRows;

impl<S: Alter, D: KeepsRows + Drop> BookStore<S, D> {
    /// Returns the number of the last entry, or 0 without one.
    pub fn last_entry(&self) -> u32
        ensures { (L : Lists) → StandsFor S.Store D.Stands self.now L → result ≡ length L.notes }
    {
        self.reading.entries
    }

    /// Returns how many commands and entries there are, by both lists alone.
    pub fn counts(&self) -> Result<Counts, Unavailable>
        ensures { (L : Lists) → StandsFor S.Store D.Stands self.now L
            → IfOk result (λ counts. counts ≡ counts_of L.kept.history L.notes) }
    {
        let Some(guard) = &self.guard else {
            return Err(Unavailable);
        };
        Ok(Counts {
            commands: self.store.count(),
            entries: self.reading.entries,
            open_entries: guard.open_notes().len(),
            undecided: guard.undecided().len(),
        })
    }

    /// Returns at most so many rows behind the one with this number, in their order. Nothing changes.
    pub fn entries(&mut self, number: u32, most: u32) -> Result<Vec<BookRow>, Unavailable>
        requires serves { Serves S.Store D.Stands self.old }
        ensures window { ForLists S.Store D.Stands self.old self.new (λ L. IfOk result (λ found.
            map entry_columns found.items ≡ map entry_columns (window number most L.rows))) }
        ensures stands { ForLists S.Store D.Stands self.old self.new
            (StandsFor S.Store D.Stands self.new) }
        ensures survives { Survives (book_state S.Store self.old) (book_state S.Store self.new)
            (λ _. ⊥) }
        ensures serves { Serves S.Store D.Stands self.new }
    {
        self.store.entries_after(number, most)
    }

    /// Returns the rows that are asked for as CSV, and what each entry still asks for, by both lists
    /// alone. Nothing changes.
    pub fn book(&mut self, wanted: Wanted) -> Result<Text, Unavailable>
        requires serves { Serves S.Store D.Stands self.old }
        ensures text { ForLists S.Store D.Stands self.old self.new (λ L. IfOk result
            (λ text. text ≡ book_text L.kept.history L.notes wanted (map written_row L.rows))) }
        ensures stands { ForLists S.Store D.Stands self.old self.new
            (StandsFor S.Store D.Stands self.new) }
        ensures survives { Survives (book_state S.Store self.old) (book_state S.Store self.new)
            (λ _. ⊥) }
        ensures serves { Serves S.Store D.Stands self.new }
    {
        let last = self.last_entry();
        let rows = self.entries(before_wanted(wanted), last)?;
        let Some(guard) = &self.guard else {
            return Err(Unavailable);
        };
        Ok(book_text(
            self.alloc,
            rows.as_slice(),
            guard.open_notes(),
            guard.undecided(),
            wanted,
        )?)
    }
}

fn before_wanted(wanted: Wanted) -> u32
    ensures { result ≡ before_wanted wanted }
{
    match wanted {
        Wanted::After(number) => number,
        Wanted::Undecided => 0,
    }
}
