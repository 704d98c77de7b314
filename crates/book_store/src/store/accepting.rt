//! An accepted command with its entries.

ghost use Rattle.std.specs.Prelude.{◌≡◌, ◌++◌, None, IfErr, IfOk, IfSome, length};
ghost use Rattle.sqlite.specs.State.{HasCleanDisk};
ghost use Rattle.desk_types.specs.History.{History, accept};
ghost use Rattle.desk_answers.specs.Commands.{earlier_answer};
ghost use Rattle.line_book.specs.Book.{Book};
ghost use Rattle.line_book.specs.Guard.{IsGuard};
ghost use Rattle.line_schema.specs.Stands.{Kept, Stands};
ghost use Rattle.line_schema.specs.Verdict.{CanCommit};
ghost use Rattle.book_store.specs.Accepted.{AreNextNotes, ArePlacedAt, KeepsCommand, Refuses, RefusesRows};
ghost use Rattle.book_store.specs.Ended.{Ends};
ghost use Rattle.book_store.specs.Lists.{ForLists, Serves, book_state};

use crate::fault::NoteFault;
use crate::store::BookStore;
use crate::store::noting::{read_placed, take_in};
use desk_answers::Answer;
use desk_types::{Change, Stamped};
use line_book::{BookRow, Guard, Note, Reading};
use sqlite::Alter;
use state_rows::KeepsRows;
use std::alloc::Global;

impl<S: Alter, D: KeepsRows + Drop> BookStore<S, D> {
    /// Accepts a judged change, and commits its command with the entries about it in one transaction
    /// before it returns. The entries stand behind the others, at the end of the history before the
    /// command. Rows that could not be read again as these entries are refused. After an error neither is
    /// committed.
    pub fn accept(&mut self, change: Change, rows: &[BookRow]) -> Result<Answer, NoteFault>
        requires serves { Serves S.Store D.Stands self.old }
        requires ready { CanCommit D.Stands self.old.store change }
        // Both lists have the command and its entries, on disk; or they are the same, and so is what
        // the store says of them.
        ensures accepted { ForLists S.Store D.Stands self.old self.new (λ L.
            earlier_answer L.kept.history change.stamped ≡ None
            → Ends S.Store D.Stands self.old self.new L result
            (KeepsCommand L self.old.reading change rows.now)) }
        // The first row that can't be the next entry is refused, and nothing is written.
        ensures refused { (L : Kept) → Stands S.Store D.Stands self.old.store L → IfErr result
            (Refuses self.old self.new (length L.history) rows.now) }
        // A disk that has lied is never honest again.
        ensures clean { HasCleanDisk (book_state S.Store self.new)
            → HasCleanDisk (book_state S.Store self.old) }
        ensures serves { Serves S.Store D.Stands self.new }
    {
        let mut reading = self.reading;
        let notes = read_all(self.alloc, &mut reading, self.store.count(), rows)?;
        let stamped = change.stamped().clone()?;
        let answer = self.store.commit_with_entries(change, rows)?;
        reading.commands = u64::from(self.store.count());
        self.reading = reading;
        take_all(&mut self.guard, notes.as_slice());
        take_command(&mut self.guard, &stamped);
        Ok(answer)
    }
}

/// Reads rows as the next entries, all after so many commands.
fn read_all(
    alloc: Global,
    reading: &mut Reading,
    place: u32,
    rows: &[BookRow],
) -> Result<Vec<Note>, NoteFault>
    ensures read { IfOk result
        (λ notes. ArePlacedAt reading.old place rows.now notes.items reading.new) }
    ensures err { IfErr result (RefusesRows reading.old place rows.now) }
{
    let mut notes = Vec::new(alloc);
    for row in rows {
        let note = read_placed(alloc, reading, place, row)?;
        let Ok(()) = notes.push(note) else {
            return Err(NoteFault::Unavailable);
        };
    }
    Ok(notes)
}

/// Takes in entries. Drops the guard if memory is refused.
fn take_all(guard: &mut Option<Guard>, notes: &[Note])
    ensures { (H : History) (B : Book) → IfSome guard.old (IsGuard H B)
        → AreNextNotes H B notes.now → IfSome guard.new (IsGuard H (B ++ notes.now)) }
{
    for note in notes {
        take_in(guard, note);
    }
}

/// Takes in an accepted command. Drops the guard if memory is refused.
fn take_command(guard: &mut Option<Guard>, stamped: &Stamped)
    ensures { (H : History) (B : Book) → IfSome guard.old (IsGuard H B)
        → IfSome guard.new (IsGuard (accept H stamped.now) B) }
{
    let Some(mut taken) = guard.take() else {
        return;
    };
    if taken.accepted(stamped).is_ok() {
        *guard = Some(taken);
    }
}
