//! The entries of refused commands and faulty messages.

ghost use Rattle.std.specs.Prelude.{◌≡◌, IfOk};
ghost use Rattle.sqlite.specs.State.{Survives};
ghost use Rattle.book_store.specs.Lists.{ForLists, Lists, Serves, StandsFor, book_state};
ghost use Rattle.book_store.specs.Noted.{fault_entry, refusal_entry};

use crate::store::BookStore;
use cfx_profile::MessageFault;
use desk_answers::Answer;
use desk_types::Stamped;
use line_book::Note;
use line_entries::{fault_note, faulty, refusal_note, refused};
use line_schema::Unavailable;
use sqlite::Alter;
use state_rows::KeepsRows;

impl<S: Alter, D: KeepsRows + Drop> BookStore<S, D> {
    /// Returns the entry that a faulty message makes, if any.
    pub fn fault_entry(
        &self,
        told: &[u8],
        fault: &MessageFault,
    ) -> Result<Option<Note>, Unavailable>
        ensures { (L : Lists) → StandsFor S.Store D.Stands self.now L
            → IfOk result (λ entry. entry ≡ fault_entry L told.now fault.now) }
    {
        let Some(matter) = faulty(self.alloc, told, fault)? else {
            return Ok(None);
        };
        let place = self.place()?;
        Ok(Some(fault_note(self.alloc, place, matter, told)?))
    }

    /// Returns the entry that a command with this answer makes, if any, by the desk, which is loaded
    /// first if it isn't loaded.
    pub fn refusal_entry(
        &mut self,
        stamped: &Stamped,
        answer: &Answer,
    ) -> Result<Option<Note>, Unavailable>
        requires serves { Serves S.Store D.Stands self.old }
        ensures entry { ForLists S.Store D.Stands self.old self.new (λ L.
            IfOk result (λ entry. entry ≡ refusal_entry L stamped.now answer.now)) }
        ensures stands { ForLists S.Store D.Stands self.old self.new
            (StandsFor S.Store D.Stands self.new) }
        ensures survives { Survives (book_state S.Store self.old) (book_state S.Store self.new)
            (λ _. ⊥) }
        ensures serves { Serves S.Store D.Stands self.new }
    {
        self.ready()?;
        let Some(desk) = self.store.desk() else {
            return Err(Unavailable);
        };
        let Some(matter) = refused(desk, &stamped.command, answer)? else {
            return Ok(None);
        };
        let place = self.place()?;
        Ok(Some(refusal_note(self.alloc, place, matter, &stamped.command)?))
    }
}
