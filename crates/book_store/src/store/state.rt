//! Whether a machine may work, as a text.

ghost use Rattle.std.specs.Prelude.{◌≡◌, IfOk};
ghost use Rattle.sqlite.specs.State.{Survives};
ghost use Rattle.line_answers.specs.State.{state_text};
ghost use Rattle.book_store.specs.Lists.{ForLists, Serves, StandsFor, book_state};

use crate::store::BookStore;
use desk_types::{Id, Text};
use line_answers::{Point, state_text};
use line_schema::Unavailable;
use sqlite::Alter;
use state_rows::KeepsRows;

impl<S: Alter, D: KeepsRows + Drop> BookStore<S, D> {
    /// Returns the text of the answer that says whether the machine may work, and each cause why not,
    /// by both lists alone, or none if no sheet is for the machine. Loads the desk first if it isn't
    /// loaded.
    pub fn state(&mut self, machine: &Id) -> Result<Option<Text>, Unavailable>
        requires serves { Serves S.Store D.Stands self.old }
        ensures text { ForLists S.Store D.Stands self.old self.new (λ L. IfOk result
            (λ text. text ≡ state_text L.kept.history L.notes machine.now)) }
        ensures stands { ForLists S.Store D.Stands self.old self.new
            (StandsFor S.Store D.Stands self.new) }
        ensures survives { Survives (book_state S.Store self.old) (book_state S.Store self.new)
            (λ _. ⊥) }
        ensures serves { Serves S.Store D.Stands self.new }
    {
        self.ready()?;
        let number = u64::from(self.store.count());
        let Some(desk) = self.store.desk() else {
            return Err(Unavailable);
        };
        let Some(guard) = &self.guard else {
            return Err(Unavailable);
        };
        let point = Point {
            number,
            board: guard.board_on(machine),
        };
        Ok(state_text(self.alloc, desk, guard, machine, &point)?)
    }
}
