//! The store of both lists.

ghost use Rattle.std.specs.Prelude.{◌≡◌, ◌↔◌, [], IfOk, IsTrue, OnOk, is_some};
ghost use Rattle.std.specs.Borrow.{sem};
ghost use Rattle.sqlite.specs.State.{Survives};
ghost use Rattle.line_book.specs.Causes.{causes};
ghost use Rattle.line_book.specs.Go.{MayWork};
ghost use Rattle.line_schema.specs.Stands.{has_desk};
ghost use Rattle.book_store.specs.Lists.{ForLists, Serves, StandsFor, book_state};

mod accepting;
mod answering;
mod entries;
mod findings;
mod guarding;
mod noting;
mod opening;
mod refusing;
mod saying;
mod state;

use desk_types::Id;
use line_book::{Cause, Guard, Reading};
use line_schema::{LineStore, Unavailable};
use sqlite::Alter;
use state_rows::KeepsRows;
use std::alloc::Global;

/// A line's file with both lists: accepted commands with their tables, and the book. Its guard says
/// which machines may work.
pub struct BookStore<S: Alter, D: KeepsRows + Drop> {
    alloc: Global,
    store: LineStore<S, D>,
    reading: Reading,
    guard: Option<Guard>,
}

impl<S: Alter, D: KeepsRows + Drop> BookStore<S, D> {
    ghost use Rattle.book_store.specs.Lent.{LendsHistory};

    /// Returns the store of the history, with its connection. Takes no memory.
    pub fn into_store(self) -> LineStore<S, D>
        ensures { result ≡ self.store }
    {
        let BookStore {
            alloc: _,
            store,
            reading: _,
            guard: _guard,
        } = self;
        store
    }

    /// Lends the store of the history. It is loaded after [`BookStore::ready`]. The caller must leave both
    /// lists.
    pub fn history(&mut self) -> &mut LineStore<S, D>
        ensures* lends { sem 𝓛 (LendsHistory S.row D.row S.Store self.entry result) }
        ensures value { result.now ≡ self.old.store }
    {
        &mut self.store
    }

    /// Loads the desk if it isn't loaded, and makes the guard again if memory was refused when it took in a
    /// command or an entry. Both lists stay.
    pub fn ready(&mut self) -> Result<(), Unavailable>
        requires serves { Serves S.Store D.Stands self.old }
        ensures loaded { OnOk result (IsTrue (has_desk self.new.store)) }
        // So a refusal of memory is over when there is memory again.
        ensures guarded { OnOk result (IsTrue (is_some self.new.guard)) }
        ensures stands { ForLists S.Store D.Stands self.old self.new
            (StandsFor S.Store D.Stands self.new) }
        ensures survives { Survives (book_state S.Store self.old) (book_state S.Store self.new)
            (λ _. ⊥) }
        ensures serves { Serves S.Store D.Stands self.new }
    {
        self.make_guard()?;
        self.store.ready()
    }

    /// Returns all causes why the machine may not work, by both lists alone. Loads the desk first if it
    /// isn't loaded.
    pub fn causes(&mut self, machine: &Id) -> Result<Vec<Cause>, Unavailable>
        requires serves { Serves S.Store D.Stands self.old }
        ensures all { ForLists S.Store D.Stands self.old self.new (λ L.
            IfOk result (λ found. found.items ≡ causes L.kept.history L.notes machine.now)) }
        // There is no cause exactly if the machine may work.
        ensures exact { ForLists S.Store D.Stands self.old self.new (λ L. IfOk result
            (λ found. found.items ≡ [] ↔ MayWork L.kept.history L.notes machine.now)) }
        ensures stands { ForLists S.Store D.Stands self.old self.new
            (StandsFor S.Store D.Stands self.new) }
        ensures survives { Survives (book_state S.Store self.old) (book_state S.Store self.new)
            (λ _. ⊥) }
        ensures serves { Serves S.Store D.Stands self.new }
    {
        self.ready()?;
        let Some(desk) = self.store.desk() else {
            return Err(Unavailable);
        };
        let Some(guard) = &self.guard else {
            return Err(Unavailable);
        };
        Ok(guard.causes(self.alloc, desk, machine)?)
    }
}
