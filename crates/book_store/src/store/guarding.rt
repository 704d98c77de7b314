//! The guard, made again after memory was refused for it.

ghost use Rattle.std.specs.Prelude.{IfOk, IsTrue, OnOk, is_some};
ghost use Rattle.sqlite.specs.State.{HasCleanDisk, Survives};
ghost use Rattle.line_schema.specs.Frames.{ReadsStore};
ghost use Rattle.line_schema.specs.Stands.{Kept, Stands, state_of};
ghost use Rattle.book_store.specs.Lists.{ForLists, Serves, StandsFor, book_state};
ghost use Rattle.book_store.specs.Restored.{GuardsFile};

use crate::restoring::{Restored, restore};
use crate::store::BookStore;
use line_book::Guard;
use line_schema::{LineStore, Unavailable};
use sqlite::Alter;
use state_rows::KeepsRows;
use std::alloc::Global;

impl<S: Alter, D: KeepsRows + Drop> BookStore<S, D> {
    /// Makes the guard again from the file if it isn't there. Both lists stay.
    pub fn make_guard(&mut self) -> Result<(), Unavailable>
        requires serves { Serves S.Store D.Stands self.old }
        ensures guarded { OnOk result (IsTrue (is_some self.new.guard)) }
        ensures stands { ForLists S.Store D.Stands self.old self.new
            (StandsFor S.Store D.Stands self.new) }
        ensures survives { Survives (book_state S.Store self.old) (book_state S.Store self.new)
            (λ _. ⊥) }
        ensures serves { Serves S.Store D.Stands self.new }
    {
        if self.guard.is_some() {
            return Ok(());
        }
        let guard = guard_of(self.alloc, &mut self.store)?;
        self.guard = Some(guard);
        Ok(())
    }
}

/// Returns the guard of both lists of a file. Nothing changes in the file.
fn guard_of<S: Alter, D: KeepsRows + Drop>(
    alloc: Global,
    store: &mut LineStore<S, D>,
) -> Result<Guard, Unavailable>
    ensures ok { (L : Kept) → Stands S.Store D.Stands store.old L
        → IfOk result (GuardsFile L (HasCleanDisk (state_of S.Store store.new))
        (state_of S.Store store.old)) }
    ensures reads { ReadsStore S.Store D.Stands store.old store.new }
{
    match restore(alloc, store) {
        Ok(
            Restored {
                guard,
                reading: _reading,
            },
        ) => Ok(guard),
        Err(_) => Err(Unavailable),
    }
}
