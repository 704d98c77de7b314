//! A shared borrow of the desk.

ghost use Rattle.std.specs.Prelude.{◌≡◌, false, IfOk, OnErr};
ghost use Rattle.std.specs.Borrow.{sem};
ghost use Rattle.std.specs.Io.BufRead.{Rests};
ghost use Rattle.desk_types.specs.History.{basis};
ghost use Rattle.desk_types.specs.declared.rules.Rules.TheVariants.{Two};
ghost use Rattle.line_schema.specs.contracts.store.LineStore.{the_row};
ghost use Rattle.line_schema.specs.Frames.{LetsOthersBe, MakesDesk};
ghost use Rattle.line_schema.specs.Stands.{Kept, Stands, has_desk, state_of};

use crate::store::LineStore;
use crate::unavailable::Unavailable;
use sqlite::Alter;
use state_rows::KeepsRows;

impl<S: Alter, D: KeepsRows + Drop> LineStore<S, D> {
    /// Borrows the desk, and rebuilds it from the tables first if it isn't loaded.
    pub fn view(&mut self) -> Result<&D, Unavailable>
        requires stands { (L : Kept) × Stands S.Store D.Stands self.old L }
        // The desk is lent, so what it is after the loan is said of the moment when that ends.
        ensures* after_borrow { sem 𝓛 (Rests (the_row S.row D.row S.Store) self.entry (λ new.
            MakesDesk S.Store D.Stands self.old new
            × LetsOthersBe (state_of S.Store self.old) (state_of S.Store new)
            × ((L : Kept) → Stands S.Store D.Stands new L
            → IfOk result (λ desk. D.Stands desk.now (basis Two L.history))))) }
        ensures at_hand { OnErr result (has_desk self.old ≡ false) }
    {
        self.ready()?;
        match &self.working {
            Some(working) => Ok(&working.desk),
            None => Err(Unavailable),
        }
    }
}
