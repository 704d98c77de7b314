//! A store answers the commands of a line.

use crate::store::LineStore;
use desk_answers::{Answer, Owner};
use desk_types::Stamped;
use sqlite::Alter;
use state_rows::KeepsRows;

/// The store represents a history by rules Two, with its own tables. It is trusted as long as the
/// disk has not lied.
impl<S: Alter, D: KeepsRows + Drop> Owner for LineStore<S, D> {
    ghost use Rattle.std.specs.Prelude.{◌≡◌, true};
    ghost use Rattle.sqlite.specs.State.{HasCleanDisk};
    ghost use Rattle.desk_types.specs.declared.rules.Rules.TheVariants.{Two};
    ghost use Rattle.line_schema.specs.Stands.{Kept, Stands as StandsFor, state_of};

    ghost Stands = { λ store L. (L.rules ≡ Two)
        × StandsFor S.Store D.Stands store
        (record { greatest = L.greatest; history = L.history; own = true }) };

    ghost Ready = { λ store. (L : Kept) × StandsFor S.Store D.Stands store L };

    ghost Trusts = { λ store. HasCleanDisk (state_of S.Store store) };

    fn command(&mut self, stamped: &Stamped) -> Answer {
        LineStore::command(self, stamped)
    }

    fn is_lawful(&self) {}
}
