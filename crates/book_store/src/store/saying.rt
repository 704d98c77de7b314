//! What somebody decides, holds or releases.

ghost use Rattle.std.specs.Prelude.{◌≡◌};
ghost use Rattle.sqlite.specs.State.{HasCleanDisk};
ghost use Rattle.book_store.specs.Ended.{Ends};
ghost use Rattle.book_store.specs.Lists.{ForLists, Serves, book_state};
ghost use Rattle.book_store.specs.Said.{Says, may_say};

use crate::store::BookStore;
use line_book::Matter;
use line_entries::{Sender, plain_note};
use line_schema::Unavailable;
use sqlite::Alter;
use state_rows::KeepsRows;

impl<S: Alter, D: KeepsRows + Drop> BookStore<S, D> {
    /// Writes a decision, a hold or a release as the next entry, and commits it before it returns the
    /// entry's number. `told` is what was said. Anything else is Unavailable, and so is a decision about
    /// an entry that isn't there. The history stays.
    pub fn say(&mut self, matter: Matter, told: &[u8]) -> Result<u32, Unavailable>
        requires serves { Serves S.Store D.Stands self.old }
        ensures said { ForLists S.Store D.Stands self.old self.new (λ L.
            Ends S.Store D.Stands self.old self.new L result (Says L matter told.now)) }
        // A disk that has lied is never honest again.
        ensures clean { HasCleanDisk (book_state S.Store self.new)
            → HasCleanDisk (book_state S.Store self.old) }
        ensures serves { Serves S.Store D.Stands self.new }
    {
        let place = self.place()?;
        if !may_say(&matter, place.number) {
            return Err(Unavailable);
        }
        let entry = plain_note(self.alloc, place, matter);
        let sender = Sender {
            source: None,
            uid: None,
        };
        self.write(&entry, &sender, told)?;
        Ok(place.number)
    }
}

/// Returns whether somebody may say this in the entry with the number.
fn may_say(matter: &Matter, number: u32) -> bool
    ensures { result ≡ may_say matter.now number }
{
    match matter {
        Matter::Decision { about } => 0 < *about && *about < number,
        Matter::Hold { .. } | Matter::Release { .. } => true,
        _ => false,
    }
}
