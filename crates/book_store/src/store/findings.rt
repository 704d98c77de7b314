//! The rows of the findings in an accepted message.

ghost use Rattle.std.specs.Prelude.{◌≡◌, IfOk};
ghost use Rattle.desk_types.specs.Tape.{tape_of};
ghost use Rattle.line_members.specs.Accepted.{accepted};
ghost use Rattle.book_store.specs.Findings.{AreRowsOf, place_after};
ghost use Rattle.book_store.specs.Lists.{Lists, StandsFor};
ghost use Rattle.book_store.specs.Noted.{place_in, sender_of};

use crate::store::BookStore;
use desk_types::{Change, Stamped};
use line_book::BookRow;
use line_entries::{Place, Sender, plain_note, row_of};
use line_members::{Finding, accepted};
use line_schema::Unavailable;
use sqlite::Alter;
use state_rows::KeepsRows;
use std::alloc::Global;

impl<S: Alter, D: KeepsRows + Drop> BookStore<S, D> {
    /// Returns the rows of the findings in a message whose command would make this change, as the next entries.
    pub fn finding_rows(&self, told: &[u8], change: &Change) -> Result<Vec<BookRow>, Unavailable>
        ensures { (L : Lists) → StandsFor S.Store D.Stands self.now L → IfOk result (λ rows.
            AreRowsOf (place_in L) (accepted told.now (tape_of L.kept.history) change.now)
            (sender_of change.now.stamped) rows.items) }
    {
        let Some(guard) = &self.guard else {
            return Err(Unavailable);
        };
        let found = accepted(self.alloc, told, guard, change)?;
        let place = self.place()?;
        let sender = sender_of(change.stamped());
        rows_of(self.alloc, place, &sender, found.as_slice())
    }
}

fn rows_of(
    alloc: Global,
    place: Place,
    sender: &Sender,
    found: &[Finding],
) -> Result<Vec<BookRow>, Unavailable>
    ensures { IfOk result (λ rows. AreRowsOf place found.now sender.now rows.items) }
{
    let mut rows = Vec::new(alloc);
    let mut next = place;
    for finding in found {
        let note = plain_note(alloc, next, finding.matter);
        let row = row_of(alloc, &note, sender, finding.told.as_slice())?;
        let Ok(()) = rows.push(row) else {
            return Err(Unavailable);
        };
        next = place_after(next)?;
    }
    Ok(rows)
}

fn place_after(place: Place) -> Result<Place, Unavailable>
    ensures { IfOk result (λ next. next ≡ place_after place) }
{
    match place.number.checked_add(1) {
        Some(number) => Ok(Place {
            number,
            after: place.after,
            carries: place.carries,
        }),
        None => Err(Unavailable),
    }
}

/// Returns the sender of a command.
pub fn sender_of(stamped: &Stamped) -> Sender
    ensures { result ≡ sender_of stamped.now }
{
    Sender {
        source: Some(stamped.source),
        uid: Some(stamped.uid),
    }
}
