//! New entries.

ghost use Rattle.std.specs.Prelude.{◌≡◌, [], false, true, Ok, List, ℕ, IfOk};
ghost use Rattle.desk_types.specs.declared.command.Stamped.{Stamped as Request};
ghost use Rattle.desk_types.specs.Id.{Name};
ghost use Rattle.desk_types.specs.StoredText.{stored_text};
ghost use Rattle.cfx_profile.specs.declared.message.Said.TheVariants.{Asked};
ghost use Rattle.cfx_profile.specs.Message.{said_in};
ghost use Rattle.line_book.specs.Rows.{is_refusal};
ghost use Rattle.line_book.specs.declared.note.Matter.TheVariants.{Unread};
ghost use Rattle.line_entries.specs.Rows.{IsToldBy, is_about_message, note_at};
ghost use Rattle.line_entries.specs.Told.{told_text};

use crate::told::told_text;
use desk_types::{Command, Listing, Text};
use line_book::{Matter, Note};
use std::alloc::{AllocError, Global};

/// Where an entry is written.
#[derive(Clone, Copy, PartialEq, Eq)]
pub struct Place {
    /// The number of entries before it, plus 1.
    pub number: u32,
    /// The number of accepted commands before it.
    pub after: u32,
    /// The number of the entry of a sealed file that it carries on, or 0.
    pub carries: u32,
}

/// Returns the entry of a refused command.
pub fn refusal_note(
    alloc: Global,
    place: Place,
    matter: Matter,
    command: &Command,
) -> Result<Note, AllocError>
    ensures note { IfOk result (λ note. note ≡ note_at place matter (stored_text command.now)) }
    // The message of the command tells it.
    ensures told { is_refusal matter ≡ true → (told : List ℕ) (s : Request)
        → said_in told ≡ Ok (Asked s) → s.command ≡ command.now → IfOk result (IsToldBy told) }
{
    Ok(note_at(place, matter, command.write_text(alloc)?))
}

/// Returns the entry of a faulty message.
pub fn fault_note(
    alloc: Global,
    place: Place,
    matter: Matter,
    told: &[u8],
) -> Result<Note, AllocError>
    ensures note { IfOk result (λ note. note ≡ note_at place matter (told_text told.now)) }
    // The message tells it.
    ensures told { (word : Name) → matter ≡ Unread word → IfOk result (IsToldBy told.now) }
{
    let text = told_text(alloc, told)?.into_bytes();
    Ok(note_at(place, matter, Listing::new(text)))
}

/// Returns an entry that is about no refused or faulty message.
pub fn plain_note(alloc: Global, place: Place, matter: Matter) -> Note
    ensures note { result ≡ note_at place matter [] }
    // Whatever somebody said with it tells it.
    ensures told { is_about_message matter ≡ false → (told : List ℕ) → IsToldBy told result }
{
    note_at(place, matter, Listing::new(Vec::new(alloc)))
}

fn note_at(place: Place, matter: Matter, text: Text) -> Note
    ensures { result ≡ note_at place matter text }
{
    Note {
        number: place.number,
        after: place.after,
        carries: place.carries,
        matter,
        text,
    }
}
