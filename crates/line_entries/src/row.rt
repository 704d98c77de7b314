//! The row of a new entry.

ghost use Rattle.std.specs.Prelude.{◌≡◌, Option, Ok, IfOk};
ghost use Rattle.line_book.specs.declared.kind.Names.{Names};
ghost use Rattle.line_book.specs.declared.reading.Reading.{Reading};
ghost use Rattle.line_book.specs.Rows.{HasNames, entry_in};
ghost use Rattle.line_entries.specs.Rows.{IsNext, IsRowOf, IsToldBy};

use crate::columns::{column, columns_of, kind_text, of_number};
use crate::told::told_text;
use desk_types::Id;
use line_book::{BookRow, Note};
use std::alloc::{AllocError, Global};

/// The source and the UniqueID of the message that an entry is from, if they can be read.
#[derive(Clone, Copy, PartialEq, Eq)]
pub struct Sender {
    pub source: Option<Id>,
    pub uid: Option<Id>,
}

/// Returns the row of the entry. `told` is the message as it came, or what somebody said.
pub fn row_of(
    alloc: Global,
    note: &Note,
    sender: &Sender,
    told: &[u8],
) -> Result<BookRow, AllocError>
    ensures row { IfOk result (IsRowOf note.now sender.now told.now) }
    // What is written can be read again: `Reading::next` returns this very entry.
    ensures back { IfOk result (λ row. (before : Reading) (named : Option Names)
        → IsNext before note.now → IsToldBy told.now note.now → HasNames row named
        → entry_in before row named ≡ Ok note.now) }
{
    write_row(alloc, note, sender, told)
}

fn write_row(
    alloc: Global,
    note: &Note,
    sender: &Sender,
    told: &[u8],
) -> Result<BookRow, AllocError>
    ensures { IfOk result (IsRowOf note.now sender.now told.now) }
{
    let columns = columns_of(&note.matter);
    Ok(BookRow {
        number: note.number,
        after: note.after,
        kind: String::from_str(alloc, kind_text(&note.matter))?,
        source: column(alloc, &sender.source)?,
        uid: column(alloc, &sender.uid)?,
        machine: column(alloc, &columns.machine)?,
        slot: column(alloc, &columns.slot)?,
        board: column(alloc, &columns.board)?,
        reel: column(alloc, &columns.reel)?,
        word: column(alloc, &columns.word)?,
        of: of_number(note.carries, &note.matter),
        told: told_text(alloc, told)?,
    })
}
