//! The book as CSV.

ghost use Rattle.std.specs.Prelude.{◌≡◌, List, ℕ, [], ◌++◌, filter, if◌then◌else◌, map, IfOk, OnOk};
ghost use Rattle.desk_types.specs.History.{History};
ghost use Rattle.line_book.specs.Book.{Book, is_open};
ghost use Rattle.line_book.specs.Undecided.{undecided};
ghost use Rattle.line_answers.specs.Book.{book_header, book_text, entry_fields, has_number, is_wanted, standing, text_with, written_row};
ghost use Rattle.line_answers.specs.Csv.{record_text, HasWritten};

use crate::csv_text::{TextWriter, text_of, text_writer, write_fields};
use desk_types::Text;
use itoa::Buffer;
use line_book::{BookRow, Note};
use std::alloc::{AllocError, Global};

/// Which entries are asked for.
#[derive(Clone, Copy, PartialEq, Eq)]
pub enum Wanted {
    /// Those with a greater number.
    After(u32),
    /// Those that wait for a decision.
    Undecided,
}

/// Returns the rows that are asked for as CSV. `open_notes` and `waiting` are the open and the undecided
/// entries of the book.
pub fn book_text(
    alloc: Global,
    rows: &[BookRow],
    open_notes: &[Note],
    waiting: &[Note],
    wanted: Wanted,
) -> Result<Text, AllocError>
    ensures { (H : History) (B : Book) → open_notes.now ≡ filter (is_open H B) B
        → waiting.now ≡ undecided B
        → IfOk result (λ text. text ≡ book_text H B wanted (map written_row rows.now)) }
{
    text_with(alloc, rows, open_notes, waiting, wanted)
}

fn text_with(
    alloc: Global,
    rows: &[BookRow],
    open_notes: &[Note],
    waiting: &[Note],
    wanted: Wanted,
) -> Result<Text, AllocError>
    ensures { IfOk result
        (λ text. text ≡ text_with open_notes.now waiting.now wanted (map written_row rows.now)) }
{
    let mut writer = text_writer(alloc);
    write_header(&mut writer)?;
    for row in rows {
        let state = standing(open_notes, waiting, row.number);
        write_if(&mut writer, is_wanted(waiting, wanted, row), state, row)?;
    }
    text_of(writer)
}

fn write_header(writer: &mut TextWriter) -> Result<(), AllocError>
    ensures { (text : List ℕ) → HasWritten writer.old text
        → OnOk result (HasWritten writer.new (text ++ record_text book_header)) }
{
    write_fields(
        writer,
        &[
            b"n", b"after", b"kind", b"source", b"uid", b"machine", b"slot", b"board", b"reel",
            b"word", b"of", b"told", b"state",
        ],
    )
}

fn write_if(
    writer: &mut TextWriter,
    wanted: bool,
    state: &str,
    row: &BookRow,
) -> Result<(), AllocError>
    ensures { (text : List ℕ) → HasWritten writer.old text
        → OnOk result (HasWritten writer.new (text ++ (if wanted
        then record_text (entry_fields state.now (written_row row.now)) else []))) }
{
    if !wanted {
        return Ok(());
    }
    write_row(writer, state, row)
}

fn write_row(writer: &mut TextWriter, state: &str, row: &BookRow) -> Result<(), AllocError>
    ensures { (text : List ℕ) → HasWritten writer.old text
        → OnOk result (HasWritten writer.new
        (text ++ record_text (entry_fields state.now (written_row row.now)))) }
{
    write_fields(
        writer,
        &[
            Buffer::new().format(row.number).as_bytes(),
            Buffer::new().format(row.after).as_bytes(),
            row.kind.as_bytes(),
            row.source.as_bytes(),
            row.uid.as_bytes(),
            row.machine.as_bytes(),
            row.slot.as_bytes(),
            row.board.as_bytes(),
            row.reel.as_bytes(),
            row.word.as_bytes(),
            Buffer::new().format(row.of).as_bytes(),
            row.told.as_bytes(),
            state.as_bytes(),
        ],
    )
}

fn standing(open_notes: &[Note], waiting: &[Note], number: u32) -> &'static str
    ensures { result.now ≡ standing open_notes.now waiting.now number }
{
    if has_number(open_notes, number) {
        "open"
    } else if has_number(waiting, number) {
        "undecided"
    } else {
        ""
    }
}

fn is_wanted(waiting: &[Note], wanted: Wanted, row: &BookRow) -> bool
    ensures { result ≡ is_wanted waiting.now wanted (written_row row.now) }
{
    match wanted {
        Wanted::After(number) => row.number > number,
        Wanted::Undecided => has_number(waiting, row.number),
    }
}

fn has_number(notes: &[Note], number: u32) -> bool
    ensures { result ≡ has_number notes.now number }
{
    notes.iter().any(|n| n.number == number)
}
