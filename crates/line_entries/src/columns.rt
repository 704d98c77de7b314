//! The columns of an entry.

ghost use Rattle.std.specs.Prelude.{◌≡◌, Some, None, false, IfOk, string_bytes};
ghost use Rattle.line_book.specs.Rows.{IsColumn, is_refusal, kind_text};
ghost use Rattle.line_entries.specs.Columns.{columns_of, columns_with, kind_of, of_number, stock_columns};

use desk_types::Id;
use line_book::{Matter, Stock};
use std::alloc::{AllocError, Global};

/// The names in the columns of a row; none is an empty column.
#[derive(Clone, Copy, PartialEq, Eq)]
pub struct Columns {
    pub machine: Option<Id>,
    pub slot: Option<Id>,
    pub board: Option<Id>,
    pub reel: Option<Id>,
    pub word: Option<Id>,
}

fn columns_with(
    machine: Option<Id>,
    slot: Option<Id>,
    board: Option<Id>,
    reel: Option<Id>,
    word: Option<Id>,
) -> Columns
    ensures { result ≡ columns_with machine slot board reel word }
{
    Columns {
        machine,
        slot,
        board,
        reel,
        word,
    }
}

/// Returns the names of the entry, each in its column.
pub fn columns_of(matter: &Matter) -> Columns
    ensures { result ≡ columns_of matter.now }
{
    match *matter {
        Matter::Handling {
            machine,
            slot,
            reel,
            word,
        } => columns_with(Some(machine), Some(slot), None, reel, Some(word)),
        Matter::Stray {
            machine,
            slot,
            reel,
            word,
        } => columns_with(Some(machine), Some(slot), None, reel, Some(word)),
        Matter::Work {
            machine,
            slot,
            board,
            word,
        } => columns_with(Some(machine), slot, board, None, Some(word)),
        _ => other_columns(matter),
    }
}

fn other_columns(matter: &Matter) -> Columns
    ensures { is_refusal matter.now ≡ false → result ≡ columns_of matter.now }
{
    match *matter {
        Matter::Unread { word } => columns_with(None, None, None, None, Some(word)),
        Matter::Differs {
            machine,
            slot,
            board,
            reel,
            desk_reel,
        } => piece_columns(machine, slot, board, reel, desk_reel),
        Matter::Boundary {
            machine,
            slot,
            board,
            reel,
            desk_reel,
        } => piece_columns(machine, slot, board, reel, desk_reel),
        Matter::Uncompared { machine, board } => {
            columns_with(Some(machine), None, Some(board), None, None)
        }
        Matter::Attribute { reel, name } => columns_with(None, None, None, Some(reel), Some(name)),
        Matter::Hold { stock } => stock_columns(stock),
        Matter::Release { stock } => stock_columns(stock),
        _ => columns_with(None, None, None, None, None),
    }
}

fn piece_columns(machine: Id, slot: Id, board: Id, reel: Id, desk_reel: Id) -> Columns
    ensures { result
        ≡ columns_with (Some machine) (Some slot) (Some board) (Some reel) (Some desk_reel) }
{
    Columns {
        machine: Some(machine),
        slot: Some(slot),
        board: Some(board),
        reel: Some(reel),
        word: Some(desk_reel),
    }
}

fn stock_columns(stock: Stock) -> Columns
    ensures { result ≡ stock_columns stock }
{
    match stock {
        Stock::Reel(reel) => columns_with(None, None, None, Some(reel), None),
        Stock::Lot(lot) => columns_with(None, None, None, None, Some(lot)),
    }
}

/// Returns the text of the entry's kind.
pub fn kind_text(matter: &Matter) -> &'static str
    ensures { result.now ≡ kind_text (kind_of matter.now) }
{
    match matter {
        Matter::Handling { .. } => "handling",
        Matter::Stray { .. } => "stray",
        Matter::Work { .. } => "work",
        Matter::Unread { .. } => "unread",
        Matter::Differs { .. } => "differs",
        Matter::Boundary { .. } => "boundary",
        Matter::Uncompared { .. } => "uncompared",
        Matter::Attribute { .. } => "attribute",
        Matter::Decision { .. } => "decision",
        Matter::Hold { .. } => "hold",
        Matter::Release { .. } => "release",
        Matter::Made => "made",
        Matter::Begun => "begun",
        Matter::Restored => "restored",
    }
}

/// Returns the number of the entry that a decision is about, or of the one that the entry carries on.
pub fn of_number(carries: u32, matter: &Matter) -> u32
    ensures { result ≡ of_number carries matter.now }
{
    match matter {
        Matter::Decision { about } => *about,
        _ => carries,
    }
}

/// Returns the text of a column.
pub fn column(alloc: Global, name: &Option<Id>) -> Result<String, AllocError>
    ensures { IfOk result (λ text. IsColumn (string_bytes text) name.now) }
{
    match name {
        Some(name) => id_column(alloc, name),
        None => Ok(String::new(alloc)),
    }
}

fn id_column(alloc: Global, name: &Id) -> Result<String, AllocError>
    ensures { IfOk result (λ text. IsColumn (string_bytes text) (Some name.now)) }
{
    let _valid = name.as_bytes();
    String::from_str(alloc, name.as_str())
}
