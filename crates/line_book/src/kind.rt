//! The kinds of entries, and the columns that each has.

ghost use Rattle.std.specs.Prelude.{◌≡◌, Option, IfSome, IfNone, find, option_map};
ghost use Rattle.desk_types.specs.Id.{Name, same};
ghost use Rattle.line_book.specs.Rows.{HasNames, IsColumn, kind_in, kind_text, matter_of};

use crate::note::{Matter, Stock};
use crate::row::BookRow;
use desk_types::Id;

/// The kind of an entry, by its text in the column `kind`.
#[derive(Clone, Copy, PartialEq, Eq)]
pub enum Kind {
    Handling,
    Stray,
    Work,
    Unread,
    Differs,
    Boundary,
    Uncompared,
    Attribute,
    Decision,
    Hold,
    Release,
    Made,
    Begun,
    Restored,
}

const KINDS: [Kind; 14] = [
    Kind::Handling,
    Kind::Stray,
    Kind::Work,
    Kind::Unread,
    Kind::Differs,
    Kind::Boundary,
    Kind::Uncompared,
    Kind::Attribute,
    Kind::Decision,
    Kind::Hold,
    Kind::Release,
    Kind::Made,
    Kind::Begun,
    Kind::Restored,
];

impl Kind {
    /// Returns the kind with the text.
    pub fn read(text: &str) -> Option<Kind>
        ensures { result ≡ kind_in text.now }
    {
        first_named(&KINDS, text).copied()
    }

    /// Returns the kind's text.
    pub fn as_str(self) -> &'static str
        ensures { result.now ≡ kind_text self }
    {
        match self {
            Kind::Handling => "handling",
            Kind::Stray => "stray",
            Kind::Work => "work",
            Kind::Unread => "unread",
            Kind::Differs => "differs",
            Kind::Boundary => "boundary",
            Kind::Uncompared => "uncompared",
            Kind::Attribute => "attribute",
            Kind::Decision => "decision",
            Kind::Hold => "hold",
            Kind::Release => "release",
            Kind::Made => "made",
            Kind::Begun => "begun",
            Kind::Restored => "restored",
        }
    }
}

fn first_named<'a>(kinds: &'a [Kind], text: &str) -> Option<&'a Kind>
    ensures { option_map (λ kind. kind.now) result
        ≡ find (λ kind. same (kind_text kind) text.now) kinds.now }
{
    kinds
        .iter()
        .find(|kind| kind.as_str().as_bytes() == text.as_bytes())
}

/// The names in a row's columns; an empty column has none.
#[derive(Clone, Copy, PartialEq, Eq)]
pub struct Names {
    pub machine: Option<Id>,
    pub slot: Option<Id>,
    pub board: Option<Id>,
    pub reel: Option<Id>,
    pub word: Option<Id>,
}

impl Names {
    /// Returns the names of the row, or none if a column is neither empty nor a name.
    pub fn read(row: &BookRow) -> Option<Names>
        ensures { HasNames row.now result }
    {
        Some(Names {
            machine: column(&row.machine)?,
            slot: column(&row.slot)?,
            board: column(&row.board)?,
            reel: column(&row.reel)?,
            word: column(&row.word)?,
        })
    }
}

fn column(text: &str) -> Option<Option<Id>>
    ensures found { IfSome result (IsColumn text.now) }
    ensures none { IfNone result ((name : Option Name) → IsColumn text.now name → ⊥) }
{
    if text.is_empty() {
        return Some(None);
    }
    match Id::read(text.as_bytes()) {
        Some(name) => Some(Some(name)),
        None => None,
    }
}

/// Returns what an entry of the kind says with these names, and about the entry with the number `of`.
pub fn matter_of(kind: Kind, names: &Names, of: u32) -> Option<Matter>
    ensures { result ≡ matter_of kind names.now of }
{
    match (
        kind,
        names.machine,
        names.slot,
        names.board,
        names.reel,
        names.word,
    ) {
        (Kind::Handling, Some(machine), Some(slot), None, reel, Some(word)) => {
            Some(Matter::Handling {
                machine,
                slot,
                reel,
                word,
            })
        }
        (Kind::Stray, Some(machine), Some(slot), None, reel, Some(word)) => Some(Matter::Stray {
            machine,
            slot,
            reel,
            word,
        }),
        (Kind::Work, Some(machine), slot, board, None, Some(word)) => Some(Matter::Work {
            machine,
            slot,
            board,
            word,
        }),
        (Kind::Unread, None, None, None, None, Some(word)) => Some(Matter::Unread { word }),
        (Kind::Differs, Some(machine), Some(slot), Some(board), Some(reel), Some(desk_reel)) => {
            Some(Matter::Differs {
                machine,
                slot,
                board,
                reel,
                desk_reel,
            })
        }
        (Kind::Boundary, Some(machine), Some(slot), Some(board), Some(reel), Some(desk_reel)) => {
            Some(Matter::Boundary {
                machine,
                slot,
                board,
                reel,
                desk_reel,
            })
        }
        (Kind::Uncompared, Some(machine), None, Some(board), None, None) => {
            Some(Matter::Uncompared { machine, board })
        }
        (Kind::Attribute, None, None, None, Some(reel), Some(name)) => {
            Some(Matter::Attribute { reel, name })
        }
        (Kind::Decision, None, None, None, None, None) => Some(Matter::Decision { about: of }),
        (Kind::Hold, None, None, None, Some(reel), None) => Some(Matter::Hold {
            stock: Stock::Reel(reel),
        }),
        (Kind::Hold, None, None, None, None, Some(lot)) => Some(Matter::Hold {
            stock: Stock::Lot(lot),
        }),
        (Kind::Release, None, None, None, Some(reel), None) => Some(Matter::Release {
            stock: Stock::Reel(reel),
        }),
        (Kind::Release, None, None, None, None, Some(lot)) => Some(Matter::Release {
            stock: Stock::Lot(lot),
        }),
        (Kind::Made, None, None, None, None, None) => Some(Matter::Made),
        (Kind::Begun, None, None, None, None, None) => Some(Matter::Begun),
        (Kind::Restored, None, None, None, None, None) => Some(Matter::Restored),
        _ => None,
    }
}
