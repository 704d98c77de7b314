//! Edits of the state tables.

use crate::id::Id;
use crate::list::Listing;
use crate::row::{BoardRow, MountRow, PlacementRow, ReelRow};
use crate::sheet::SheetRow;

/// Removes one row, or puts one and replaces the row with the same key.
#[derive(Drop)]
pub enum RowEdit {
    TakeSheetRow {
        product: Id,
        machine: Id,
        place: u64,
    },
    TakeMount {
        reel: Id,
    },
    PutPart {
        part: Id,
    },
    PutAlternate {
        part: Id,
        alternate: Id,
    },
    PutSheetRow {
        product: Id,
        machine: Id,
        place: u64,
        row: SheetRow,
    },
    PutSelected {
        machine: Id,
        product: Id,
    },
    PutReel(ReelRow),
    PutMount(MountRow),
    PutBoard(BoardRow),
    PutPlacement(PlacementRow),
    PutFound {
        reel: Id,
        /// At least 1.
        pieces: u64,
    },
}

/// Edits in order.
pub type RowEdits = Listing<RowEdit>;
