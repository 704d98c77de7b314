//! The columns of rows as values, for code that writes a row and code that compares one.

ghost use Rattle.std.specs.Prelude.{◌≡◌, ◌≤◌, ◌⊎◌, ◌^◌, IfOk, IfErr};
ghost use Rattle.line_tables.specs.StateRows.{board_columns, mount_columns, placement_columns, reel_columns, values_of};

use crate::values::{designator, int, level, since, text, text_or_empty, yes_or_no};
use desk_types::{BoardRow, MountRow, PlacementRow, ReelRow};
use sqlite::Error;
use sqlite::types::ValueRef;

/// A row's values. This is a struct since the borrow checker has no `Result` of an array that borrows.
#[derive(Clone, Copy)]
pub struct Columns<'a, const N: usize> {
    pub values: [ValueRef<'a>; N],
}

/// The values of a reel.
pub fn reel_values(row: &ReelRow) -> Result<Columns<'_, 12>, Error>
    ensures ok { IfOk result (λ columns. values_of columns.values ≡ reel_columns row.now) }
    // SQL has no number from 2^63 on; nothing else is an error here.
    ensures err { IfErr result
        (λ _. (2 ^ 63 ≤ row.now.label) ⊎ (2 ^ 63 ≤ row.now.received) ⊎ (2 ^ 63 ≤ row.now.placed)
        ⊎ (2 ^ 63 ≤ row.now.scrapped) ⊎ (2 ^ 63 ≤ row.now.remaining) ⊎ (2 ^ 63 ≤ row.now.used)) }
{
    let values = [
        text(&row.reel),
        text(&row.part),
        text(&row.lot),
        level(row.level),
        int(row.label)?,
        int(row.received)?,
        int(row.placed)?,
        int(row.scrapped)?,
        int(row.remaining)?,
        int(row.used)?,
        since(row.open_since),
        yes_or_no(row.baked),
    ];
    Ok(Columns { values })
}

/// The values of a mounted reel.
pub fn mount_values(row: &MountRow) -> Result<Columns<'_, 4>, Error>
    ensures ok { IfOk result (λ columns. values_of columns.values ≡ mount_columns row.now) }
    ensures err { IfErr result (λ _. 2 ^ 63 ≤ row.now.since) }
{
    let values = [
        int(row.since)?,
        text(&row.machine),
        text(&row.slot),
        text(&row.reel),
    ];
    Ok(Columns { values })
}

/// The values of a board.
pub fn board_values(row: &BoardRow) -> [ValueRef<'_>; 3]
    ensures { values_of result ≡ board_columns row.now }
{
    [
        text(&row.board),
        text(&row.product),
        text_or_empty(&row.machine),
    ]
}

/// The values of a placed piece.
pub fn placement_values(row: &PlacementRow) -> Result<Columns<'_, 8>, Error>
    ensures ok { IfOk result (λ columns. values_of columns.values ≡ placement_columns row.now) }
    ensures err { IfErr result (λ _. (2 ^ 63 ≤ row.now.number) ⊎ (2 ^ 63 ≤ row.now.place)) }
{
    let values = [
        int(row.number)?,
        int(row.place)?,
        text(&row.board),
        designator(&row.designator),
        text(&row.machine),
        text(&row.slot),
        text(&row.reel),
        yes_or_no(row.overdue),
    ];
    Ok(Columns { values })
}
