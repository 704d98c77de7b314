//! The state tables.

use std::fmt;

/// A state table. Variants are in the order of an audit.
#[derive(Clone, Copy, PartialEq, Eq)]
pub enum StateTable {
    Part,
    Alternate,
    SheetRow,
    Selected,
    Reel,
    Mount,
    Board,
    Placement,
    Found,
}

impl fmt::Display for StateTable {
    ghost use Rattle.std.specs.Prelude.{Some};
    ghost use Rattle.line_replay.specs.TableNames.{name_of};

    ghost output = { λ table. Some (name_of table) };

    fn fmt<W: fmt::Write>(&self, f: &mut fmt::Formatter<W>) -> fmt::Result {
        f.write_str(match self {
            StateTable::Part => "part",
            StateTable::Alternate => "alternate",
            StateTable::SheetRow => "sheet_row",
            StateTable::Selected => "selected",
            StateTable::Reel => "reel",
            StateTable::Mount => "mount",
            StateTable::Board => "board",
            StateTable::Placement => "placement",
            StateTable::Found => "found",
        })
    }
}
