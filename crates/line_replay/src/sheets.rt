//! The table `sheet_row`.

use crate::expected::ExpectedRow;
use crate::shown::shows_only;
use desk_types::{Id, SheetRow};
use line_tables::values::{designators_text, int, text};
use sqlite::types::ValueRef;
use sqlite::{Alter, Connection, Error};
use std::alloc::Global;

/// A row of a sheet, with its product, its machine and its place from 1.
impl<'a> ExpectedRow for (&'a (Id, Id, u64), &'a SheetRow) {
    ghost use Rattle.line_tables.specs.StateRows.{has_sheet_place, sheet_columns};
    ghost use Rattle.line_replay.specs.declared.table.StateTable.TheVariants.{SheetRow as SheetRows};

    type Key = (Id, Id, u64);

    type Kept = SheetRow;

    ghost table = { SheetRows };

    ghost has = { has_sheet_place };

    ghost columns = { sheet_columns };

    ghost entry = { λ e. (e.0.now, e.1.now) };

    fn is_alone<S: Alter>(self, alloc: Global, conn: &mut Connection<S>) -> Result<bool, Error> {
        let (at, row) = self;
        let designators = designators_text(alloc, row.designators.as_slice())?;
        shows_only(
            conn,
            "SELECT product, machine, place, slot, part, designators FROM sheet_row WHERE product = ?1 AND machine = ?2 AND place = ?3",
            &[text(&at.0), text(&at.1), int(at.2)?],
            &[
                text(&at.0),
                text(&at.1),
                int(at.2)?,
                text(&row.slot),
                text(&row.part),
                ValueRef::Text(designators.as_slice()),
            ],
        )
    }
}
