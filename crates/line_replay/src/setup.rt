//! The tables `part`, `alternate` and `selected`.

use crate::expected::ExpectedRow;
use crate::shown::shows_only;
use desk_types::Id;
use line_tables::values::text;
use sqlite::{Alter, Connection, Error};
use std::alloc::Global;

/// A part.
impl<'a> ExpectedRow for &'a Id {
    ghost use Rattle.line_tables.specs.StateRows.{has_text, part_columns};
    ghost use Rattle.line_replay.specs.declared.table.StateTable.TheVariants.{Part};

    type Key = Id;

    type Kept = ();

    ghost table = { Part };

    ghost has = { has_text 0 };

    ghost columns = { λ part _. part_columns part };

    ghost entry = { λ part. (part.now, tt) };

    fn is_alone<S: Alter>(self, _alloc: Global, conn: &mut Connection<S>) -> Result<bool, Error> {
        shows_only(
            conn,
            "SELECT part FROM part WHERE part = ?1",
            &[text(self)],
            &[text(self)],
        )
    }
}

/// A part, and one of its alternates.
impl<'a> ExpectedRow for &'a (Id, Id) {
    ghost use Rattle.line_tables.specs.StateRows.{alternate_columns, has_pair};
    ghost use Rattle.line_replay.specs.declared.table.StateTable.TheVariants.{Alternate};

    type Key = (Id, Id);

    type Kept = ();

    ghost table = { Alternate };

    ghost has = { has_pair };

    ghost columns = { λ pair _. alternate_columns pair };

    ghost entry = { λ pair. (pair.now, tt) };

    fn is_alone<S: Alter>(self, _alloc: Global, conn: &mut Connection<S>) -> Result<bool, Error> {
        let (part, alternate) = self;
        shows_only(
            conn,
            "SELECT part, alternate FROM alternate WHERE part = ?1 AND alternate = ?2",
            &[text(part), text(alternate)],
            &[text(part), text(alternate)],
        )
    }
}

/// A machine, with its selected product.
impl<'a> ExpectedRow for (&'a Id, &'a Id) {
    ghost use Rattle.line_tables.specs.StateRows.{has_text, selected_columns};
    ghost use Rattle.line_replay.specs.declared.table.StateTable.TheVariants.{Selected};

    type Key = Id;

    type Kept = Id;

    ghost table = { Selected };

    ghost has = { has_text 0 };

    ghost columns = { selected_columns };

    ghost entry = { λ e. (e.0.now, e.1.now) };

    fn is_alone<S: Alter>(self, _alloc: Global, conn: &mut Connection<S>) -> Result<bool, Error> {
        let (machine, product) = self;
        shows_only(
            conn,
            "SELECT machine, product FROM selected WHERE machine = ?1",
            &[text(machine)],
            &[text(machine), text(product)],
        )
    }
}
