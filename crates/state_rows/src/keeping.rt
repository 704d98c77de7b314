//! A desk whose state is rows of the state tables.

use crate::set::RowSet;
use desk_types::{Change, Desk, RowEdit};
use std::alloc::AllocError;

/// A desk that keeps the rows of its state tables. It adds no rows of `placement`.
///
/// Whoever owns a desk and a database makes the edits of a command once, commits them, and then
/// passes them to `settle_edits`. After `Desk::settle`, which gets no number, rows of `mount` may have
/// other numbers than in the database.
pub trait KeepsRows: Desk {
    ghost use Rattle.std.specs.Prelude.{◌≡◌, OnOk};
    ghost use Rattle.desk_types.specs.History.{Basis, basis_after, accept};
    ghost use Rattle.desk_types.specs.Desk.{HasRoom, IsChange};
    ghost use Rattle.desk_types.specs.Tables.{tables_of};
    ghost use Rattle.desk_types.specs.Edits.{with_edits};
    ghost use Rattle.state_rows.specs.Kept.{KeptRows, tables_in, but_placements, unnumbered};

    /// The rows that the desk keeps.
    ghost kept_rows: { Self → KeptRows };

    /// Returns the rows that the desk keeps. Takes no memory.
    fn rows(&self) -> &RowSet
        ensures kept { result.now ≡ kept_rows self.now }
        // Without the numbers of mounts: a desk in memory settles under no number.
        ensures same { (B : Basis) → Self.Stands self.now B
            → unnumbered (tables_in result.now) ≡ unnumbered (tables_of B.history) };

    /// Accepts a judged change by its edits, as `rows_of` makes them under any number. After an `Err`
    /// nothing is known of the desk: drop it.
    fn settle_edits(&mut self, change: Change, edits: &[RowEdit]) -> Result<(), AllocError>
        requires room { HasRoom Self.Stands self.old 1 }
        // As `settle` of `Desk` requires; the edits alone don't tell the command.
        requires judged { (B : Basis) → Self.Stands self.old B
            → IsChange B.rules B.history change.stamped change }
        // The edits were made for the file; this is what makes them right for the memory too.
        requires lead { (B : Basis) → Self.Stands self.old B
            → unnumbered (with_edits edits.now (tables_of B.history))
            ≡ unnumbered (tables_of (accept B.history change.stamped)) }
        ensures stands { (B : Basis) → Self.Stands self.old B
            → OnOk result (Self.Stands self.new (basis_after B change.stamped)) }
        // Placements stay in the file: the desk's memory has no row for them.
        ensures rows { OnOk result (tables_in (kept_rows self.new)
            ≡ but_placements (with_edits edits.now (tables_in (kept_rows self.old)))
            (tables_in (kept_rows self.old))) };
}
