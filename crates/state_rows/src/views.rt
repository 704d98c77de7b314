//! The views that the edits of a command need.

use desk_types::{Desk, Id, Mounts, ReelRow, ReelView, SheetRows};
use std::alloc::AllocError;

/// Views of the accepted commands, enough to make the edits of the next one.
///
/// A `Desk` has them, through `DeskViews`. A desk that makes edits in its own `settle` implements this
/// trait for itself, because `settle` may not call what needs a `Desk`.
pub trait Views {
    ghost use Rattle.std.specs.Prelude.{◌≡◌, IfOk};
    ghost use Rattle.desk_types.specs.History.{Basis};
    ghost use Rattle.desk_types.specs.Judged.{IsJudged};
    ghost use Rattle.desk_types.specs.Setup.{selected_on, sheet_of};
    ghost use Rattle.desk_types.specs.View.{reel_view, mounts_on};
    ghost use Rattle.desk_types.specs.Tables.{reel_row};

    /// The bases for which the views are true.
    ghost Stands: { Self → Basis → Type 0 };

    /// Returns the product that is selected on the machine.
    fn selected(&self, machine: &Id) -> Option<Id>
        ensures { (B : Basis) → Stands self.now B → result ≡ selected_on B.history machine.now };

    /// Returns the last sheet of the product on the machine.
    fn sheet_of(&self, product: &Id, machine: &Id) -> Result<Option<SheetRows>, AllocError>
        ensures { (B : Basis) → Stands self.now B
            → IfOk result (λ rows. rows ≡ sheet_of B.history product.now machine.now) };

    /// Returns the reel at the desk minute, or none if no such reel was received. Takes no memory.
    fn reel(&self, reel: &Id) -> Option<ReelView>
        ensures { (B : Basis) → Stands self.now B → result ≡ reel_view B.history reel.now };

    /// Returns the reel's row, or none if no such reel was received. Takes no memory.
    fn reel_row(&self, reel: &Id) -> Option<ReelRow>
        // The row as the tables have it: an edit changes it, and nothing else is made of it.
        ensures { (B : Basis) → Stands self.now B → result ≡ reel_row B.history reel.now };

    /// Returns the live reels of the machine's slots, or none if no sheet names the machine.
    fn slots_of(&self, machine: &Id) -> Result<Option<Mounts>, AllocError>
        ensures { (B : Basis) → Stands self.now B
            → IfOk result (λ mounts. mounts ≡ mounts_on B.history machine.now) };

    /// Each history for which the views are true is judged by the rules with it.
    ghost is_judged: { (views : Self) (B : Basis) → Stands views B → IsJudged B.rules B.history };
}

/// The views of a desk.
#[derive(Drop)]
pub struct DeskViews<'a, D> {
    pub desk: &'a D,
}

impl<'a, D: Desk> Views for DeskViews<'a, D> {
    ghost Stands = { λ views B. D.Stands views.desk.now B };

    fn selected(&self, machine: &Id) -> Option<Id> {
        self.desk.selected(machine)
    }

    fn sheet_of(&self, product: &Id, machine: &Id) -> Result<Option<SheetRows>, AllocError> {
        self.desk.sheet_of(product, machine)
    }

    fn reel(&self, reel: &Id) -> Option<ReelView> {
        self.desk.reel(reel)
    }

    fn reel_row(&self, reel: &Id) -> Option<ReelRow> {
        self.desk.reel_row(reel)
    }

    fn slots_of(&self, machine: &Id) -> Result<Option<Mounts>, AllocError> {
        self.desk.slots_of(machine)
    }

    ghost is_judged = { λ views. D.is_judged views.desk.now };
}
