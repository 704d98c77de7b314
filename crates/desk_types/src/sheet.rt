//! Setup sheets: the part of each slot, and the designators of its pieces.

use crate::designator::Designator;
use crate::id::Id;
use crate::list::Bounded;
use std::alloc::AllocError;

/// 1 to 5,000 designators in order.
pub type Designators = Bounded<Designator>;

/// 1 to 5,000 rows in sheet order.
pub type SheetRows = Bounded<SheetRow>;

/// A slot, the part that it feeds, and the designators where its pieces go.
#[derive(PartialEq, Eq, Drop)]
pub struct SheetRow {
    pub slot: Id,
    pub part: Id,
    pub designators: Designators,
}

impl Clone for SheetRow {
    ghost use Rattle.std.specs.Prelude.{◌≡◌};

    ghost is_clone = { λ x y. y ≡ x };

    fn clone(&self) -> Result<SheetRow, AllocError> {
        Ok(SheetRow {
            slot: self.slot,
            part: self.part,
            designators: self.designators.clone()?,
        })
    }
}
