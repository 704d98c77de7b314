//! Counts of the pieces on reels.

use crate::id::Id;
use crate::list::Bounded;
use crate::number::CountedQuantity;

/// 1 to 5,000 rows in message order.
pub type Counts = Bounded<CountRow>;

/// A reel and the number of pieces counted on it.
#[derive(Clone, Copy, PartialEq, Eq)]
pub struct CountRow {
    pub reel: Id,
    pub quantity: CountedQuantity,
}
