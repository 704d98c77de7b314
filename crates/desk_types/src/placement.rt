//! Placed pieces.

use crate::designator::Designator;
use crate::id::Id;
use crate::number::Minute;

/// A piece placed on a board by the entry with this number, at this place in its message. Both
/// count from 1. The reel's receipt has its part and lot.
#[derive(Clone, Copy, PartialEq, Eq)]
pub struct Placement {
    pub number: u64,
    pub place: u64,
    pub board: Id,
    pub designator: Designator,
    pub part: Id,
    pub lot: Id,
    pub reel: Id,
    pub machine: Id,
    pub slot: Id,
    /// The entry's effective minute.
    pub effective: Minute,
    /// Whether the reel's floor life had expired.
    pub overdue: bool,
}
