//! The pieces that accepted commands take off reels.

ghost use Rattle.std.specs.Prelude.{◌≡◌};
ghost use Rattle.desk_types.specs.Pieces.{is_placed};

use crate::designator::Designator;
use crate::id::Id;

/// Why a piece was taken.
#[derive(Clone, Copy, PartialEq, Eq)]
pub enum Purpose {
    /// It was placed on a board from a slot.
    Placed {
        board: Id,
        designator: Designator,
        machine: Id,
        slot: Id,
    },
    /// It was scrapped at a slot.
    Rejected {
        machine: Id,
        slot: Id,
    },
    /// It was missing at a count.
    Counted,
}

impl Purpose {
    /// Returns whether the piece was placed on a board.
    pub fn is_placed(&self) -> bool
        ensures { result ≡ is_placed self.now }
    {
        matches!(self, Purpose::Placed { .. })
    }
}

/// Pieces from one reel and their purpose, before the reel's part and lot are known.
#[derive(Clone, Copy, PartialEq, Eq)]
pub struct Pick {
    pub reel: Id,
    pub quantity: u64,
    pub purpose: Purpose,
}

/// A pick with its reel's part and lot. It is overdue if it places a piece from an expired reel.
#[derive(Clone, Copy, PartialEq, Eq)]
pub struct Take {
    pub reel: Id,
    pub part: Id,
    pub lot: Id,
    pub quantity: u64,
    pub purpose: Purpose,
    pub overdue: bool,
}
