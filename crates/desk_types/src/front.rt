//! The front reels of a machine's slots, as verification uses them.

use crate::id::Id;
use crate::list::Listing;

/// How long a reel may still feed its slot.
#[derive(Clone, Copy, PartialEq, Eq)]
pub enum Life {
    /// Its level has no limit.
    Unlimited,
    /// It waits for its bake.
    Unbaked,
    /// It expires at this minute since 1970-01-01T00:00Z, which may be later than any message's
    /// minute.
    Until(u64),
}

/// A slot's front reel with its part.
#[derive(Clone, Copy, PartialEq, Eq)]
pub struct FrontReel {
    pub reel: Id,
    pub part: Id,
    pub life: Life,
}

/// A slot and its front reel, or none if no reel is live there.
#[derive(Clone, Copy, PartialEq, Eq)]
pub struct Front {
    pub slot: Id,
    pub reel: Option<FrontReel>,
}

/// Fronts in sheet order.
pub type Fronts = Listing<Front>;
