//! The results of the calls.

use desk_types::{Listing, Placement};

/// Placed pieces by number, and then by place.
pub type PlacedRows = Listing<Placement>;
