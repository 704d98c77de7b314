//! The reported state of reels and slots.

ghost use Rattle.std.specs.Prelude.{◌≡◌};
ghost use Rattle.desk_types.specs.Tables.{columns_of, view_with};

use crate::id::Id;
use crate::level::Level;
use crate::list::Listing;
use crate::number::Minute;
use crate::row::ReelRow;

/// The remaining floor life of a reel, ordered from fewer minutes to unlimited to waiting for a
/// bake.
#[derive(Clone, Copy, PartialEq, Eq, PartialOrd, Ord)]
pub enum Left {
    /// The minutes left at the desk minute, 0 if expired.
    Minutes(u64),
    /// Its level has no limit.
    Unlimited,
    /// It waits for its bake.
    Unbaked,
}

/// A received reel at the desk minute. Received pieces are placed, scrapped or remaining. Each
/// `Minute` counts from 1970-01-01T00:00Z; `used` is a duration in minutes. The idea of floor life
/// comes from J-STD-033; the limits are this project's own profile.
#[derive(Clone, Copy, PartialEq, Eq)]
pub struct ReelView {
    pub reel: Id,
    pub part: Id,
    pub lot: Id,
    pub level: Level,
    /// The minutes on the label, 0 except at level 6.
    pub label: u64,
    /// The receipt's pieces and those found later.
    pub received: u64,
    /// The pieces by which counts exceeded the remaining ones.
    pub found: u64,
    pub placed: u64,
    /// The pieces scrapped, or missing at a count.
    pub scrapped: u64,
    pub remaining: u64,
    /// The remaining floor life at the desk minute.
    pub left: Left,
    /// Whether the reel is live on a slot.
    pub mounted: bool,
    /// Whether the reel is out of its bag.
    pub is_open: bool,
    /// The exposure in minutes at `open_since`, or at the desk minute while the reel is in its bag.
    pub used: u64,
    /// The minute since which the reel is out of its bag.
    pub open_since: Option<Minute>,
    /// Whether the reel was baked since its receipt.
    pub baked: bool,
}

impl ReelView {
    /// Returns the view of a row, with the pieces that counts found, the floor life left and
    /// whether the reel is mounted.
    pub fn of_row(row: &ReelRow, found: u64, left: Left, mounted: bool) -> ReelView
        ensures { result ≡ view_with row.now found left mounted }
    {
        ReelView {
            reel: row.reel,
            part: row.part,
            lot: row.lot,
            level: row.level,
            label: row.label,
            received: row.received,
            found,
            placed: row.placed,
            scrapped: row.scrapped,
            remaining: row.remaining,
            left,
            mounted,
            is_open: row.open_since.is_some(),
            used: row.used,
            open_since: row.open_since,
            baked: row.baked,
        }
    }

    /// Returns the columns that don't change with the minute.
    pub fn columns(&self) -> ReelRow
        ensures { result ≡ columns_of self.now }
    {
        ReelRow {
            reel: self.reel,
            part: self.part,
            lot: self.lot,
            level: self.level,
            label: self.label,
            received: self.received,
            placed: self.placed,
            scrapped: self.scrapped,
            remaining: self.remaining,
            used: self.used,
            open_since: self.open_since,
            baked: self.baked,
        }
    }
}

/// Reels ordered by remaining floor life, then by name.
pub type ReelViews = Listing<ReelView>;

/// A live reel on a slot. Pieces are taken from the front, the reel in position 1.
#[derive(Clone, Copy, PartialEq, Eq)]
pub struct Mount {
    pub slot: Id,
    pub position: u64,
    pub reel: Id,
    pub part: Id,
    pub lot: Id,
    /// The remaining pieces.
    pub remaining: u64,
    /// The remaining floor life at the desk minute.
    pub left: Left,
}

/// Live reels ordered by slot (in byte order), then by position.
pub type Mounts = Listing<Mount>;
