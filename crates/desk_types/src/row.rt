//! Rows of the state tables.

ghost use Rattle.std.specs.Prelude.{◌≡◌, ℕ, ◌<◌, ◌≤◌, ◌^◌, IfSome};
ghost use Rattle.desk_types.specs.declared.limits.TheConstants.{GREATEST_LABEL};
ghost use Rattle.desk_types.specs.Id.{Name};
ghost use Rattle.desk_types.specs.History.{History, now_of};
ghost use Rattle.desk_types.specs.FloorLife.{minutes_left, is_expired, is_unbaked};
ghost use Rattle.desk_types.specs.Row.{fresh_row, exposure_at, opened_row, sealed_row, baked_row, minutes_left_at, is_expired_at, is_unbaked_row, IsRowOf};

use crate::designator::Designator;
use crate::id::Id;
use crate::level::{Level, Moisture};
use crate::number::{Minute, Quantity};

/// A row of the table `reel`.
#[derive(Clone, Copy, PartialEq, Eq)]
pub struct ReelRow {
    pub reel: Id,
    pub part: Id,
    pub lot: Id,
    pub level: Level,
    pub label: u64,
    pub received: u64,
    pub placed: u64,
    pub scrapped: u64,
    pub remaining: u64,
    /// The exposure in minutes at `open_since`, or at the desk minute while the reel is in its bag.
    pub used: u64,
    pub open_since: Option<Minute>,
    pub baked: bool,
}

impl ReelRow {
    /// Returns the row of a reel that is received, sealed in its bag.
    pub fn fresh(reel: Id, part: Id, lot: Id, moisture: Moisture, quantity: Quantity) -> ReelRow
        ensures { (minute : ℕ)
            → result ≡ fresh_row reel
            (record {
              part = part;
              lot = lot;
              moisture = moisture;
              quantity = quantity;
              effective = minute;
            }) }
    {
        ReelRow {
            reel,
            part,
            lot,
            level: moisture.level(),
            label: moisture.label(),
            received: quantity.get(),
            placed: 0,
            scrapped: 0,
            remaining: quantity.get(),
            used: 0,
            open_since: None,
            baked: false,
        }
    }

    /// Returns the exposure in minutes up to this one, if it fits.
    pub fn exposure(&self, minute: Minute) -> u64
        ensures { exposure_at self.now minute < 2 ^ 64 → result ≡ exposure_at self.now minute }
    {
        match self.open_since {
            Some(since) => self
                .used
                .saturating_add(minute.get().saturating_sub(since.get())),
            None => self.used,
        }
    }

    /// Returns the remaining minutes of floor life at this minute, 0 if expired, or none without a
    /// limit.
    pub fn minutes_left(&self, minute: Minute) -> Option<u64>
        // A law of the row alone, for a caller that has no history.
        ensures value { exposure_at self.now minute ≤ minute
            → result ≡ minutes_left_at self.now minute }
        // If the row is a history's, this is the definition's value for that history.
        ensures left { (H : History) (name : Name) → IsRowOf H name self.now
            → now_of H ≤ minute → result ≡ minutes_left H name minute }
        // An answer writes it as a number, whose width is bounded so.
        ensures bound { self.now.label ≤ GREATEST_LABEL
            → IfSome result (λ left. left ≤ GREATEST_LABEL) }
    {
        let _ = minute.get();
        let limit = self.level.limit(self.label)?;
        Some(limit.saturating_sub(self.exposure(minute)))
    }

    /// Returns whether the exposure has reached its limit by this minute.
    pub fn is_expired(&self, minute: Minute) -> bool
        // A law of the row alone, for a caller that has no history.
        ensures value { exposure_at self.now minute ≤ minute
            → result ≡ is_expired_at self.now minute }
        // If the row is a history's, this is the definition's value for that history.
        ensures expired { (H : History) (name : Name) → IsRowOf H name self.now
            → now_of H ≤ minute → result ≡ is_expired H name minute }
    {
        let _ = minute.get();
        match self.level.limit(self.label) {
            Some(limit) => self.exposure(minute) >= limit,
            None => false,
        }
    }

    /// Returns whether the reel waits for its bake: it has level 6 and wasn't baked since its
    /// receipt.
    pub fn is_unbaked(&self) -> bool
        ensures value { result ≡ is_unbaked_row self.now }
        // If the row is a history's, this is the definition's value for that history.
        ensures unbaked { (H : History) (name : Name) → IsRowOf H name self.now
            → result ≡ is_unbaked H name }
    {
        self.level == Level::Six && !self.baked
    }

    /// Returns the row with the reel out of its bag: since this minute, if it was in its bag.
    pub fn opened(self, minute: Minute) -> ReelRow
        ensures { result ≡ opened_row minute self }
    {
        let open_since = match self.open_since {
            Some(since) => Some(since),
            None => Some(minute),
        };
        ReelRow { open_since, ..self }
    }

    /// Returns the row with the reel sealed in its bag, which stops its exposure.
    pub fn sealed(self, minute: Minute) -> ReelRow
        ensures { exposure_at self minute < 2 ^ 64 → result ≡ sealed_row minute self }
    {
        let used = self.exposure(minute);
        ReelRow {
            used,
            open_since: None,
            ..self
        }
    }

    /// Returns the row with the reel baked and sealed, which resets its exposure to 0.
    pub fn baked(self) -> ReelRow
        ensures { result ≡ baked_row self }
    {
        ReelRow {
            used: 0,
            open_since: None,
            baked: true,
            ..self
        }
    }
}

/// A row of the table `mount`: a live reel, and the number of its load or splice.
#[derive(Clone, Copy, PartialEq, Eq)]
pub struct MountRow {
    pub since: u64,
    pub machine: Id,
    pub slot: Id,
    pub reel: Id,
}

/// A row of the table `board`: its product and the machine where it is in work.
#[derive(Clone, Copy, PartialEq, Eq)]
pub struct BoardRow {
    pub board: Id,
    pub product: Id,
    pub machine: Option<Id>,
}

/// A row of the table `placement`.
#[derive(Clone, Copy, PartialEq, Eq)]
pub struct PlacementRow {
    pub number: u64,
    pub place: u64,
    pub board: Id,
    pub designator: Designator,
    pub machine: Id,
    pub slot: Id,
    pub reel: Id,
    pub overdue: bool,
}
