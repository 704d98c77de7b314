//! Minutes and pieces.

ghost use Rattle.std.specs.Prelude.{◌≡◌, ◌≤◌, SomeIff};
ghost use Rattle.desk_types.specs.Number.{IsMinute, IsQuantity, IsCountedQuantity};

use crate::limits::{GREATEST_MINUTE, GREATEST_QUANTITY};
use std::marker::Model;

/// Whole minutes since 1970-01-01T00:00Z, up to the end of the year 9999.
#[derive(Clone, Copy, PartialEq, Eq, PartialOrd, Ord)]
pub struct Minute(u64);

impl Model for Minute {
    ghost use Rattle.std.specs.Prelude.{ℕ};
    ghost use Rattle.desk_types.specs.Number.{IsMinute};

    ghost Value = { ℕ };

    ghost view = { λ a. a.0 };

    ghost invariant = { λ a. IsMinute a.0 };

    ghost inverse = { λ n. record { 0 = n } };
}

impl Minute {
    /// Returns the minute with this number if it is in range.
    pub fn new(minutes: u64) -> Option<Minute>
        ensures { SomeIff result (IsMinute minutes) minutes }
    {
        if minutes > GREATEST_MINUTE {
            return None;
        }
        Some(Minute(minutes))
    }

    /// Returns the minutes since 1970-01-01T00:00Z.
    pub fn get(self) -> u64
        ensures value { result ≡ self }
        // Sums of minutes then fit a `u64` without a check.
        ensures range { IsMinute result }
    {
        self.0
    }
}

/// 1 to 10,000,000 pieces.
#[derive(Clone, Copy, PartialEq, Eq, PartialOrd, Ord)]
pub struct Quantity(u32);

impl Model for Quantity {
    ghost use Rattle.std.specs.Prelude.{ℕ};
    ghost use Rattle.desk_types.specs.Number.{IsQuantity};

    ghost Value = { ℕ };

    ghost view = { λ a. a.0 };

    ghost invariant = { λ a. IsQuantity a.0 };

    ghost inverse = { λ n. record { 0 = n } };
}

impl Quantity {
    /// Returns the quantity if it is in range.
    pub fn new(pieces: u64) -> Option<Quantity>
        ensures { SomeIff result (IsQuantity pieces) pieces }
    {
        if pieces == 0 || pieces > GREATEST_QUANTITY {
            return None;
        }
        Some(Quantity(pieces as u32))
    }

    /// Returns the number of pieces.
    pub fn get(self) -> u64
        ensures value { result ≡ self }
        // Sums of pieces then fit a `u64` without a check.
        ensures range { IsQuantity result }
    {
        u64::from(self.0)
    }
}

/// 0 to 10,000,000 pieces, counted on a reel.
#[derive(Clone, Copy, PartialEq, Eq, PartialOrd, Ord)]
pub struct CountedQuantity(u32);

impl Model for CountedQuantity {
    ghost use Rattle.std.specs.Prelude.{ℕ};
    ghost use Rattle.desk_types.specs.Number.{IsCountedQuantity};

    ghost Value = { ℕ };

    ghost view = { λ a. a.0 };

    ghost invariant = { λ a. IsCountedQuantity a.0 };

    ghost inverse = { λ n. record { 0 = n } };
}

impl CountedQuantity {
    /// Returns the counted quantity if it is in range.
    pub fn new(pieces: u64) -> Option<CountedQuantity>
        ensures { SomeIff result (IsCountedQuantity pieces) pieces }
    {
        if pieces > GREATEST_QUANTITY {
            return None;
        }
        Some(CountedQuantity(pieces as u32))
    }

    /// Returns the number of pieces.
    pub fn get(self) -> u64
        ensures value { result ≡ self }
        ensures range { IsCountedQuantity result }
    {
        u64::from(self.0)
    }
}
