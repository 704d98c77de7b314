//! Designators: the names of places on a board.

ghost use Rattle.std.specs.Prelude.{◌≡◌, ℕ, ◌≤◌, ◌<◌, ◌↔◌, List, length, SomeIff, IsTrue, Some, ⊤};
ghost use Rattle.desk_types.specs.Designator.{IsDesignator, is_designator_byte};

use crate::fixed::{order, with_zeros};
use crate::limits::LONGEST_DESIGNATOR;
use std::alloc::AllocError;
use std::cmp::Ordering;
use std::fmt;
use std::marker::Model;

/// A place on a board, such as `R17`: 1 to 16 ASCII letters, digits, `_`, `.` and `-`.
///
/// It stores its bytes in place, so it is cheap to copy. Comparison is by bytes and case-sensitive.
/// The allowed characters are this project's own profile.
pub struct Designator {
    bytes: [u8; LONGEST_DESIGNATOR],
    len: u8,
}

impl Model for Designator {
    ghost use Rattle.std.specs.Prelude.{List, ℕ, take, length};
    ghost use Rattle.desk_types.specs.Fixed.{with_zeros, IsPadded};
    ghost use Rattle.desk_types.specs.Designator.{IsDesignatorInside};
    ghost use Rattle.desk_types.specs.declared.limits.TheConstants.{LONGEST_DESIGNATOR};

    ghost Value = { List ℕ };

    ghost view = { λ a. take a.len a.bytes };

    ghost invariant = { λ a. IsDesignatorInside a.bytes a.len };

    ghost inverse = { λ v. record { bytes = with_zeros LONGEST_DESIGNATOR v; len = length v } };
}

impl Designator {
    /// Returns the designator with these bytes if they are valid.
    pub fn read(bytes: &[u8]) -> Option<Designator>
        ensures { SomeIff result (IsDesignator bytes.now) bytes.now }
    {
        if !is_designator(bytes) {
            return None;
        }
        Some(Designator {
            bytes: with_zeros(bytes),
            len: bytes.len() as u8,
        })
    }

    /// Returns the designator's bytes.
    pub fn as_bytes(&self) -> &[u8]
        ensures value { result.now ≡ self.now }
        // A `&` hides the type's invariant, so the bytes say it again.
        ensures is_designator { IsDesignator result.now }
    {
        &self.bytes[..self.len as usize]
    }

    /// Returns the designator as text.
    pub fn as_str(&self) -> &str
        ensures { result.now ≡ self.now }
    {
        match str::from_utf8(self.as_bytes()) {
            Ok(text) => text,
            Err(_) => unreachable!(),
        }
    }
}

fn is_designator(bytes: &[u8]) -> bool
    ensures { IsTrue result ↔ IsDesignator bytes.now }
{
    if bytes.is_empty() || bytes.len() > LONGEST_DESIGNATOR {
        return false;
    }
    bytes.iter().all(|b| is_designator_byte(*b))
}

fn is_designator_byte(b: u8) -> bool
    ensures { result ≡ is_designator_byte b }
{
    b.is_ascii_alphanumeric() || b == b'_' || b == b'.' || b == b'-'
}

impl Clone for Designator {
    ghost is_clone = { λ x y. y ≡ x };

    ghost is_infallible = { λ _. ⊤ };

    fn clone(&self) -> Result<Designator, AllocError> {
        Ok(*self)
    }
}

impl Copy for Designator {}

impl PartialEq for Designator {
    ghost use Rattle.std.specs.Prelude.{◌==◌};
    ghost use Rattle.std.specs.Cmp.Rules.{comparing};
    ghost use Rattle.std.proofs.Common.{rules};
    ghost use Rattle.std.specs.Cmp.Lexicographic.{pointwise};

    ghost eq = { pointwise ◌==◌ };

    ghost laws = { Prim.search (comparing, rules) };

    fn eq(&self, other: &Designator) -> bool {
        self.bytes == other.bytes
    }
}

impl Eq for Designator {
    ghost use Rattle.std.specs.Cmp.Rules.{comparing};
    ghost use Rattle.std.proofs.Common.{rules};

    ghost laws = { Prim.search (comparing, rules) };
}

impl Ord for Designator {
    ghost use Rattle.std.specs.Cmp.Rules.{comparing};
    ghost use Rattle.std.proofs.Common.{rules};
    ghost use Rattle.std.specs.Ordering.{nat_cmp};
    ghost use Rattle.std.specs.Cmp.Lexicographic.{slice_cmp};

    ghost cmp = { slice_cmp nat_cmp };

    ghost total = { Prim.search (comparing, rules) };

    ghost matches_partial_cmp = { Prim.search (comparing, rules) };

    ghost matches_eq = { Prim.search (comparing, rules) };

    fn cmp(&self, other: &Designator) -> Ordering {
        order(&self.bytes, &other.bytes)
    }
}

impl PartialOrd for Designator {
    ghost use Rattle.std.specs.Cmp.{partial_order_from_own_ties};
    ghost use Rattle.std.specs.Cmp.Rules.{comparing};
    ghost use Rattle.std.proofs.Common.{rules};
    ghost use Rattle.std.specs.Ordering.{nat_cmp, as_partial_cmp};
    ghost use Rattle.std.specs.Cmp.Lexicographic.{slice_cmp};

    ghost partial_cmp = { as_partial_cmp (slice_cmp nat_cmp) };

    ghost laws = { partial_order_from_own_ties (Prim.search (comparing, rules))
        (Prim.search (comparing, rules)) };

    fn partial_cmp(&self, other: &Designator) -> Option<Ordering> {
        Some(self.cmp(other))
    }
}

impl fmt::Display for Designator {
    ghost use Rattle.std.specs.Prelude.{Some};

    ghost output = { λ d. Some d };

    fn fmt<W: fmt::Write>(&self, f: &mut fmt::Formatter<W>) -> fmt::Result {
        f.write_str(self.as_str())
    }
}

impl fmt::Debug for Designator {
    ghost use Rattle.std.specs.Prelude.{Some};

    ghost debug_output = { λ d. Some d };

    fn fmt<W: fmt::Write>(&self, f: &mut fmt::Formatter<W>) -> fmt::Result {
        write!(f, "{self}")
    }
}
