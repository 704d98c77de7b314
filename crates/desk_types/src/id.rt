//! Names of parts, reels, lots, machines, slots, boards, products, messages and their sources.

ghost use Rattle.std.specs.Prelude.{◌≡◌, ℕ, ◌≤◌, ◌<◌, ◌↔◌, List, length, SomeIff, IsTrue, Some, ⊤};
ghost use Rattle.desk_types.specs.Id.{IsId};

use crate::designator::Designator;
use crate::fixed::{order, with_zeros};
use crate::limits::LONGEST_ID;
use std::alloc::AllocError;
use std::cmp::Ordering;
use std::fmt;
use std::marker::Model;

/// A name: 1 to 64 bytes from `0x20` to `0x7E` with no space at either end.
///
/// It stores its bytes in place, so it is cheap to copy. Comparison is by bytes and case-sensitive.
/// The allowed characters are this project's own profile.
pub struct Id {
    bytes: [u8; LONGEST_ID],
    len: u8,
}

impl Model for Id {
    ghost use Rattle.std.specs.Prelude.{List, ℕ, take, length};
    ghost use Rattle.desk_types.specs.Fixed.{with_zeros, IsPadded};
    ghost use Rattle.desk_types.specs.Id.{IsIdInside};
    ghost use Rattle.desk_types.specs.declared.limits.TheConstants.{LONGEST_ID};

    ghost Value = { List ℕ };

    ghost view = { λ a. take a.len a.bytes };

    ghost invariant = { λ a. IsIdInside a.bytes a.len };

    ghost inverse = { λ v. record { bytes = with_zeros LONGEST_ID v; len = length v } };
}

impl Id {
    /// Returns the id with these bytes if they are valid.
    pub fn read(bytes: &[u8]) -> Option<Id>
        ensures { SomeIff result (IsId bytes.now) bytes.now }
    {
        if !is_id(bytes) {
            return None;
        }
        Some(Id {
            bytes: with_zeros(bytes),
            len: bytes.len() as u8,
        })
    }

    /// Returns the id's bytes.
    pub fn as_bytes(&self) -> &[u8]
        ensures value { result.now ≡ self.now }
        // A `&` hides the type's invariant, so the bytes say it again.
        ensures is_id { IsId result.now }
    {
        &self.bytes[..self.len as usize]
    }

    /// Returns the id as text.
    pub fn as_str(&self) -> &str
        ensures { result.now ≡ self.now }
    {
        match str::from_utf8(self.as_bytes()) {
            Ok(text) => text,
            Err(_) => unreachable!(),
        }
    }
}

fn is_id(bytes: &[u8]) -> bool
    ensures { IsTrue result ↔ IsId bytes.now }
{
    if bytes.is_empty() || bytes.len() > LONGEST_ID {
        return false;
    }
    if bytes[0] == b' ' || bytes[bytes.len() - 1] == b' ' {
        return false;
    }
    bytes.iter().all(|b| *b >= 0x20 && *b <= 0x7e)
}

/// Every designator is also an id, so a refusal can name either as an id.
impl From<Designator> for Id {
    ghost from_gives = { λ designator id. id ≡ designator };

    fn from(designator: Designator) -> Id {
        let bytes = designator.as_bytes();
        Id {
            bytes: with_zeros(bytes),
            len: bytes.len() as u8,
        }
    }
}

impl Clone for Id {
    ghost is_clone = { λ x y. y ≡ x };

    ghost is_infallible = { λ _. ⊤ };

    fn clone(&self) -> Result<Id, AllocError> {
        Ok(*self)
    }
}

impl Copy for Id {}

impl PartialEq for Id {
    ghost use Rattle.std.specs.Prelude.{◌==◌};
    ghost use Rattle.std.specs.Cmp.Rules.{comparing};
    ghost use Rattle.std.proofs.Common.{rules};
    ghost use Rattle.std.specs.Cmp.Lexicographic.{pointwise};

    ghost eq = { pointwise ◌==◌ };

    ghost laws = { Prim.search (comparing, rules) };

    fn eq(&self, other: &Id) -> bool {
        self.bytes == other.bytes
    }
}

impl Eq for Id {
    ghost use Rattle.std.specs.Cmp.Rules.{comparing};
    ghost use Rattle.std.proofs.Common.{rules};

    ghost laws = { Prim.search (comparing, rules) };
}

impl Ord for Id {
    ghost use Rattle.std.specs.Cmp.Rules.{comparing};
    ghost use Rattle.std.proofs.Common.{rules};
    ghost use Rattle.std.specs.Ordering.{nat_cmp};
    ghost use Rattle.std.specs.Cmp.Lexicographic.{slice_cmp};

    ghost cmp = { slice_cmp nat_cmp };

    ghost total = { Prim.search (comparing, rules) };

    ghost matches_partial_cmp = { Prim.search (comparing, rules) };

    ghost matches_eq = { Prim.search (comparing, rules) };

    fn cmp(&self, other: &Id) -> Ordering {
        order(&self.bytes, &other.bytes)
    }
}

impl PartialOrd for Id {
    ghost use Rattle.std.specs.Cmp.{partial_order_from_own_ties};
    ghost use Rattle.std.specs.Cmp.Rules.{comparing};
    ghost use Rattle.std.proofs.Common.{rules};
    ghost use Rattle.std.specs.Ordering.{nat_cmp, as_partial_cmp};
    ghost use Rattle.std.specs.Cmp.Lexicographic.{slice_cmp};

    ghost partial_cmp = { as_partial_cmp (slice_cmp nat_cmp) };

    ghost laws = { partial_order_from_own_ties (Prim.search (comparing, rules))
        (Prim.search (comparing, rules)) };

    fn partial_cmp(&self, other: &Id) -> Option<Ordering> {
        Some(self.cmp(other))
    }
}

impl fmt::Display for Id {
    ghost use Rattle.std.specs.Prelude.{Some};

    ghost output = { λ id. Some id };

    fn fmt<W: fmt::Write>(&self, f: &mut fmt::Formatter<W>) -> fmt::Result {
        f.write_str(self.as_str())
    }
}

impl fmt::Debug for Id {
    ghost use Rattle.std.specs.Prelude.{Some};

    ghost debug_output = { λ id. Some id };

    fn fmt<W: fmt::Write>(&self, f: &mut fmt::Formatter<W>) -> fmt::Result {
        write!(f, "{self}")
    }
}
