//! The alternates of parts.

ghost use Rattle.std.specs.Prelude.{◌≡◌, ◌||◌, [], OnOk, OnErr};
ghost use Rattle.std.specs.BTreeSet.{insert_key};
ghost use Rattle.std.specs.List.Sorted.{IsStrictlySortedBy};
ghost use Rattle.desk_types.specs.Id.{Name};
ghost use Rattle.desk_types.specs.Pair.{same_pair, by_pair};
ghost use Rattle.setup_sheets.specs.Alternates.{is_pair_among, is_allowed_by};

use desk_types::Id;
use std::alloc::{AllocError, Global};
use std::collections::{BTreeSet, btree_set};
use std::marker::Model;

/// A set of pairs of a part and its alternate, kept in a search tree. Contracts see it as its
/// pairs, each once and in byte order of the part and then of the alternate.
#[derive(Drop)]
pub struct Alternates {
    pairs: BTreeSet<(Id, Id)>,
}

impl Model for Alternates {
    ghost use Rattle.std.specs.Prelude.{List};
    ghost use Rattle.desk_types.specs.Id.{Name};

    ghost Value = { List (Name × Name) };

    ghost view = { λ a. a.pairs.keys };
}

impl Alternates {
    /// No alternates. Takes no memory.
    pub fn new(alloc: Global) -> Alternates
        ensures { result ≡ [] }
    {
        Alternates {
            pairs: BTreeSet::new(alloc),
        }
    }

    /// Whether the alternate was named for the part, in that direction. Takes no memory.
    pub fn has(&self, part: &Id, alternate: &Id) -> bool
        ensures { result ≡ is_pair_among self.now part.now alternate.now }
    {
        self.pairs.contains(&(*part, *alternate))
    }

    /// Names an alternate for a part. Without memory the set is as before.
    pub fn add(&mut self, part: Id, alternate: Id) -> Result<(), AllocError>
        ensures ok { OnOk result (self.new ≡ insert_key by_pair self.old (part, alternate)) }
        // In this direction only: the part doesn't become an alternate of its alternate.
        ensures has { OnOk result ((p q : Name)
            → is_pair_among self.new p q
            ≡ (same_pair (part, alternate) (p, q) || is_pair_among self.old p q)) }
        ensures err { OnErr result (self.new ≡ self.old) }
    {
        self.pairs.insert((part, alternate))?;
        Ok(())
    }

    /// The pairs of a part and its alternate in order. Takes no memory.
    pub fn iter(&self) -> btree_set::Iter<'_, (Id, Id)>
        ensures all { result ≡ self.now }
        ensures ordered { IsStrictlySortedBy by_pair result }
    {
        self.pairs.iter()
    }
}

impl Clone for Alternates {
    ghost use Rattle.std.specs.Prelude.{◌≡◌};

    ghost is_clone = { λ x y. y ≡ x };

    fn clone(&self) -> Result<Alternates, AllocError> {
        let pairs = self.pairs.clone()?;
        Ok(Alternates { pairs })
    }
}

/// Returns whether part `q` may replace `p` of a sheet: it is `p`, or an alternate named for it.
/// Alternates go in one direction and do not chain. Takes no memory.
pub fn allowed(alternates: &Alternates, p: &Id, q: &Id) -> bool
    ensures { result ≡ is_allowed_by alternates.now p.now q.now }
{
    *q == *p || alternates.has(p, q)
}
