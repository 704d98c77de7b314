//! The parts that are defined.

ghost use Rattle.std.specs.Prelude.{◌≡◌, ◌||◌, [], OnOk, OnErr};
ghost use Rattle.std.specs.BTreeSet.{insert_key};
ghost use Rattle.std.specs.List.Sorted.{IsStrictlySortedBy};
ghost use Rattle.desk_types.specs.Id.{Name, same, by_name};
ghost use Rattle.setup_sheets.specs.Names.{is_among};

use desk_types::Id;
use std::alloc::{AllocError, Global};
use std::collections::{BTreeSet, btree_set};
use std::marker::Model;

/// A set of parts, kept in a search tree. Contracts see it as its names, each once and in byte
/// order.
#[derive(Drop)]
pub struct Parts {
    names: BTreeSet<Id>,
}

impl Model for Parts {
    ghost use Rattle.std.specs.Prelude.{List};
    ghost use Rattle.desk_types.specs.Id.{Name};

    ghost Value = { List Name };

    ghost view = { λ a. a.names.keys };
}

impl Parts {
    /// No parts. Takes no memory.
    pub fn new(alloc: Global) -> Parts
        ensures { result ≡ [] }
    {
        Parts {
            names: BTreeSet::new(alloc),
        }
    }

    /// Whether the part is in the set. Takes no memory.
    pub fn has(&self, part: &Id) -> bool
        ensures { result ≡ is_among self.now part.now }
    {
        self.names.contains(part)
    }

    /// Puts a part into the set. Without memory the set is as before.
    pub fn add(&mut self, part: Id) -> Result<(), AllocError>
        ensures ok { OnOk result (self.new ≡ insert_key by_name self.old part) }
        ensures has { OnOk result ((p : Name)
            → is_among self.new p ≡ (same part p || is_among self.old p)) }
        ensures err { OnErr result (self.new ≡ self.old) }
    {
        self.names.insert(part)?;
        Ok(())
    }

    /// The parts in byte order. Takes no memory.
    pub fn iter(&self) -> btree_set::Iter<'_, Id>
        ensures all { result ≡ self.now }
        ensures ordered { IsStrictlySortedBy by_name result }
    {
        self.names.iter()
    }
}

impl Clone for Parts {
    ghost use Rattle.std.specs.Prelude.{◌≡◌};

    ghost is_clone = { λ x y. y ≡ x };

    fn clone(&self) -> Result<Parts, AllocError> {
        let names = self.names.clone()?;
        Ok(Parts { names })
    }
}
