//! The designators that are placed on one board.

ghost use Rattle.std.specs.Prelude.{◌≡◌, ◌||◌, [], OnOk, OnErr};
ghost use Rattle.std.specs.List.{list_any};
ghost use Rattle.std.specs.List.Sorted.{IsSorted};
ghost use Rattle.desk_types.specs.Id.{Name, same, by_name};

use desk_types::Designator;
use std::alloc::{AllocError, Global};
use std::marker::Model;

/// The designators of one board, in one sorted piece of memory with no room to spare: they stay for
/// ever, 17 bytes each. Contracts see it as its names.
#[derive(Drop)]
pub struct PlacedNames {
    names: Vec<Designator>,
}

impl Model for PlacedNames {
    ghost use Rattle.std.specs.Prelude.{List};
    ghost use Rattle.std.specs.List.Sorted.{IsSorted};
    ghost use Rattle.desk_types.specs.Id.{Name, by_name};

    ghost Value = { List Name };

    ghost view = { λ a. a.names.items };

    ghost invariant = { λ a. IsSorted by_name a.names.items };
}

impl PlacedNames {
    /// No designators. Takes no memory.
    pub fn new(alloc: Global) -> PlacedNames
        ensures { result ≡ [] }
    {
        PlacedNames {
            names: Vec::new(alloc),
        }
    }

    /// Whether the designator is placed: a search by halves. Takes no memory.
    pub fn has(&self, designator: &Designator) -> bool
        ensures { result ≡ list_any (same designator.now) self.now }
    {
        self.names.binary_search(designator).is_ok()
    }

    /// The designators, in order.
    pub fn in_order(&self) -> &[Designator]
        // So a caller that looks for many names goes through the list once.
        ensures order { IsSorted by_name result.now }
        ensures value { result.now ≡ self.now }
    {
        self.names.as_slice()
    }

    /// Inserts designators: all are copied into a new allocation of their size and sorted. The old ones are already in
    /// order, so the sort passes over them once. If memory is refused, nothing changes.
    pub fn add_all(&mut self, designators: &[Designator]) -> Result<(), AllocError>
        // Of each name alone, since the order of a set says nothing.
        ensures ok { (d : Name)
            → OnOk result
            (list_any (same d) self.new
            ≡ (list_any (same d) designators.now || list_any (same d) self.old)) }
        // The old allocation is kept until the new one is whole.
        ensures err { OnErr result (self.new ≡ self.old) }
    {
        let alloc = *self.names.allocator();
        let mut names = Vec::with_capacity(alloc, self.names.len() + designators.len())?;
        names.extend_from_slice(self.names.as_slice())?;
        names.extend_from_slice(designators)?;
        names.sort()?;
        self.names = names;
        Ok(())
    }
}
