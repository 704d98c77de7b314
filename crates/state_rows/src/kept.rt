//! Lists under names.

ghost use Rattle.std.specs.Prelude.{◌≡◌, ◌++◌, ◌∷◌, [], if◌then◌else◌, OnOk};
ghost use Rattle.desk_types.specs.Id.{Name, same};
ghost use Rattle.state_rows.specs.Lists.{kept_at};

use desk_types::Id;
use std::alloc::{AllocError, Global};
use std::collections::BTreeMap;
use std::marker::Model;

/// The elements under one name, oldest first.
#[derive(Drop)]
pub struct KeptList<T> {
    pub items: Vec<T>,
}

impl<T> Model for KeptList<T> {
    ghost use Rattle.std.specs.Prelude.{List};

    ghost Value = { List T };

    ghost view = { λ a. a.items.items };
}

/// Reserves memory for this many more elements under a name.
pub fn make_room<T: Drop>(
    alloc: Global,
    map: &mut BTreeMap<Id, KeptList<T>>,
    name: &Id,
    more: usize,
) -> Result<(), AllocError>
    ensures { (n : Name) → kept_at map.new n ≡ kept_at map.old n }
{
    match map.get_mut(name) {
        Some(kept) => kept.items.reserve(more)?,
        None => {
            let items = Vec::with_capacity(alloc, more)?;
            map.insert(*name, KeptList { items })?;
        }
    }
    Ok(())
}

/// Adds an element under its name.
pub fn keep<T: Drop>(
    alloc: Global,
    map: &mut BTreeMap<Id, KeptList<T>>,
    name: &Id,
    thing: T,
) -> Result<(), AllocError>
    ensures { (n : Name)
        → OnOk result (kept_at map.new n
        ≡ kept_at map.old n ++ (if same name.now n then thing ∷ [] else [])) }
{
    match map.get_mut(name) {
        Some(kept) => kept.items.push(thing)?,
        None => {
            let mut items = Vec::new(alloc);
            items.push(thing)?;
            map.insert(*name, KeptList { items })?;
        }
    }
    Ok(())
}

/// Returns the elements under the name.
pub fn kept_under<'a, T>(map: &'a BTreeMap<Id, KeptList<T>>, name: &Id) -> &'a [T]
    ensures { result.now ≡ kept_at map.now name.now }
{
    match map.get(name) {
        Some(kept) => kept.items.as_slice(),
        None => &[],
    }
}
