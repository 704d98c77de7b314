//! Things gathered by keys.

ghost use Rattle.std.specs.Prelude.{◌≡◌, ◌++◌, ◌∷◌, [], if◌then◌else◌, OnOk};
ghost use Rattle.std.specs.BTreeMap.{is_at};
ghost use Rattle.feeder_state.specs.Restored.{group_at};

use std::alloc::{AllocError, Global};
use std::collections::BTreeMap;
use std::marker::Model;

/// The items of one key, in the order of insertion.
#[derive(Drop)]
pub struct Group<T> {
    pub items: Vec<T>,
}

impl<T> Model for Group<T> {
    ghost use Rattle.std.specs.Prelude.{List};

    ghost Value = { List T };

    ghost view = { λ a. a.items.items };
}

/// Puts a thing to the others of its key.
pub fn gather<K: Ord + Drop, T: Drop>(
    alloc: Global,
    groups: &mut BTreeMap<K, Group<T>>,
    key: K,
    item: T,
) -> Result<(), AllocError>
    ensures { (q : K)
        → OnOk result
        (group_at K.cmp groups.new q ≡ (if is_at
        (K.cmp key) q then group_at K.cmp groups.old key ++ item ∷ []
        else group_at K.cmp groups.old q)) }
{
    if let Some(group) = groups.get_mut(&key) {
        group.items.push(item)?;
        return Ok(());
    }
    let mut items = Vec::new(alloc);
    items.push(item)?;
    groups.insert(key, Group { items })?;
    Ok(())
}
