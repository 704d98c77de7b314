//! Adding elements to sets and lists.

ghost use Rattle.std.specs.Prelude.{◌≡◌, ◌++◌, not, true, IfOk, OnOk};
ghost use Rattle.std.specs.BTreeSet.{insert_key, contains, Updates};
ghost use Rattle.std.specs.Option.{option_map_or, option_to_list};

use std::alloc::AllocError;
use std::collections::BTreeSet;

/// Inserts the key into the set. Returns whether the set lacked it.
pub fn is_added<K: Ord + Drop>(set: &mut BTreeSet<K>, key: K) -> Result<bool, AllocError>
    ensures added { IfOk result (λ added. added ≡ not (contains K.cmp set.old key)) }
    ensures updates { OnOk result (Updates K.cmp set.old set.new key true) }
{
    Ok(set.insert(key)?)
}

/// Inserts the key into the set, if there is one.
pub fn insert_if<K: Ord + Drop>(set: &mut BTreeSet<K>, key: Option<K>) -> Result<(), AllocError>
    ensures { OnOk result
        (set.new.keys ≡ option_map_or (insert_key K.cmp set.old.keys) key set.old.keys) }
{
    if let Some(key) = key {
        set.insert(key)?;
    }
    Ok(())
}

/// Appends the item to the list, if there is one.
pub fn push_if<T: Drop>(list: &mut Vec<T>, item: Option<T>) -> Result<(), AllocError>
    ensures { OnOk result (list.new.items ≡ list.old.items ++ option_to_list item) }
{
    if let Some(item) = item {
        list.push(item)?;
    }
    Ok(())
}
