//! Names in sets, by another name.

ghost use Rattle.std.specs.Prelude.{◌≡◌, ◌||◌, ◌&&◌, false, if◌then◌else◌, OnOk};
ghost use Rattle.desk_types.specs.Id.{Name, same};
ghost use Rattle.feeder_state.specs.Sets.{is_name_at};

use desk_types::Id;
use std::alloc::{AllocError, Global};
use std::collections::{BTreeMap, BTreeSet};

/// Puts a name into the set of the key.
pub fn put_name(
    alloc: Global,
    sets: &mut BTreeMap<Id, BTreeSet<Id>>,
    key: &Id,
    name: Id,
) -> Result<(), AllocError>
    ensures { (k n : Name)
        → OnOk result (is_name_at sets.new k n
        ≡ (same key.now k && same name n || is_name_at sets.old k n)) }
{
    match sets.get_mut(key) {
        Some(names) => {
            names.insert(name)?;
        }
        None => {
            let mut names = BTreeSet::new(alloc);
            names.insert(name)?;
            sets.insert(*key, names)?;
        }
    }
    Ok(())
}

/// Takes a name out of the set of the key, where it may be.
pub fn take_name(sets: &mut BTreeMap<Id, BTreeSet<Id>>, key: &Id, name: &Id)
    ensures { (k n : Name)
        → is_name_at sets.new k n
        ≡ (if same key.now k && same name.now n then false else is_name_at sets.old k n) }
{
    if let Some(names) = sets.get_mut(key) {
        names.remove(name);
    }
}
