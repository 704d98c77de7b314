//! The rows of `mount`, by reel and by number.

ghost use Rattle.std.specs.Prelude.{◌≡◌, [], None, Some, OnOk, if◌then◌else◌, is_some};
ghost use Rattle.desk_types.specs.Id.{Name, same, by_name};
ghost use Rattle.state_rows.specs.Kept.{row_at, AreTheSame, ListsMounts};

use desk_types::{Id, MountRow};
use std::alloc::{AllocError, Global};
use std::collections::BTreeMap;
use std::collections::btree_map::Iter;
use std::marker::Model;

/// Rows of `mount`, at most one a reel. Contracts see them as the rows by reel.
#[derive(Drop)]
pub struct MountTable {
    by_reel: BTreeMap<Id, MountRow>,
    by_since: BTreeMap<(u64, Id), MountRow>,
}

impl Model for MountTable {
    ghost use Rattle.std.specs.Prelude.{List};
    ghost use Rattle.desk_types.specs.Id.{Name};
    ghost use Rattle.desk_types.specs.declared.row.MountRow.{MountRow};
    ghost use Rattle.state_rows.specs.Kept.{AreTheSame};

    ghost Value = { List (Name × MountRow) };

    ghost view = { λ a. a.by_reel.entries };

    ghost invariant = { λ a. AreTheSame a.by_since.entries a.by_reel.entries };
}

impl MountTable {
    /// No rows. Takes no memory.
    pub fn new(alloc: Global) -> MountTable
        ensures { result ≡ [] }
    {
        MountTable {
            by_reel: BTreeMap::new(alloc),
            by_since: BTreeMap::new(alloc),
        }
    }

    /// Takes the reel's row out.
    pub fn take(&mut self, reel: &Id)
        ensures { (r : Name)
            → row_at by_name self.new r
            ≡ (if same reel.now r then None else row_at by_name self.old r) }
    {
        take_both(&mut self.by_reel, &mut self.by_since, reel);
    }

    /// Puts a row in place of its reel's. After an `Err` the reel has no row.
    pub fn put(&mut self, row: &MountRow) -> Result<(), AllocError>
        ensures { (r : Name)
            → OnOk result
            (row_at by_name self.new r
            ≡ (if same row.now.reel r then Some row.now else row_at by_name self.old r)) }
    {
        take_both(&mut self.by_reel, &mut self.by_since, &row.reel);
        put_both(&mut self.by_reel, &mut self.by_since, row)?;
        Ok(())
    }

    /// Whether the reel has a row. Takes no memory.
    pub fn has(&self, reel: &Id) -> bool
        ensures { result ≡ is_some (row_at by_name self.now reel.now) }
    {
        self.by_reel.contains_key(reel)
    }

    /// The rows in the order of their numbers. Takes no memory.
    pub fn iter(&self) -> Iter<'_, (u64, Id), MountRow>
        ensures { ListsMounts result (row_at by_name self.now) }
    {
        self.by_since.iter()
    }
}

impl Clone for MountTable {
    ghost use Rattle.std.specs.Prelude.{◌≡◌};

    ghost is_clone = { λ x y. y ≡ x };

    fn clone(&self) -> Result<MountTable, AllocError> {
        let by_reel = self.by_reel.clone()?;
        let by_since = self.by_since.clone()?;
        Ok(MountTable { by_reel, by_since })
    }
}

fn take_both(
    by_reel: &mut BTreeMap<Id, MountRow>,
    by_since: &mut BTreeMap<(u64, Id), MountRow>,
    reel: &Id,
)
    ensures taken { (r : Name)
        → row_at by_name by_reel.new.entries r
        ≡ (if same reel.now r then None else row_at by_name by_reel.old.entries r) }
    ensures alike { AreTheSame by_since.old.entries by_reel.old.entries
        → AreTheSame by_since.new.entries by_reel.new.entries }
{
    if let Some(row) = by_reel.remove(reel) {
        by_since.remove(&(row.since, *reel));
    }
}

/// Puts the row of a reel without one into both maps, or into neither.
fn put_both(
    by_reel: &mut BTreeMap<Id, MountRow>,
    by_since: &mut BTreeMap<(u64, Id), MountRow>,
    row: &MountRow,
) -> Result<(), AllocError>
    ensures put { (r : Name)
        → OnOk result
        (row_at by_name by_reel.new.entries r
        ≡ (if same row.now.reel r then Some row.now else row_at by_name by_reel.old.entries r)) }
    ensures alike { row_at by_name by_reel.old.entries row.now.reel ≡ None
        → AreTheSame by_since.old.entries by_reel.old.entries
        → AreTheSame by_since.new.entries by_reel.new.entries }
{
    by_reel.insert(row.reel, *row)?;
    match by_since.insert((row.since, row.reel), *row) {
        Ok(_) => Ok(()),
        Err(_) => {
            by_reel.remove(&row.reel);
            Err(AllocError)
        }
    }
}
