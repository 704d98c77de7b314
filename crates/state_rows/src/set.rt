//! Sets of rows.

ghost use Rattle.std.specs.Prelude.{◌≡◌, [], Some, OnOk, if◌then◌else◌, IfOk, is_some, unwrap_or};
ghost use Rattle.std.specs.BTreeMap.{get, is_at};
ghost use Rattle.desk_types.specs.Pair.{by_pair};
ghost use Rattle.setup_sheets.specs.Names.{is_among};
ghost use Rattle.setup_sheets.specs.Alternates.{is_pair_among};
ghost use Rattle.desk_types.specs.Id.{Name, by_name};
ghost use Rattle.std.specs.Option.{option_copied};
ghost use Rattle.desk_types.specs.Tables.{tables_of};
ghost use Rattle.desk_types.specs.Edits.{with_edit, with_edits};
ghost use Rattle.state_rows.specs.Kept.{tables_in, is_placement, but_placements, Lists, ListsKeys, ListsMounts, by_sheet_place, by_piece};
ghost use Rattle.desk_types.specs.declared.edit.RowEdit.TheVariants.{TakeSheetRow, TakeMount, PutPart, PutAlternate, PutSheetRow, PutSelected, PutReel, PutMount, PutBoard, PutPlacement, PutFound};

use crate::mounts::MountTable;
use desk_types::{
    BoardRow, Id, Minute, MountRow, PlacementRow, ReelRow, RowEdit, RowEdits, SheetRow,
};
use setup_sheets::{Alternates, Parts};
use std::alloc::{AllocError, Global};
use std::collections::{BTreeMap, btree_map, btree_set};
use std::marker::Model;

/// The rows of the state tables.
#[derive(Drop)]
pub struct RowSet {
    parts: Parts,
    alternates: Alternates,
    sheets: BTreeMap<(Id, Id, u64), SheetRow>,
    selected: BTreeMap<Id, Id>,
    reels: BTreeMap<Id, ReelRow>,
    mounts: MountTable,
    boards: BTreeMap<Id, BoardRow>,
    placements: BTreeMap<(u64, u64), PlacementRow>,
    found: BTreeMap<Id, u64>,
}

impl Model for RowSet {
    ghost use Rattle.state_rows.specs.Kept.{KeptRows};

    ghost Value = { KeptRows };

    ghost view = { λ a. record {
      parts = a.parts;
      alternates = a.alternates;
      sheets = a.sheets.entries;
      selected = a.selected.entries;
      reels = a.reels.entries;
      mounts = a.mounts;
      boards = a.boards.entries;
      placements = a.placements.entries;
      found = a.found.entries;
    } };
}

impl RowSet {
    /// No rows. Takes no memory.
    pub fn new(alloc: Global) -> RowSet
        ensures { tables_in result ≡ tables_of [] }
    {
        RowSet {
            parts: Parts::new(alloc),
            alternates: Alternates::new(alloc),
            sheets: BTreeMap::new(alloc),
            selected: BTreeMap::new(alloc),
            reels: BTreeMap::new(alloc),
            mounts: MountTable::new(alloc),
            boards: BTreeMap::new(alloc),
            placements: BTreeMap::new(alloc),
            found: BTreeMap::new(alloc),
        }
    }

    /// Makes edits, one after the other. After an `Err` nothing is known of the set.
    pub fn apply(&mut self, edits: &[RowEdit]) -> Result<(), AllocError>
        ensures { OnOk result (tables_in self.new ≡ with_edits edits.now (tables_in self.old)) }
    {
        for edit in edits {
            self.make(edit)?;
        }
        Ok(())
    }

    /// Makes the edits of all tables except `placement`, whose rows are unchanged. After an `Err` drop the set.
    pub fn apply_but_placements(&mut self, edits: &[RowEdit]) -> Result<(), AllocError>
        ensures { OnOk result
            (tables_in self.new ≡ but_placements (with_edits edits.now (tables_in self.old))
            (tables_in self.old)) }
    {
        for edit in edits {
            self.make_but_placement(edit)?;
        }
        Ok(())
    }

    fn make_but_placement(&mut self, edit: &RowEdit) -> Result<(), AllocError>
        ensures { OnOk result
            (tables_in self.new ≡ but_placements (with_edit edit.now (tables_in self.old))
            (tables_in self.old)) }
    {
        if is_placement(edit) {
            return Ok(());
        }
        self.make(edit)?;
        Ok(())
    }

    fn make(&mut self, edit: &RowEdit) -> Result<(), AllocError>
        ensures { OnOk result (tables_in self.new ≡ with_edit edit.now (tables_in self.old)) }
    {
        match edit {
            RowEdit::TakeSheetRow {
                product,
                machine,
                place,
            } => {
                self.take_sheet_row(*product, *machine, *place);
                Ok(())
            }
            RowEdit::TakeMount { reel } => {
                self.take_mount(reel);
                Ok(())
            }
            RowEdit::PutPart { part } => self.put_part(*part),
            RowEdit::PutAlternate { part, alternate } => self.put_alternate(*part, *alternate),
            RowEdit::PutSheetRow {
                product,
                machine,
                place,
                row,
            } => self.put_sheet_row(*product, *machine, *place, row),
            RowEdit::PutSelected { machine, product } => self.put_selected(*machine, *product),
            RowEdit::PutReel(row) => self.put_reel(row, row.open_since),
            RowEdit::PutMount(row) => self.put_mount(row),
            RowEdit::PutBoard(row) => self.put_board(row),
            RowEdit::PutPlacement(row) => self.put_placement(row),
            RowEdit::PutFound { reel, pieces } => self.put_found(*reel, *pieces),
        }
    }

    fn take_sheet_row(&mut self, product: Id, machine: Id, place: u64)
        ensures { tables_in self.new
            ≡ with_edit (TakeSheetRow product machine place) (tables_in self.old) }
    {
        self.sheets.remove(&(product, machine, place));
    }

    fn take_mount(&mut self, reel: &Id)
        ensures { tables_in self.new ≡ with_edit (TakeMount reel.now) (tables_in self.old) }
    {
        self.mounts.take(reel);
    }

    fn put_part(&mut self, part: Id) -> Result<(), AllocError>
        ensures { OnOk result (tables_in self.new ≡ with_edit (PutPart part) (tables_in self.old)) }
    {
        self.parts.add(part)?;
        Ok(())
    }

    fn put_alternate(&mut self, part: Id, alternate: Id) -> Result<(), AllocError>
        ensures { OnOk result
            (tables_in self.new ≡ with_edit (PutAlternate part alternate) (tables_in self.old)) }
    {
        self.alternates.add(part, alternate)?;
        Ok(())
    }

    fn put_sheet_row(
        &mut self,
        product: Id,
        machine: Id,
        place: u64,
        row: &SheetRow,
    ) -> Result<(), AllocError>
        ensures { OnOk result
            (tables_in self.new ≡ with_edit (PutSheetRow product machine place row.now)
            (tables_in self.old)) }
    {
        let copy = row.clone()?;
        self.sheets.insert((product, machine, place), copy)?;
        Ok(())
    }

    fn put_selected(&mut self, machine: Id, product: Id) -> Result<(), AllocError>
        ensures { OnOk result
            (tables_in self.new ≡ with_edit (PutSelected machine product) (tables_in self.old)) }
    {
        self.selected.insert(machine, product)?;
        Ok(())
    }

    /// The minute is the row's: with it in the signature the borrow checker knows its type.
    fn put_reel(&mut self, row: &ReelRow, _since: Option<Minute>) -> Result<(), AllocError>
        ensures { OnOk result
            (tables_in self.new ≡ with_edit (PutReel row.now) (tables_in self.old)) }
    {
        if let Some(old) = self.reels.get_mut(&row.reel) {
            *old = *row;
            return Ok(());
        }
        self.reels.insert(row.reel, *row)?;
        Ok(())
    }

    fn put_mount(&mut self, row: &MountRow) -> Result<(), AllocError>
        ensures { OnOk result
            (tables_in self.new ≡ with_edit (PutMount row.now) (tables_in self.old)) }
    {
        self.mounts.put(row)?;
        Ok(())
    }

    fn put_board(&mut self, row: &BoardRow) -> Result<(), AllocError>
        ensures { OnOk result
            (tables_in self.new ≡ with_edit (PutBoard row.now) (tables_in self.old)) }
    {
        self.boards.insert(row.board, *row)?;
        Ok(())
    }

    fn put_placement(&mut self, row: &PlacementRow) -> Result<(), AllocError>
        ensures { OnOk result
            (tables_in self.new ≡ with_edit (PutPlacement row.now) (tables_in self.old)) }
    {
        self.placements.insert((row.number, row.place), *row)?;
        Ok(())
    }

    fn put_found(&mut self, reel: Id, pieces: u64) -> Result<(), AllocError>
        ensures { OnOk result
            (tables_in self.new ≡ with_edit (PutFound reel pieces) (tables_in self.old)) }
    {
        self.found.insert(reel, pieces)?;
        Ok(())
    }

    /// The parts. Takes no memory, as each of these.
    pub fn parts(&self) -> btree_set::Iter<'_, Id>
        ensures { ListsKeys by_name result (tables_in self.now).parts }
    {
        self.parts.iter()
    }

    /// The parts, each with one of its alternates.
    pub fn alternates(&self) -> btree_set::Iter<'_, (Id, Id)>
        ensures { ListsKeys by_pair result (λ k. (tables_in self.now).alternates k.0 k.1) }
    {
        self.alternates.iter()
    }

    /// The rows of sheets, each with its product, its machine and its place from 1.
    pub fn sheets(&self) -> btree_map::Iter<'_, (Id, Id, u64), SheetRow>
        ensures { Lists by_sheet_place result (λ k. (tables_in self.now).sheets k.0 k.1 k.2) }
    {
        self.sheets.iter()
    }

    /// Machines, each with its selected product.
    pub fn selected(&self) -> btree_map::Iter<'_, Id, Id>
        ensures { Lists by_name result (tables_in self.now).selected }
    {
        self.selected.iter()
    }

    /// The rows of reels.
    pub fn reels(&self) -> btree_map::Iter<'_, Id, ReelRow>
        ensures { Lists by_name result (tables_in self.now).reels }
    {
        self.reels.iter()
    }

    /// The rows of mounted reels in the order of their numbers, each with its number and its reel.
    pub fn mounts(&self) -> btree_map::Iter<'_, (u64, Id), MountRow>
        ensures { ListsMounts result (tables_in self.now).mounts }
    {
        self.mounts.iter()
    }

    /// The rows of boards.
    pub fn boards(&self) -> btree_map::Iter<'_, Id, BoardRow>
        ensures { Lists by_name result (tables_in self.now).boards }
    {
        self.boards.iter()
    }

    /// The rows of placed pieces, each with its number and its place.
    pub fn placements(&self) -> btree_map::Iter<'_, (u64, u64), PlacementRow>
        ensures { Lists by_piece result (λ k. (tables_in self.now).placements k.0 k.1) }
    {
        self.placements.iter()
    }

    /// Reels, each with the pieces that counts found on it.
    pub fn found(&self) -> btree_map::Iter<'_, Id, u64>
        ensures { Lists by_name result (tables_in self.now).found }
    {
        self.found.iter()
    }

    /// Returns the parts as a set. Takes no memory, like the next five.
    pub fn part_set(&self) -> &Parts
        ensures { (part : Name) → is_among result.now part ≡ (tables_in self.now).parts part }
    {
        &self.parts
    }

    /// Returns the alternates as a set.
    pub fn alternate_set(&self) -> &Alternates
        ensures { (p q : Name) → is_pair_among result.now p q
            ≡ (tables_in self.now).alternates p q }
    {
        &self.alternates
    }

    /// Returns the row in this place, from 1, of the product's sheet on the machine.
    pub fn sheet_row(&self, product: &Id, machine: &Id, place: u64) -> Option<&SheetRow>
        ensures { option_copied result
            ≡ (tables_in self.now).sheets product.now machine.now place }
    {
        self.sheets.get(&(*product, *machine, place))
    }

    /// Returns the product that is selected on the machine.
    pub fn selected_on(&self, machine: &Id) -> Option<Id>
        ensures { result ≡ (tables_in self.now).selected machine.now }
    {
        match self.selected.get(machine) {
            Some(product) => Some(*product),
            None => None,
        }
    }

    /// Returns the row of the reel.
    pub fn reel(&self, reel: &Id) -> Option<&ReelRow>
        ensures { option_copied result ≡ (tables_in self.now).reels reel.now }
    {
        self.reels.get(reel)
    }

    /// Returns the row of the board.
    pub fn board(&self, board: &Id) -> Option<&BoardRow>
        ensures { option_copied result ≡ (tables_in self.now).boards board.now }
    {
        self.boards.get(board)
    }

    /// The pieces that counts found on the reel. Takes no memory, as the next one.
    pub fn found_on(&self, reel: &Id) -> u64
        ensures { result ≡ unwrap_or ((tables_in self.now).found reel.now) 0 }
    {
        match self.found.get(reel) {
            Some(pieces) => *pieces,
            None => 0,
        }
    }

    /// Whether the reel has a row of `mount`.
    pub fn is_mounted(&self, reel: &Id) -> bool
        ensures { result ≡ is_some ((tables_in self.now).mounts reel.now) }
    {
        self.mounts.has(reel)
    }
}

impl Clone for RowSet {
    ghost use Rattle.std.specs.Prelude.{◌≡◌};

    ghost is_clone = { λ x y. y ≡ x };

    fn clone(&self) -> Result<RowSet, AllocError> {
        Ok(RowSet {
            parts: self.parts.clone()?,
            alternates: self.alternates.clone()?,
            sheets: self.sheets.clone()?,
            selected: self.selected.clone()?,
            reels: self.reels.clone()?,
            mounts: self.mounts.clone()?,
            boards: self.boards.clone()?,
            placements: self.placements.clone()?,
            found: self.found.clone()?,
        })
    }
}

fn is_placement(edit: &RowEdit) -> bool
    ensures { result ≡ is_placement edit.now }
{
    matches!(edit, RowEdit::PutPlacement(_))
}
