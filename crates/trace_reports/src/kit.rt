//! The kit list of a product on a machine: the reels to bring for a number of boards.

ghost use Rattle.std.specs.Prelude.{◌≡◌, ◌++◌, ℕ, not, List, [], map, IfOk, OnOk};
ghost use Rattle.std.specs.List.{filter};
ghost use Rattle.desk_types.specs.declared.view.ReelView.{ReelView};
ghost use Rattle.desk_types.specs.History.{Basis};
ghost use Rattle.desk_types.specs.Id.{Name};
ghost use Rattle.setup_sheets.specs.Names.{is_among, HasSeen};
ghost use Rattle.trace_reports.specs.Kit.{needed_by, enough, rows_for, kit_rows, kit_list};

use crate::report::{CsvReport, TextWriter, csv_text, write_fields};
use crate::shown::left_text;
use desk_types::{Boards, Desk, Id, Left, ReelView, SheetRow, Text};
use itoa::Buffer;
use std::alloc::{AllocError, Global};
use std::collections::BTreeSet;

/// A row of a kit list: a sheet row's need, and one of its supplies.
#[derive(Clone, Copy, PartialEq, Eq)]
pub struct KitRow {
    pub slot: Id,
    /// The sheet's part. The reel may have an alternate.
    pub part: Id,
    /// The pieces that the sheet row needs for all boards.
    pub needed: u64,
    pub supply: Supply,
}

/// A reel to bring, or missing pieces.
#[derive(Clone, Copy, PartialEq, Eq)]
pub enum Supply {
    /// The whole reel, with its remaining pieces.
    Reel { reel: Id, pieces: u64, left: Left },
    /// The number of missing pieces.
    Short { missing: u64 },
}

struct KitList;

impl CsvReport<KitRow> for KitList {
    ghost use Rattle.trace_reports.specs.Kit.{kit_header, kit_fields};

    ghost header = { λ _. kit_header };

    ghost fields = { λ _. kit_fields };

    fn write_header(&self, writer: &mut TextWriter) -> Result<(), AllocError> {
        write_fields(
            writer,
            &[
                b"slot",
                b"part",
                b"needed",
                b"reel",
                b"pieces",
                b"minutes_left",
            ],
        )
    }

    fn write_row(&self, row: &KitRow, writer: &mut TextWriter) -> Result<(), AllocError> {
        let mut needed = Buffer::new();
        let slot = row.slot.as_bytes();
        let part = row.part.as_bytes();
        let needed = needed.format(row.needed).as_bytes();
        match row.supply {
            Supply::Reel { reel, pieces, left } => write_fields(
                writer,
                &[
                    slot,
                    part,
                    needed,
                    reel.as_bytes(),
                    Buffer::new().format(pieces).as_bytes(),
                    left_text(left, &mut Buffer::new()).as_bytes(),
                ],
            ),
            Supply::Short { missing } => write_fields(
                writer,
                &[
                    slot,
                    part,
                    needed,
                    b"",
                    Buffer::new().format(missing).as_bytes(),
                    b"short",
                ],
            ),
        }
    }
}

fn enough(
    alloc: Global,
    needed: u64,
    given: &BTreeSet<Id>,
    reels: &[ReelView],
) -> Result<Vec<ReelView>, AllocError>
    ensures { (names : List Name) → HasSeen given.now names
        → IfOk result
        (λ chosen. chosen.items
        ≡ enough needed (filter (λ (r : ReelView). not (is_among names r.reel)) reels.now)) }
{
    let mut chosen = Vec::new(alloc);
    let mut missing = needed;
    for reel in reels {
        if missing == 0 {
            return Ok(chosen);
        }
        if !given.contains(&reel.reel) {
            chosen.push(*reel)?;
            missing = missing.saturating_sub(reel.remaining);
        }
    }
    Ok(chosen)
}

fn put_rows(
    row: &SheetRow,
    needed: u64,
    reels: &[ReelView],
    given: &mut BTreeSet<Id>,
    kit: &mut Vec<KitRow>,
) -> Result<(), AllocError>
    ensures rows { OnOk result
        (kit.new.items ≡ kit.old.items ++ rows_for row.now needed reels.now) }
    // So later rows of the kit don't get these reels again.
    ensures given { (names : List Name) → HasSeen given.old names
        → OnOk result (HasSeen given.new (names ++ map (λ (r : ReelView). r.reel) reels.now)) }
{
    let mut missing = needed;
    for reel in reels {
        given.insert(reel.reel)?;
        kit.push(KitRow {
            slot: row.slot,
            part: row.part,
            needed,
            supply: Supply::Reel {
                reel: reel.reel,
                pieces: reel.remaining,
                left: reel.left,
            },
        })?;
        missing = missing.saturating_sub(reel.remaining);
    }
    if missing > 0 {
        kit.push(KitRow {
            slot: row.slot,
            part: row.part,
            needed,
            supply: Supply::Short { missing },
        })?;
    }
    Ok(())
}

fn needed_by(boards: Boards, row: &SheetRow) -> u64
    ensures { result ≡ needed_by boards row.now }
{
    boards.get() * row.designators.as_slice().len() as u64
}

fn kit_rows<D: Desk>(
    alloc: Global,
    desk: &D,
    boards: Boards,
    sheet: &[SheetRow],
) -> Result<Vec<KitRow>, AllocError>
    ensures { (B : Basis) → D.Stands desk.now B
        → IfOk result (λ rows. rows.items ≡ kit_rows B.history boards [] sheet.now) }
{
    let mut given = BTreeSet::new(alloc);
    let mut kit = Vec::new(alloc);
    for row in sheet {
        let needed = needed_by(boards, row);
        let free = desk.free_reels(&row.part)?;
        let reels = enough(alloc, needed, &given, free.as_slice())?;
        put_rows(row, needed, reels.as_slice(), &mut given, &mut kit)?;
    }
    Ok(kit)
}

/// Returns the kit list for the boards, or none if the product has no sheet on the machine.
pub fn kit_list<D: Desk>(
    alloc: Global,
    desk: &D,
    product: &Id,
    machine: &Id,
    boards: Boards,
) -> Result<Option<Text>, AllocError>
    // Missing pieces don't refuse a kit: a row says how many a slot lacks.
    ensures { (B : Basis) → D.Stands desk.now B
        → IfOk result (λ text. text ≡ kit_list B.history product.now machine.now boards) }
{
    match desk.sheet_of(product, machine)? {
        Some(sheet) => {
            let rows = kit_rows(alloc, desk, boards, sheet.as_slice())?;
            Ok(Some(csv_text(alloc, &KitList, rows.as_slice())?))
        }
        None => Ok(None),
    }
}
