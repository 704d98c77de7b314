//! The rows of a file.

ghost use Rattle.std.specs.Prelude.{◌≡◌, ◌≤◌, length, map, IfOk, OnOk, ◌++◌, ◌∷◌, [], option_map};
ghost use Rattle.csv.specs.Records.{fields_of};
ghost use Rattle.desk_types.specs.declared.limits.TheConstants.{LONGEST_LIST};
ghost use Rattle.imports.specs.Fault.{IsSaid};
ghost use Rattle.imports.specs.File.{each, rows_of, two_texts, three_texts};

use crate::fault::ImportFault;
use crate::fields::{designators_of, field, id_of, quantity_of, text_at};
use csv::ByteRecord;
use desk_types::{Bounded, CountRow, LONGEST_LIST, Listing, SheetRow};
use std::alloc::{AllocError, Global};

/// The line of the first record after the header.
pub const FIRST_ROW: u64 = 2;

/// The last line that can be a row.
pub const LAST_ROW: u64 = LONGEST_LIST as u64 + 1;

/// A row of one kind of file.
pub trait Row: Drop + Sized {
    ghost use Rattle.std.specs.Prelude.{Bool, ℕ, List, Result};
    ghost use Rattle.imports.specs.declared.fault.ImportFault.{ImportFault};

    ghost header: { List (List ℕ) → Bool };

    ghost said: { ℕ → List (List ℕ) → Result Self ImportFault };

    /// Returns whether a record is the header of such files.
    fn is_header(row: &ByteRecord) -> bool
        ensures { result ≡ header (fields_of row.now) };

    /// Reads the record at a line as a row.
    fn read(alloc: Global, line: u64, row: &ByteRecord) -> Result<Self, ImportFault>
        // `said` defines the reading of this row; only `NoMemory` may replace its result.
        ensures { IsSaid (said line (fields_of row.now)) result };
}

fn put<T: Drop>(rows: &mut Vec<T>, row: T) -> Result<(), AllocError>
    ensures { OnOk result (rows.new.items ≡ rows.old.items ++ row ∷ []) }
{
    rows.push(row)?;
    Ok(())
}

fn each<T: Row>(alloc: Global, records: &[ByteRecord]) -> Result<Listing<T>, ImportFault>
    ensures said { IsSaid (each T.said FIRST_ROW (map fields_of records.now)) result }
    // So `rows_of` can make a `Bounded` list unless it is empty, which is the fault of line 2.
    ensures bound { IfOk result (λ rows. length rows ≤ LONGEST_LIST) }
{
    let mut rows = Vec::new(alloc);
    let mut line = FIRST_ROW;
    for record in records {
        if line > LAST_ROW {
            return Err(ImportFault::OverLimit);
        }
        let row = T::read(alloc, line, record)?;
        put(&mut rows, row)?;
        line += 1;
    }
    Ok(Listing::new(rows))
}

/// Reads the rows of a file from its records.
pub fn rows_of<T: Row>(alloc: Global, records: &[ByteRecord]) -> Result<Bounded<T>, ImportFault>
    ensures { IsSaid (rows_of T.header T.said (map fields_of records.now)) result }
{
    match records {
        [first, rest @ ..] if T::is_header(first) => {
            let rows = each::<T>(alloc, rest)?;
            Bounded::new(rows.into_vec()).ok_or(ImportFault::BadRow(FIRST_ROW))
        }
        _ => Err(ImportFault::BadHeader),
    }
}

#[tactic(auto, unfolding(crate::specs::File::two_texts))]
fn two_texts(row: &ByteRecord) -> Option<(&str, &str)>
    ensures { option_map (λ t. (t.0.now, t.1.now)) result ≡ two_texts (fields_of row.now) }
{
    if row.len() != 2 {
        return None;
    }
    Some((text_at(row, 0)?, text_at(row, 1)?))
}

#[tactic(auto, unfolding(crate::specs::File::three_texts))]
fn three_texts(row: &ByteRecord) -> Option<(&str, &str, &str)>
    ensures { option_map (λ t. (t.0.now, t.1.now, t.2.now)) result
        ≡ three_texts (fields_of row.now) }
{
    if row.len() != 3 {
        return None;
    }
    Some((text_at(row, 0)?, text_at(row, 1)?, text_at(row, 2)?))
}

impl Row for SheetRow {
    ghost use Rattle.imports.specs.File.{is_setup_header, sheet_row};

    ghost header = { is_setup_header };

    ghost said = { sheet_row };

    fn is_header(row: &ByteRecord) -> bool {
        row.len() == 3
            && field(row, 0) == b"slot".as_slice()
            && field(row, 1) == b"part".as_slice()
            && field(row, 2) == b"designators".as_slice()
    }

    #[tactic(auto, unfolding(crate::specs::File::sheet_row))]
    fn read(alloc: Global, line: u64, row: &ByteRecord) -> Result<SheetRow, ImportFault> {
        let (slot, part, places) = three_texts(row).ok_or(ImportFault::BadRow(line))?;
        let slot = id_of(slot).ok_or(ImportFault::BadField(line, 1))?;
        let part = id_of(part).ok_or(ImportFault::BadField(line, 2))?;
        let designators = designators_of(alloc, places)?.ok_or(ImportFault::BadField(line, 3))?;
        Ok(SheetRow {
            slot,
            part,
            designators,
        })
    }
}

impl Row for CountRow {
    ghost use Rattle.imports.specs.File.{is_counts_header, count_row};

    ghost header = { is_counts_header };

    ghost said = { count_row };

    fn is_header(row: &ByteRecord) -> bool {
        row.len() == 2
            && field(row, 0) == b"reel".as_slice()
            && field(row, 1) == b"quantity".as_slice()
    }

    #[tactic(auto, unfolding(crate::specs::File::count_row))]
    fn read(_: Global, line: u64, row: &ByteRecord) -> Result<CountRow, ImportFault> {
        let (reel, quantity) = two_texts(row).ok_or(ImportFault::BadRow(line))?;
        Ok(CountRow {
            reel: id_of(reel).ok_or(ImportFault::BadField(line, 1))?,
            quantity: quantity_of(quantity).ok_or(ImportFault::BadField(line, 2))?,
        })
    }
}
