//! Reading files as commands.

ghost use Rattle.imports.specs.Fault.{IsSaid};
ghost use Rattle.imports.specs.File.{file_rows, setup_said, counts_said};

use crate::fault::ImportFault;
use crate::records::first_records;
use crate::rows::{Row, rows_of};
use desk_types::{Bounded, Command, Id, LONGEST_INPUT};
use std::alloc::Global;

/// Reads a setup file as a product's sheet on a machine.
///
/// The header is `slot,part,designators`, with single spaces between designators. The text is CSV
/// (RFC 4180) as `csv` reads it. Blank lines are skipped, a carriage return or line feed alone also
/// ends a record, and a leading byte order mark is dropped.
#[tactic(auto, unfolding(crate::specs::File::setup_said))]
pub fn read_setup(
    alloc: Global,
    bytes: &[u8],
    product: Id,
    machine: Id,
) -> Result<Command, ImportFault>
    // The first fault decides, by record, and within a record from left to right.
    ensures said { IsSaid (setup_said product machine bytes.now) result }
{
    Ok(Command::SheetDefined {
        product,
        machine,
        rows: file_rows(alloc, bytes)?,
    })
}

/// Reads a count file.
///
/// The header is `reel,quantity`. The text is read like a setup file's.
#[tactic(auto, unfolding(crate::specs::File::counts_said))]
pub fn read_counts(alloc: Global, bytes: &[u8]) -> Result<Command, ImportFault>
    ensures said { IsSaid (counts_said bytes.now) result }
{
    Ok(Command::CountsTaken {
        counts: file_rows(alloc, bytes)?,
    })
}

#[tactic(auto, unfolding(crate::specs::File::file_rows))]
fn file_rows<T: Row>(alloc: Global, bytes: &[u8]) -> Result<Bounded<T>, ImportFault>
    ensures { IsSaid (file_rows T.header T.said bytes.now) result }
{
    if bytes.len() > LONGEST_INPUT {
        return Err(ImportFault::OverLimit);
    }
    let records = first_records(alloc, bytes)?;
    rows_of::<T>(alloc, records.as_slice())
}
