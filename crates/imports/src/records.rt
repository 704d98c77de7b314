//! The records of a file.

ghost use Rattle.std.specs.Prelude.{◌≡◌, IfOk, map, Some, true};
ghost use Rattle.csv.specs.Reading.{default_config, strip_bom, Ready, source_of, reader_config, reader_trim, reader_state, is_flexible};
ghost use Rattle.csv.specs.Records.{fields_of};
ghost use Rattle.csv.specs.declared.parser.State.TheVariants as st;
ghost use Rattle.csv.specs.declared.reader.Trim.TheVariants as trim;
ghost use Rattle.imports.specs.File.{records_of};

use csv::{ByteRecord, Reader, ReaderBuilder};
use desk_types::LONGEST_LIST;
use std::alloc::{AllocError, Global};

/// The most records of a file that are read: the header, the longest list, and one too many.
pub const MOST_RECORDS: usize = LONGEST_LIST + 2;

pub fn first_records(alloc: Global, bytes: &[u8]) -> Result<Vec<ByteRecord>, AllocError>
    // Records behind these 5,002 can't change the result (`first_records_decide`).
    ensures { IfOk result (λ records. map fields_of records.items ≡ records_of bytes.now) }
{
    let rdr = reader(alloc, bytes);
    let mut records = Vec::new(alloc);
    for row in rdr.into_byte_records() {
        // Only memory can run out here: records are bytes of any length.
        let Ok(record) = row else {
            return Err(AllocError);
        };
        records.push(record)?;
        if records.len() == MOST_RECORDS {
            return Ok(records);
        }
    }
    Ok(records)
}

/// Returns a reader without a header row, for records with any number of fields.
fn reader<'a>(alloc: Global, bytes: &'a [u8]) -> Reader<&'a [u8]>
    ensures config { reader_config result ≡ default_config }
    ensures ready { Ready result }
    // So a record with too few or too many fields is a `BadRow`, and names its line.
    ensures flexible { is_flexible result ≡ true }
    // Spaces around a name stay, so the name is refused and not silently repaired.
    ensures untrimmed { reader_trim result ≡ trim.None }
    ensures state { reader_state result ≡ st.StartRecord }
    ensures source { source_of (λ s. Some s.now) result ≡ Some (strip_bom bytes.now) }
{
    ReaderBuilder::new()
        .has_headers(false)
        .flexible(true)
        .from_reader(alloc, bytes)
}
