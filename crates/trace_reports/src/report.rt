//! A report's text, record by record, in the default format of the crate `csv`.
//!
//! Fields are separated by commas, and each record ends with a line feed. A field with a comma,
//! quote or line end is quoted, with its quotes doubled, so readers of RFC 4180 restore it.

ghost use Rattle.std.specs.Prelude.{◌≡◌, List, ℕ, ◌++◌, map, IfOk, OnOk};
ghost use Rattle.trace_reports.specs.Csv.{record_text, csv_text, HasWritten};

use csv::{Writer, WriterBuilder};
use desk_types::{Listing, Text};
use std::alloc::{AllocError, Global};

/// Writes records to memory.
pub type TextWriter = Writer<Vec<u8>>;

/// The content of a report: a header, and a record for each row.
pub trait CsvReport<T> {
    ghost use Rattle.std.specs.Prelude.{List, ℕ};

    /// The names of the report's columns.
    ghost header: { Self → List (List ℕ) };

    /// The fields of a row, in column order.
    ghost fields: { Self → T → List (List ℕ) };

    /// Writes the header as a record.
    fn write_header(&self, writer: &mut TextWriter) -> Result<(), AllocError>
        // After an error the text may end inside a record, so nothing is said of it.
        ensures { (text : List ℕ) → HasWritten writer.old text
            → OnOk result (HasWritten writer.new (text ++ record_text (header self.now))) };

    /// Writes the row as a record.
    fn write_row(&self, row: &T, writer: &mut TextWriter) -> Result<(), AllocError>
        ensures { (text : List ℕ) → HasWritten writer.old text
            → OnOk result (HasWritten writer.new (text ++ record_text (fields self.now row.now))) };
}

/// Writes these fields as a record. After an `Err` the writer is unusable.
pub fn write_fields(writer: &mut TextWriter, fields: &[&[u8]]) -> Result<(), AllocError>
    ensures { (text : List ℕ) → HasWritten writer.old text
        → OnOk result (HasWritten writer.new (text ++ record_text (map (λ f. f.now) fields.now))) }
{
    match writer.write_fields(fields) {
        Ok(()) => Ok(()),
        Err(_) => Err(AllocError),
    }
}

/// Returns the report's header and a record for each row in order.
pub fn csv_text<T, R: CsvReport<T>>(
    alloc: Global,
    report: &R,
    rows: &[T],
) -> Result<Text, AllocError>
    ensures { IfOk result
        (λ text. text ≡ csv_text (R.header report.now) (map (R.fields report.now) rows.now)) }
{
    let mut writer = WriterBuilder::new().from_writer(Vec::new(alloc));
    report.write_header(&mut writer)?;
    for row in rows {
        report.write_row(row, &mut writer)?;
    }
    match writer.into_inner() {
        Ok(text) => Ok(Listing::new(text)),
        Err(_) => Err(AllocError),
    }
}
