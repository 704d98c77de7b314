//! Records in the default format of the crate `csv`.
//!
//! Fields are separated by commas, and each record ends with a line feed. A field with a comma,
//! quote or line end is quoted, with its quotes doubled, so readers of RFC 4180 restore it.

ghost use Rattle.std.specs.Prelude.{◌≡◌, List, ℕ, [], ◌++◌, map, IfOk, OnOk};
ghost use Rattle.line_answers.specs.Csv.{record_text, HasWritten};

use csv::{Writer, WriterBuilder};
use desk_types::{Listing, Text};
use std::alloc::{AllocError, Global};

/// Writes records to memory.
pub type TextWriter = Writer<Vec<u8>>;

/// Returns a writer that has written nothing.
pub fn text_writer(alloc: Global) -> TextWriter
    ensures { HasWritten result [] }
{
    WriterBuilder::new().from_writer(Vec::new(alloc))
}

/// Writes these fields as a record. After an `Err` the writer is unusable.
pub fn write_fields(writer: &mut TextWriter, fields: &[&[u8]]) -> Result<(), AllocError>
    ensures { (text : List ℕ) → HasWritten writer.old text
        → OnOk result (HasWritten writer.new (text ++ record_text (map (λ f. f.now) fields.now))) }
{
    match writer.write_fields(fields) {
        Ok(()) => Ok(()),
        Err(_) => Err(AllocError),
    }
}

/// Returns what was written.
pub fn text_of(writer: TextWriter) -> Result<Text, AllocError>
    ensures { (text : List ℕ) → HasWritten writer text → IfOk result (λ told. told ≡ text) }
{
    match writer.into_inner() {
        Ok(text) => Ok(Listing::new(text)),
        Err(_) => Err(AllocError),
    }
}
