//! The traces of boards and lots, and the overdue list.

ghost use Rattle.std.specs.Prelude.{◌≡◌, IfOk, map};
ghost use Rattle.trace_reports.specs.Csv.{csv_text};
ghost use Rattle.trace_reports.specs.Traces.{board_text, lot_text, overdue_text};
ghost use Rattle.trace_reports.specs.Sets.{bytes_of};

use crate::records::{Record, board_header, board_rows, lot_header, lot_rows};
use crate::report::{CsvReport, TextWriter, csv_text, write_fields};
use csv::WriterBuilder;
use desk_types::{Listing, Placement, Text, TraceDetail};
use itoa::Buffer;
use std::alloc::{AllocError, Global};
use std::collections::BTreeSet;

fn text_of_set(
    alloc: Global,
    header: &[&[u8]],
    rows: &BTreeSet<Record<'_>>,
) -> Result<Text, AllocError>
    ensures { IfOk result (λ text. text
        ≡ csv_text (bytes_of header.now) (map (λ r. bytes_of r.items) rows.now.keys)) }
{
    let mut writer = WriterBuilder::new().from_writer(Vec::new(alloc));
    write_fields(&mut writer, header)?;
    for row in rows {
        write_fields(&mut writer, row.as_slice())?;
    }
    match writer.into_inner() {
        Ok(text) => Ok(Listing::new(text)),
        Err(_) => Err(AllocError),
    }
}

/// Returns a board's trace from its pieces.
pub fn board_text(
    alloc: Global,
    detail: TraceDetail,
    pieces: &[Placement],
) -> Result<Text, AllocError>
    ensures { IfOk result (λ text. text ≡ board_text detail pieces.now) }
{
    let rows = board_rows(alloc, detail, pieces)?;
    text_of_set(alloc, board_header(detail), &rows)
}

/// Returns a lot's trace from its pieces.
pub fn lot_text(
    alloc: Global,
    detail: TraceDetail,
    pieces: &[Placement],
) -> Result<Text, AllocError>
    ensures { IfOk result (λ text. text ≡ lot_text detail pieces.now) }
{
    let rows = lot_rows(alloc, detail, pieces)?;
    text_of_set(alloc, lot_header(detail), &rows)
}

struct OverdueList;

impl CsvReport<Placement> for OverdueList {
    ghost use Rattle.trace_reports.specs.Traces.{overdue_header, overdue_row};

    ghost header = { λ _. overdue_header };

    ghost fields = { λ _. overdue_row };

    fn write_header(&self, writer: &mut TextWriter) -> Result<(), AllocError> {
        write_fields(writer, &[b"board", b"designator", b"reel", b"minute"])
    }

    fn write_row(&self, row: &Placement, writer: &mut TextWriter) -> Result<(), AllocError> {
        write_fields(
            writer,
            &[
                row.board.as_bytes(),
                row.designator.as_bytes(),
                row.reel.as_bytes(),
                Buffer::new().format(row.effective.get()).as_bytes(),
            ],
        )
    }
}

/// Returns the list of overdue pieces. The caller passes them in order of install and place.
pub fn overdue_text(alloc: Global, pieces: &[Placement]) -> Result<Text, AllocError>
    ensures { IfOk result (λ text. text ≡ overdue_text pieces.now) }
{
    csv_text(alloc, &OverdueList, pieces)
}
