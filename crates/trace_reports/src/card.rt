//! The card of a reel.

ghost use Rattle.std.specs.Prelude.{◌≡◌, IfOk};
ghost use Rattle.desk_types.specs.History.{Basis};
ghost use Rattle.desk_types.specs.Level.{text_of};
ghost use Rattle.trace_reports.specs.Card.{state_text, reel_card};

use crate::report::{CsvReport, TextWriter, csv_text, write_fields};
use crate::shown::left_text;
use desk_types::{Desk, Id, ReelView, Text};
use itoa::Buffer;
use std::alloc::{AllocError, Global};

fn state_text(view: &ReelView) -> &str
    ensures { result.now ≡ state_text view.now }
{
    if view.mounted {
        "mounted"
    } else if view.is_open {
        "open"
    } else {
        "sealed"
    }
}

fn level_text(view: &ReelView) -> &str
    ensures { result.now ≡ text_of view.now.level }
{
    view.level.as_str()
}

struct ReelCard;

impl CsvReport<ReelView> for ReelCard {
    ghost use Rattle.trace_reports.specs.Card.{card_header, card_fields};

    ghost header = { λ _. card_header };

    ghost fields = { λ _. card_fields };

    fn write_header(&self, writer: &mut TextWriter) -> Result<(), AllocError> {
        write_fields(
            writer,
            &[
                b"reel",
                b"part",
                b"lot",
                b"level",
                b"received",
                b"placed",
                b"scrapped",
                b"remaining",
                b"minutes_left",
                b"state",
            ],
        )
    }

    fn write_row(&self, row: &ReelView, writer: &mut TextWriter) -> Result<(), AllocError> {
        write_fields(
            writer,
            &[
                row.reel.as_bytes(),
                row.part.as_bytes(),
                row.lot.as_bytes(),
                level_text(row).as_bytes(),
                Buffer::new().format(row.received).as_bytes(),
                Buffer::new().format(row.placed).as_bytes(),
                Buffer::new().format(row.scrapped).as_bytes(),
                Buffer::new().format(row.remaining).as_bytes(),
                left_text(row.left, &mut Buffer::new()).as_bytes(),
                state_text(row).as_bytes(),
            ],
        )
    }
}

/// Returns the reel's card at the desk minute: its receipt, pieces and floor life, or none if it
/// wasn't received.
pub fn reel_card<D: Desk>(alloc: Global, desk: &D, reel: &Id) -> Result<Option<Text>, AllocError>
    ensures { (B : Basis) → D.Stands desk.now B
        → IfOk result (λ text. text ≡ reel_card B.history reel.now) }
{
    match desk.reel(reel) {
        Some(view) => Ok(Some(csv_text(alloc, &ReelCard, &[view])?)),
        None => Ok(None),
    }
}
