//! The slot list of a machine.

ghost use Rattle.std.specs.Prelude.{◌≡◌, IfOk};
ghost use Rattle.desk_types.specs.History.{Basis};
ghost use Rattle.trace_reports.specs.Slots.{slot_list};

use crate::report::{CsvReport, TextWriter, csv_text, write_fields};
use crate::shown::left_text;
use desk_types::{Desk, Id, Mount, Text};
use itoa::Buffer;
use std::alloc::{AllocError, Global};

struct SlotList;

impl CsvReport<Mount> for SlotList {
    ghost use Rattle.trace_reports.specs.Slots.{slots_header, slot_fields};

    ghost header = { λ _. slots_header };

    ghost fields = { λ _. slot_fields };

    fn write_header(&self, writer: &mut TextWriter) -> Result<(), AllocError> {
        write_fields(
            writer,
            &[
                b"slot",
                b"position",
                b"reel",
                b"part",
                b"lot",
                b"remaining",
                b"minutes_left",
            ],
        )
    }

    fn write_row(&self, row: &Mount, writer: &mut TextWriter) -> Result<(), AllocError> {
        write_fields(
            writer,
            &[
                row.slot.as_bytes(),
                Buffer::new().format(row.position).as_bytes(),
                row.reel.as_bytes(),
                row.part.as_bytes(),
                row.lot.as_bytes(),
                Buffer::new().format(row.remaining).as_bytes(),
                left_text(row.left, &mut Buffer::new()).as_bytes(),
            ],
        )
    }
}

/// Returns the machine's live reels by slot and position, with the front at position 1, or none if
/// no sheet is for the machine.
pub fn slot_list<D: Desk>(alloc: Global, desk: &D, machine: &Id) -> Result<Option<Text>, AllocError>
    ensures { (B : Basis) → D.Stands desk.now B
        → IfOk result (λ text. text ≡ slot_list B.history machine.now) }
{
    match desk.slots_of(machine)? {
        Some(mounts) => Ok(Some(csv_text(alloc, &SlotList, mounts.as_slice())?)),
        None => Ok(None),
    }
}
