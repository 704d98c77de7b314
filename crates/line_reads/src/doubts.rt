//! The pieces in doubt of a file.

ghost use Rattle.std.specs.Prelude.{◌≡◌, ◌⊎◌, ℕ, List};
ghost use Rattle.sqlite_wal.specs.Files.{image_at};
ghost use Rattle.desk_commands.specs.Ends.{PrintEnds};
ghost use Rattle.desk_commands.specs.Told.{TellsLine, unavailable_line};
ghost use Rattle.desk_commands.specs.Wires.{HaveFewFailures};
ghost use Rattle.line_reads.specs.Doubts.{IsOfDoubts, doubts_text, number_of, word_of};
ghost use Rattle.line_reads.specs.Ends.{HasNoLine};
ghost use Rattle.line_reads.specs.Reading.{KeepsFile};

use crate::fault::tell_fault;
use crate::opening::find_doubts;
use crate::texts::tell_csv;
use desk_commands::unavailable;
use desk_types::Wire;
use itoa::Buffer;
use line_doubt::{Doubt, Reason};
use sqlite::{FileFrom, Files, Start};
use sqlite_disk::Disk;
use std::alloc::{AllocError, Global};
use std::io::Write;
use trace_reports::{CsvReport, TextWriter, csv_text, write_fields};

/// Prints the placed pieces that may be from another reel as CSV, each with its first reason, with a tolerance of so
/// many pieces at each splice. Returns the exit status, and the file, closed.
pub fn tell_doubts<T: Start, W: Write, E: Write>(
    rt: &HostRuntime,
    path: &str,
    start: T,
    within: u32,
    output: &mut Wire<W>,
    errors: &mut Wire<E>,
) -> (u8, Option<Files<FileFrom<T>>>)
    requires few { HaveFewFailures output.old errors.old }
    // The pieces are those in doubt by the two lists that the file held when it was opened. Status 4: they could not be
    // printed.
    ensures ends { (text : List ℕ)
        × PrintEnds W.contents E.contents output.old output.new errors.old errors.new text
        (HasNoLine ⟦<FileFrom<T> as Disk>⟧ (image_at T.Start) result.1 E.contents errors.old
        errors.new) result.0
        × ((result.0 ≡ 0) ⊎ (result.0 ≡ 4)
        → IsOfDoubts within ⟦<FileFrom<T> as Disk>⟧ (image_at T.Start) result.1 text) }
    // Nothing of the file changes.
    ensures kept { KeepsFile ⟦<FileFrom<T> as Disk>⟧ (image_at T.Start) result.1 }
{
    let (found, files) = find_doubts(rt, path, start, within);
    match found {
        Ok(found) => (tell_pieces(rt.alloc(), &found, output, errors), files),
        Err(fault) => (tell_fault(rt.alloc(), &fault, errors), files),
    }
}

fn tell_pieces<W: Write, E: Write>(
    alloc: Global,
    found: &[Doubt],
    output: &mut Wire<W>,
    errors: &mut Wire<E>,
) -> u8
    requires few { HaveFewFailures output.old errors.old }
    ensures ends { PrintEnds W.contents E.contents output.old output.new errors.old errors.new
        (doubts_text found.now) (TellsLine E.contents errors.old errors.new unavailable_line)
        result }
{
    match csv_text(alloc, &DoubtList, found) {
        Ok(text) => tell_csv(text.as_slice(), output, errors),
        Err(AllocError) => unavailable(errors),
    }
}

struct DoubtList;

impl CsvReport<Doubt> for DoubtList {
    ghost use Rattle.line_reads.specs.Doubts.{doubt_fields, doubt_header};

    ghost header = { λ _. doubt_header };

    ghost fields = { λ _. doubt_fields };

    fn write_header(&self, writer: &mut TextWriter) -> Result<(), AllocError> {
        write_fields(
            writer,
            &[
                b"number",
                b"place",
                b"board",
                b"designator",
                b"part",
                b"lot",
                b"reel",
                b"machine",
                b"slot",
                b"minute",
                b"reason",
                b"of",
            ],
        )
    }

    fn write_row(&self, row: &Doubt, writer: &mut TextWriter) -> Result<(), AllocError> {
        write_fields(
            writer,
            &[
                Buffer::new().format(row.piece.number).as_bytes(),
                Buffer::new().format(row.piece.place).as_bytes(),
                row.piece.board.as_bytes(),
                row.piece.designator.as_bytes(),
                row.piece.part.as_bytes(),
                row.piece.lot.as_bytes(),
                row.piece.reel.as_bytes(),
                row.piece.machine.as_bytes(),
                row.piece.slot.as_bytes(),
                Buffer::new().format(row.piece.effective.get()).as_bytes(),
                word_of(&row.reason).as_bytes(),
                Buffer::new().format(number_of(&row.reason)).as_bytes(),
            ],
        )
    }
}

fn word_of(reason: &Reason) -> &str
    ensures { result.now ≡ word_of reason.now }
{
    match reason {
        Reason::Entry { number: _ } => "entry",
        Reason::Boundary { number: _ } => "boundary",
        Reason::Late { number: _ } => "late",
        Reason::Splice => "splice",
    }
}

fn number_of(reason: &Reason) -> u64
    ensures { result ≡ number_of reason.now }
{
    match reason {
        Reason::Entry { number } => *number,
        Reason::Boundary { number } => *number,
        Reason::Late { number } => *number,
        Reason::Splice => 0,
    }
}
