//! The book of a file.

ghost use Rattle.std.specs.Prelude.{◌≡◌, ◌⊎◌, ℕ, List, IfOk};
ghost use Rattle.sqlite_wal.specs.Files.{image_at};
ghost use Rattle.desk_commands.specs.Ends.{PrintEnds};
ghost use Rattle.desk_commands.specs.Told.{TellsLine, unavailable_line};
ghost use Rattle.desk_commands.specs.Wires.{HaveFewFailures};
ghost use Rattle.line_reads.specs.Ends.{HasNoLine, IsBook, IsBookBy};
ghost use Rattle.line_reads.specs.Reading.{KeepsFile};

use crate::fault::tell_fault;
use crate::opening::read_file;
use crate::texts::tell_csv;
use desk_commands::unavailable;
use desk_types::{Text, Wire};
use feeder_state::StateDesk;
use line_answers::{Wanted, book_text};
use line_file::Line;
use sqlite::{FileFrom, Files, Start};
use sqlite_disk::Disk;
use std::alloc::{AllocError, Global};
use std::io::Write;

/// Prints all entries of a file's book as CSV, and what each still asks for. Returns the exit status, and the file,
/// closed.
pub fn tell_book<T: Start, W: Write, E: Write>(
    rt: &HostRuntime,
    path: &str,
    start: T,
    output: &mut Wire<W>,
    errors: &mut Wire<E>,
) -> (u8, Option<Files<FileFrom<T>>>)
    requires few { HaveFewFailures output.old errors.old }
    // The text is exactly that of the two lists that the file held when it was opened. Status 4: it could not be printed.
    ensures ends { (text : List ℕ)
        × PrintEnds W.contents E.contents output.old output.new errors.old errors.new text
        (HasNoLine ⟦<FileFrom<T> as Disk>⟧ (image_at T.Start) result.1 E.contents errors.old
        errors.new) result.0
        × ((result.0 ≡ 0) ⊎ (result.0 ≡ 4)
        → IsBook ⟦<FileFrom<T> as Disk>⟧ (image_at T.Start) result.1 text) }
    // Nothing of the file changes.
    ensures kept { KeepsFile ⟦<FileFrom<T> as Disk>⟧ (image_at T.Start) result.1 }
{
    let (line, files) = read_file(rt, path, start, true);
    match line {
        Ok(line) => (tell_rows(rt.alloc(), &line, output, errors), files),
        Err(fault) => (tell_fault(rt.alloc(), &fault, errors), files),
    }
}

fn tell_rows<W: Write, E: Write>(
    alloc: Global,
    line: &Line<StateDesk>,
    output: &mut Wire<W>,
    errors: &mut Wire<E>,
) -> u8
    requires few { HaveFewFailures output.old errors.old }
    ensures ends { (text : List ℕ)
        × PrintEnds W.contents E.contents output.old output.new errors.old errors.new text
        (TellsLine E.contents errors.old errors.new unavailable_line) result
        × ((result ≡ 0) ⊎ (result ≡ 4) → IsBookBy line.now text) }
{
    match rows_text(alloc, line) {
        Ok(text) => tell_csv(text.as_slice(), output, errors),
        Err(AllocError) => unavailable(errors),
    }
}

fn rows_text(alloc: Global, line: &Line<StateDesk>) -> Result<Text, AllocError>
    ensures { IfOk result (IsBookBy line.now) }
{
    let guard = &line.lists.guard;
    book_text(
        alloc,
        line.rows.as_slice(),
        guard.open_notes(),
        guard.undecided(),
        Wanted::After(0),
    )
}
