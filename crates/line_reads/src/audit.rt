//! The audit of a file.

ghost use Rattle.std.specs.Prelude.{◌≡◌, ◌⊎◌, ℕ};
ghost use Rattle.sqlite_wal.specs.Files.{image_at};
ghost use Rattle.desk_commands.specs.Ends.{PrintEnds};
ghost use Rattle.desk_commands.specs.Wires.{HaveFewFailures};
ghost use Rattle.line_reads.specs.Ends.{Counts, HasNoLine, counts_line};
ghost use Rattle.line_reads.specs.Reading.{KeepsFile};

use crate::fault::tell_fault;
use crate::opening::read_file;
use crate::texts::tell_counts;
use desk_types::Wire;
use sqlite::{FileFrom, Files, Start};
use sqlite_disk::Disk;
use std::io::Write;

/// Judges each command of a file again, checks each entry of its book, and prints the number of both, or the first fault.
/// A file without a book has an empty one. Returns the exit status, and the file, closed.
pub fn audit_lists<T: Start, W: Write, E: Write>(
    rt: &HostRuntime,
    path: &str,
    start: T,
    output: &mut Wire<W>,
    errors: &mut Wire<E>,
) -> (u8, Option<Files<FileFrom<T>>>)
    requires few { HaveFewFailures output.old errors.old }
    // Status 4: the numbers could not be printed.
    ensures ends { (commands : ℕ) × (entries : ℕ)
        × PrintEnds W.contents E.contents output.old output.new errors.old errors.new
        (counts_line commands entries)
        (HasNoLine ⟦<FileFrom<T> as Disk>⟧ (image_at T.Start) result.1 E.contents errors.old
        errors.new) result.0
        × ((result.0 ≡ 0) ⊎ (result.0 ≡ 4)
        → Counts ⟦<FileFrom<T> as Disk>⟧ (image_at T.Start) result.1 commands entries) }
    // Nothing of the file changes.
    ensures kept { KeepsFile ⟦<FileFrom<T> as Disk>⟧ (image_at T.Start) result.1 }
{
    let (line, files) = read_file(rt, path, start, false);
    match line {
        Ok(line) => {
            let entries = line.lists.reading.entries;
            let status = tell_counts(rt.alloc(), line.commands, entries, output, errors);
            (status, files)
        }
        Err(fault) => (tell_fault(rt.alloc(), &fault, errors), files),
    }
}
