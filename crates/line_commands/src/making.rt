//! The lists of a new file.

ghost use Rattle.std.specs.Prelude.{◌≡◌, ◌⊎◌, ℕ};
ghost use Rattle.sqlite_wal.specs.Files.{image_at};
ghost use Rattle.desk_commands.specs.Ends.{PrintEnds};
ghost use Rattle.desk_commands.specs.Told.{TellsLine, unavailable_line};
ghost use Rattle.desk_commands.specs.Wires.{HaveFewFailures};
ghost use Rattle.line_reads.specs.Ends.{counts_line};
ghost use Rattle.line_commands.specs.Noting.{AreCounts, AreCountsOf, HasNoEntry};
ghost use Rattle.line_commands.specs.Serving.{ServesLists};

use crate::left::LineLeft;
use crate::lists::open_lists;
use book_store::BookStore;
use desk_commands::unavailable;
use desk_types::Wire;
use line_reads::{tell_counts, tell_fault};
use sqlite::{Alter, FileFrom, Start};
use state_rows::KeepsRows;
use std::alloc::Global;
use std::io::Write;

/// Makes both lists of a file if they are missing, and prints the number of both. A file that has them stays. Returns
/// the exit status, and what is open of the file.
pub fn make_in_file<T: Start, W: Write, E: Write>(
    rt: &HostRuntime,
    file: &str,
    start: T,
    output: &mut Wire<W>,
    errors: &mut Wire<E>,
) -> (u8, LineLeft<FileFrom<T>>)
    requires few { HaveFewFailures output.old errors.old }
    // Status 4: the numbers could not be printed.
    ensures ends { (commands : ℕ) × (entries : ℕ)
        × PrintEnds W.contents E.contents output.old output.new errors.old errors.new
        (counts_line commands entries)
        (HasNoEntry (image_at T.Start) result.1 E.contents errors.old errors.new) result.0
        × ((result.0 ≡ 0) ⊎ (result.0 ≡ 4)
        → ServesLists (image_at T.Start) result.1 (AreCounts commands entries)) }
{
    match open_lists(rt, file, start) {
        Ok(store) => {
            let status = tell_lists(rt.alloc(), &store, output, errors);
            (status, LineLeft::Lists(store))
        }
        Err((fault, left)) => (tell_fault(rt.alloc(), &fault, errors), left),
    }
}

fn tell_lists<S: Alter, D: KeepsRows + Drop, W: Write, E: Write>(
    alloc: Global,
    store: &BookStore<S, D>,
    output: &mut Wire<W>,
    errors: &mut Wire<E>,
) -> u8
    requires few { HaveFewFailures output.old errors.old }
    ensures ends { (commands : ℕ) × (entries : ℕ)
        × PrintEnds W.contents E.contents output.old output.new errors.old errors.new
        (counts_line commands entries)
        (TellsLine E.contents errors.old errors.new unavailable_line) result
        × ((result ≡ 0) ⊎ (result ≡ 4) → AreCountsOf S.Store D.Stands store.now commands entries) }
{
    match store.counts() {
        Ok(counts) => tell_counts(alloc, counts.commands, counts.entries, output, errors),
        Err(_) => unavailable(errors),
    }
}
