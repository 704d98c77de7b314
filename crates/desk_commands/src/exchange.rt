//! Messages and files, answered by a desk in memory or in a file.

ghost use Rattle.std.specs.Prelude.{◌≡◌, ◌+◌, ◌≤◌, ◌||◌, None, Some};
ghost use Rattle.desk_types.specs.declared.limits.TheConstants.{MOST_ENTRIES, MOST_READS};
ghost use Rattle.desk_types.specs.Wire.{reads_of};
ghost use Rattle.line_schema.specs.declared.fault.OpenFault.TheVariants.{Unavailable};
ghost use Rattle.desk_file.specs.Opened.{has_opened};
ghost use Rattle.desk_commands.specs.Closed.{is_left_open};
ghost use Rattle.desk_commands.specs.Ends.{FeedEnds, ImportEnds};
ghost use Rattle.desk_commands.specs.OpenRuns.{StaysSame};
ghost use Rattle.desk_commands.specs.Told.{TellsLine};
ghost use Rattle.desk_commands.specs.Wires.{HaveFewCounts, HaveFewFailures};
ghost use Rattle.desk_commands.specs.Runs.{HasNoDesk, LeavesDesk, Refuses, RunsInMemory, RunsOn, refusal_line};

use crate::exit::unavailable;
use crate::import::import_rows;
use crate::left::ToClose;
use crate::lines::feed_lines;
use crate::refusal::tell_refusal;
use desk_feed::Folder;
use desk_file::{FileOpener, in_memory, open_desk};
use desk_types::Wire;
use feeder_state::StateDesk;
use imports::Import;
use sqlite::{FileFrom, Start};
use std::alloc::Global;
use std::io::{Read, Write};

/// Answers the lines of the input by a new desk in memory. Returns the exit status.
pub fn feed_in_memory<R: Read, W: Write, E: Write>(
    alloc: Global,
    greatest: u32,
    input: &mut Wire<R>,
    output: &mut Wire<W>,
    errors: &mut Wire<E>,
) -> u8
    requires least { 1 ≤ greatest }
    requires most { greatest ≤ MOST_ENTRIES }
    // The program counts reads and failures in numbers that must not overflow.
    requires few { HaveFewCounts input.old output.old errors.old }
    ensures ends { FeedEnds R.remaining W.contents E.contents
        input.old input.new output.old output.new errors.old errors.new
        (RunsInMemory greatest)
        (TellsLine E.contents errors.old errors.new (refusal_line Unavailable)) result }
    // By this bound a caller shows that the count of reads didn't overflow.
    ensures few_reads { reads_of input.new ≤ reads_of input.old + MOST_READS }
{
    match in_memory::<StateDesk>(alloc, greatest) {
        Ok(store) => {
            let mut store = store;
            let status = feed_lines(alloc, input, output, errors, &mut store);
            // It is closed here: a drop would need a proof of how each part of the store is dropped.
            let _ = store.into_connection().close();
            status
        }
        Err(_) => unavailable(errors),
    }
}

/// Answers the lines of the input by the desk in a file, which is made if missing. Returns the exit status, and the
/// desk or the refused file.
pub fn feed_in_file<T: Start, R: Read, W: Write, E: Write>(
    rt: &HostRuntime,
    file: &str,
    opener: &mut FileOpener<T>,
    greatest: u32,
    input: &mut Wire<R>,
    output: &mut Wire<W>,
    errors: &mut Wire<E>,
) -> (u8, ToClose<FileFrom<T>>)
    requires range { (1 ≤ greatest) × (greatest ≤ MOST_ENTRIES) }
    requires few { HaveFewCounts input.old output.old errors.old }
    // For each way to end: what was read, written and told, and the status.
    ensures ends { FeedEnds R.remaining W.contents E.contents
        input.old input.new output.old output.new errors.old errors.new
        (RunsOn T.Start (Some greatest) result.1)
        (HasNoDesk (Refuses T.Start (Some greatest) result.1) ⊥
        (TellsLine E.contents errors.old errors.new)) result.0 }
    // The desk isn't closed here: its caller does it, and tells when that fails.
    ensures left { LeavesDesk result.1 }
    ensures told { has_opened opener.new ≡ (is_left_open result.1 || has_opened opener.old) }
    ensures few_reads { reads_of input.new ≤ reads_of input.old + MOST_READS }
{
    match open_desk::<T, StateDesk>(rt, file, opener, Some(greatest)) {
        Ok(store) => {
            let mut store = store;
            let status = feed_lines(rt.alloc(), input, output, errors, &mut store);
            (status, ToClose::Desk(store))
        }
        Err(refusal) => (
            tell_refusal(rt.alloc(), &refusal.fault, errors),
            ToClose::Refused(refusal),
        ),
    }
}

/// Answers an import by the desk in a file. Returns the exit status, and the desk or the refused file.
pub fn import_in_file<T: Start, F: Folder, W: Write, E: Write>(
    rt: &HostRuntime,
    file: &str,
    opener: &mut FileOpener<T>,
    import: &Import,
    folder: &F,
    from: &str,
    output: &mut Wire<W>,
    errors: &mut Wire<E>,
) -> (u8, ToClose<FileFrom<T>>)
    requires few { HaveFewFailures output.old errors.old }
    ensures ends { ImportEnds W.contents E.contents output.old output.new errors.old errors.new
        import.now (F.holds folder.now from.now) (F.may_fail folder.now from.now)
        (RunsOn T.Start None result.1)
        (HasNoDesk (Refuses T.Start None result.1) (RunsOn T.Start None result.1 StaysSame)
        (TellsLine E.contents errors.old errors.new)) result.0 }
    // The desk isn't closed here: its caller does it, and tells when that fails.
    ensures left { LeavesDesk result.1 }
    ensures told { has_opened opener.new ≡ (is_left_open result.1 || has_opened opener.old) }
{
    let opened = open_desk::<T, StateDesk>(rt, file, opener, None);
    match opened {
        Ok(store) => {
            let mut store = store;
            let status = import_rows(rt.alloc(), &mut store, import, folder, from, output, errors);
            (status, ToClose::Desk(store))
        }
        Err(refusal) => (
            tell_refusal(rt.alloc(), &refusal.fault, errors),
            ToClose::Refused(refusal),
        ),
    }
}
