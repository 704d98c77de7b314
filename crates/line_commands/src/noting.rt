//! What somebody decides, holds or releases, in the book of a file that nobody serves.

ghost use Rattle.sqlite.specs.State.{HasCleanDisk};
ghost use Rattle.sqlite_wal.specs.Files.{image_at};
ghost use Rattle.http_stream.specs.Stream.{ForStates};
ghost use Rattle.desk_commands.specs.Ends.{ReportEnds};
ghost use Rattle.desk_commands.specs.Wires.{HaveFewFailures};
ghost use Rattle.book_store.specs.Lists.{Serves, book_state};
ghost use Rattle.line_http.specs.Line.{Represents};
ghost use Rattle.line_commands.specs.Noting.{HasNoEntry, IsSaid, StaysSame};
ghost use Rattle.line_commands.specs.Serving.{ServesLists};

use crate::left::LineLeft;
use crate::lists::open_lists;
use book_store::BookStore;
use desk_commands::unavailable;
use desk_types::Wire;
use line_answers::Noted;
use line_http::answer_saying;
use line_reads::{tell_fault, tell_json};
use sqlite::{Alter, FileFrom, Start};
use state_rows::KeepsRows;
use std::alloc::Global;
use std::io::Write;

/// Writes what somebody says into the book of a file, which is made if missing, and prints the answer of the line's
/// route. Returns the exit status, and what is open of the file.
pub fn note_in_file<T: Start, W: Write, E: Write>(
    rt: &HostRuntime,
    file: &str,
    start: T,
    noted: Noted,
    told: &str,
    output: &mut Wire<W>,
    errors: &mut Wire<E>,
) -> (u8, LineLeft<FileFrom<T>>)
    requires few { HaveFewFailures output.old errors.old }
    // Status 1: what was said isn't taken, and the answer says why. Then both lists stay.
    ensures ends { ReportEnds W.contents E.contents output.old output.new errors.old errors.new
        (λ answer. ServesLists (image_at T.Start) result.1 (IsSaid noted told.now answer))
        (HasNoEntry (image_at T.Start) result.1 E.contents errors.old errors.new) result.0 }
{
    match open_lists(rt, file, start) {
        Ok(store) => {
            let mut store = store;
            let status = tell_saying(rt.alloc(), &mut store, noted, told, output, errors);
            (status, LineLeft::Lists(store))
        }
        Err((fault, left)) => (tell_fault(rt.alloc(), &fault, errors), left),
    }
}

/// The same by a store of both lists.
fn tell_saying<S: Alter, D: KeepsRows + Drop, W: Write, E: Write>(
    alloc: Global,
    store: &mut BookStore<S, D>,
    noted: Noted,
    told: &str,
    output: &mut Wire<W>,
    errors: &mut Wire<E>,
) -> u8
    requires few { HaveFewFailures output.old errors.old }
    requires serves { Serves S.Store D.Stands store.old }
    ensures ends { ReportEnds W.contents E.contents output.old output.new errors.old errors.new
        (λ answer. ForStates (Represents S.Store D.Stands)
        (λ kept. HasCleanDisk (book_state S.Store kept)) store.old store.new
        (IsSaid noted told.now answer))
        (StaysSame S.Store D.Stands store.old store.new E.contents errors.old errors.new) result }
{
    match answer_saying(alloc, store, noted, told.as_bytes()) {
        Ok(response) => tell_json(response.status, response.body.as_slice(), output, errors),
        Err(_) => unavailable(errors),
    }
}
