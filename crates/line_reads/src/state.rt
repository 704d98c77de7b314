//! Whether a machine may work, by the lists of a file.

ghost use Rattle.std.specs.Prelude.{IfOk};
ghost use Rattle.sqlite_wal.specs.Files.{image_at};
ghost use Rattle.desk_types.specs.Desk.{HasRoom};
ghost use Rattle.desk_commands.specs.Ends.{ReportEnds};
ghost use Rattle.desk_commands.specs.Told.{TellsLine, unavailable_line};
ghost use Rattle.desk_commands.specs.Wires.{HaveFewFailures};
ghost use Rattle.feeder_state.specs.State.{Represents};
ghost use Rattle.line_reads.specs.Ends.{AnswersBy, AnswersState, HasNoLine, json_told};
ghost use Rattle.line_reads.specs.Reading.{KeepsFile};

use crate::fault::tell_fault;
use crate::opening::read_file;
use crate::texts::tell_json;
use desk_commands::unavailable;
use desk_types::{Id, Text, Wire};
use feeder_state::StateDesk;
use http_stream::Status;
use line_answers::{Kind, Point, not_found_text, state_text};
use line_file::Line;
use sqlite::{FileFrom, Files, Start};
use sqlite_disk::Disk;
use std::alloc::{AllocError, Global};
use std::io::Write;

/// Prints whether a machine may work, by both lists of a file, and each cause why not; or that no sheet is for it, with
/// status 1. Returns the exit status, and the file, closed.
pub fn tell_state<T: Start, W: Write, E: Write>(
    rt: &HostRuntime,
    path: &str,
    start: T,
    machine: &Id,
    output: &mut Wire<W>,
    errors: &mut Wire<E>,
) -> (u8, Option<Files<FileFrom<T>>>)
    requires few { HaveFewFailures output.old errors.old }
    // The text is exactly that of the two lists that the file held when it was opened.
    ensures ends { ReportEnds W.contents E.contents output.old output.new errors.old errors.new
        (AnswersState ⟦<FileFrom<T> as Disk>⟧ (image_at T.Start) result.1 machine.now)
        (HasNoLine ⟦<FileFrom<T> as Disk>⟧ (image_at T.Start) result.1 E.contents errors.old
        errors.new) result.0 }
    // Nothing of the file changes.
    ensures kept { KeepsFile ⟦<FileFrom<T> as Disk>⟧ (image_at T.Start) result.1 }
{
    let (line, files) = read_file(rt, path, start, false);
    match line {
        Ok(line) => (
            tell_answer(rt.alloc(), &line, machine, output, errors),
            files,
        ),
        Err(fault) => (tell_fault(rt.alloc(), &fault, errors), files),
    }
}

fn tell_answer<W: Write, E: Write>(
    alloc: Global,
    line: &Line<StateDesk>,
    machine: &Id,
    output: &mut Wire<W>,
    errors: &mut Wire<E>,
) -> u8
    requires few { HaveFewFailures output.old errors.old }
    requires room { HasRoom Represents line.now.desk 0 }
    ensures ends { ReportEnds W.contents E.contents output.old output.new errors.old errors.new
        (AnswersBy line.now machine.now)
        (TellsLine E.contents errors.old errors.new unavailable_line) result }
{
    match answer_of(alloc, line, machine) {
        Ok((status, text)) => {
            let shown = text.as_slice();
            tell_json(status, shown, output, errors)
        }
        Err(AllocError) => unavailable(errors),
    }
}

/// Returns the status and the text of the answer about a machine, by both lists of a line.
fn answer_of(
    alloc: Global,
    line: &Line<StateDesk>,
    machine: &Id,
) -> Result<(Status, Text), AllocError>
    requires { HasRoom Represents line.now.desk 0 }
    ensures { IfOk result (λ answer. AnswersBy line.now machine.now (json_told answer.0 answer.1)) }
{
    let point = Point {
        number: u64::from(line.commands),
        board: line.lists.guard.board_on(machine),
    };
    match state_text(alloc, &line.desk, &line.lists.guard, machine, &point)? {
        Some(text) => Ok((Status::Ok, text)),
        None => Ok((Status::NotFound, not_found_text(alloc, Kind::Machine)?)),
    }
}
