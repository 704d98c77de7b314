//! A whole run of the program, over any file, clients and output.

ghost use Rattle.std.specs.Prelude.{◌≡◌, ◌⊎◌, ◌<◌, ◌^◌, map, string_bytes};
ghost use Rattle.sqlite_wal.specs.Files.{image_at};
ghost use Rattle.desk_types.specs.Wire.{failures_of};
ghost use Rattle.desk_commands.specs.Clients.{ServesAt};
ghost use Rattle.line_reads.specs.Reading.{KeepsFile};
ghost use Rattle.line_words.specs.declared.command_line.Task.TheVariants.{Make};
ghost use Rattle.tracedesk_line.specs.Run.{AsksToChange, AsksToServe, ClosesAs, Ends, EndsTask, HaveRoom};

use desk_commands::{Clients, Exit, send_text, tell, unavailable};
use desk_types::Wire;
use line_commands::{LineLeft, close_line, make_in_file, note_in_file, serve_in_file};
use line_reads::{audit_lists, tell_book, tell_doubts, tell_state};
use line_words::{LineCommand, Task, read_words};
use sqlite::{FileFrom, Files, Start};
use sqlite_disk::Disk;
use std::alloc::AllocError;
use std::io::Write;

/// Runs the program with these arguments. `T` is the content of the file when it is opened. Returns the exit status, and
/// the file, closed.
pub fn run<T: Start, C: Clients, W: Write, E: Write>(
    rt: &HostRuntime,
    words: &[String],
    start: T,
    clients: &mut C,
    output: &mut Wire<W>,
    errors: &mut Wire<E>,
) -> (u8, Option<Files<FileFrom<T>>>)
    requires room { HaveRoom output.old errors.old }
    ensures ends { Ends ⟦<FileFrom<T> as Disk>⟧ (image_at T.Start)
        (ServesAt C.Saw clients.old clients.new) W.contents E.contents
        (map string_bytes words.now) output.old output.new errors.old errors.new result.1
        result.0 }
    // Only `serve`, `make` and `note` change a file.
    ensures kept { AsksToChange (map string_bytes words.now)
        ⊎ KeepsFile ⟦<FileFrom<T> as Disk>⟧ (image_at T.Start) result.1 }
    // Only `serve` waits for clients.
    ensures clients { AsksToServe (map string_bytes words.now) ⊎ (clients.new ≡ clients.old) }
{
    match read_words(rt.alloc(), words) {
        Ok(
            LineCommand::Serve {
                file,
                port,
                connections,
            },
        ) => {
            let (status, left) = serve_in_file(
                rt,
                file.as_str(),
                start,
                clients,
                port,
                connections,
                output,
                errors,
            );
            close_after(status, left, errors)
        }
        Ok(LineCommand::State { file, machine }) => {
            tell_state(rt, file.as_str(), start, &machine, output, errors)
        }
        Ok(LineCommand::Note { file, noted, told }) => {
            let (status, left) = note_in_file(
                rt,
                file.as_str(),
                start,
                noted,
                told.as_str(),
                output,
                errors,
            );
            close_after(status, left, errors)
        }
        Ok(LineCommand::Doubt { file, within }) => {
            tell_doubts(rt, file.as_str(), start, within, output, errors)
        }
        Ok(LineCommand::Whole { file, task }) => {
            do_task(rt, file.as_str(), task, start, output, errors)
        }
        Ok(LineCommand::Text(text)) => (send_text(text.as_str(), output, errors), None),
        Ok(LineCommand::Bad(text)) => {
            tell(errors, text.as_str());
            (Exit::BadCommandLine as u8, None)
        }
        Err(AllocError) => (unavailable(errors), None),
    }
}

/// Does this with both lists of a file. Returns the exit status, and the file, closed.
fn do_task<T: Start, W: Write, E: Write>(
    rt: &HostRuntime,
    file: &str,
    task: Task,
    start: T,
    output: &mut Wire<W>,
    errors: &mut Wire<E>,
) -> (u8, Option<Files<FileFrom<T>>>)
    requires room { HaveRoom output.old errors.old }
    ensures ends { EndsTask ⟦<FileFrom<T> as Disk>⟧ (image_at T.Start) W.contents E.contents
        output.old output.new errors.old errors.new result.1 result.0 task }
    ensures kept { (task ≡ Make) ⊎ KeepsFile ⟦<FileFrom<T> as Disk>⟧ (image_at T.Start) result.1 }
{
    match task {
        Task::Make => {
            let (status, left) = make_in_file(rt, file, start, output, errors);
            close_after(status, left, errors)
        }
        Task::Book => tell_book(rt, file, start, output, errors),
        Task::Audit => audit_lists(rt, file, start, output, errors),
    }
}

/// Closes what a command left open, after this status. If the close fails the status is 3 and Unavailable is printed,
/// unless a fault was printed with status 3 before; the answers remain.
fn close_after<T: Start, E: Write>(
    status: u8,
    left: LineLeft<FileFrom<T>>,
    errors: &mut Wire<E>,
) -> (u8, Option<Files<FileFrom<T>>>)
    requires few { failures_of errors.old < 2 ^ 63 }
    ensures { ClosesAs E.contents status left errors.old errors.new result.1 result.0 }
{
    match close_line(left) {
        Ok(files) => (status, files),
        Err(files) if status == Exit::NoDesk as u8 => (status, files),
        Err(files) => (unavailable(errors), files),
    }
}
