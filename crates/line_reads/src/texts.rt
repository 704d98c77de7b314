//! Texts of a file's lists on standard output.

ghost use Rattle.std.specs.Prelude.{◌≡◌};
ghost use Rattle.desk_commands.specs.Ends.{PrintEnds, ReportEnds};
ghost use Rattle.desk_commands.specs.Told.{TellsLine, unavailable_line};
ghost use Rattle.desk_commands.specs.Wires.{HaveFewFailures};
ghost use Rattle.line_reads.specs.Ends.{counts_line, json_told};

use desk_answers::{WriteFailed, send, send_line};
use desk_commands::{Exit, send_text, tell_line, unavailable};
use desk_types::Wire;
use http_stream::Status;
use std::alloc::Global;
use std::io::Write;

/// Prints the numbers of commands and entries. Returns the exit status.
pub fn tell_counts<W: Write, E: Write>(
    alloc: Global,
    commands: u32,
    entries: u32,
    output: &mut Wire<W>,
    errors: &mut Wire<E>,
) -> u8
    requires few { HaveFewFailures output.old errors.old }
    ensures ends { PrintEnds W.contents E.contents output.old output.new errors.old errors.new
        (counts_line commands entries) (TellsLine E.contents errors.old errors.new unavailable_line)
        result }
{
    match format!(in alloc; "lawful {commands} book {entries}\n") {
        Ok(line) => send_text(line.as_str(), output, errors),
        Err(_) => unavailable(errors),
    }
}

/// Prints the text of an answer. Returns the exit status: 1 for another than 200 OK.
pub fn tell_json<W: Write, E: Write>(
    status: Status,
    text: &[u8],
    output: &mut Wire<W>,
    errors: &mut Wire<E>,
) -> u8
    requires few { HaveFewFailures output.old errors.old }
    ensures ends { ReportEnds W.contents E.contents output.old output.new errors.old errors.new
        (λ answer. answer ≡ json_told status text.now) ⊥ result }
{
    match send_line(output, text) {
        Ok(()) if status.code() == 200 => Exit::Done as u8,
        Ok(()) => Exit::Refused as u8,
        Err(WriteFailed) => {
            tell_line(errors, "tracedesk: Write");
            Exit::Failed as u8
        }
    }
}

/// Prints a text. Returns the exit status.
pub fn tell_csv<W: Write, E: Write>(text: &[u8], output: &mut Wire<W>, errors: &mut Wire<E>) -> u8
    requires few { HaveFewFailures output.old errors.old }
    ensures ends { PrintEnds W.contents E.contents output.old output.new errors.old errors.new
        text.now ⊥ result }
{
    match send(output, text) {
        Ok(()) => Exit::Done as u8,
        Err(WriteFailed) => {
            tell_line(errors, "tracedesk: Write");
            Exit::Failed as u8
        }
    }
}
