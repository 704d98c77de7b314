//! Texts on standard output.

ghost use Rattle.std.specs.Prelude.{◌≡◌, ◌⊎◌};
ghost use Rattle.std.specs.Io.KnownBytes.{Appends};
ghost use Rattle.desk_types.specs.Wire.{inner_of};
ghost use Rattle.desk_answers.specs.Sent.{SendsFront};
ghost use Rattle.desk_commands.specs.Ends.{PrintEnds};
ghost use Rattle.desk_commands.specs.Told.{lawful_line, unavailable_line, TellsLine, TellsUnwritten};
ghost use Rattle.desk_commands.specs.Wires.{GoesWell, HaveFewFailures};

use crate::exit::{Exit, tell_line, unavailable};
use desk_answers::send;
use desk_types::Wire;
use std::alloc::Global;
use std::io::Write;

/// Prints that a history is lawful, and its number of commands. Returns the exit status.
pub fn tell_lawful<W: Write, E: Write>(
    alloc: Global,
    count: u32,
    output: &mut Wire<W>,
    errors: &mut Wire<E>,
) -> u8
    requires few { HaveFewFailures output.old errors.old }
    ensures ends { PrintEnds W.contents E.contents output.old output.new errors.old errors.new
        (lawful_line count) (TellsLine E.contents errors.old errors.new unavailable_line) result }
{
    match format!(in alloc; "lawful {count}\n") {
        Ok(line) => send_text(line.as_str(), output, errors),
        Err(_) => unavailable(errors),
    }
}

/// Writes a text to standard output. Returns the exit status.
pub fn send_text<W: Write, E: Write>(text: &str, output: &mut Wire<W>, errors: &mut Wire<E>) -> u8
    requires few { HaveFewFailures output.old errors.old }
    ensures status { (result ≡ 0) ⊎ (result ≡ 4) }
    ensures done { result ≡ 0
        → Appends (W.contents (inner_of output.old)) (W.contents (inner_of output.new)) text.now }
    ensures failed { result ≡ 4
        → TellsUnwritten E.contents output.old output.new errors.old errors.new }
    // So a reader that sees a part of the text sees its beginning.
    ensures front { result ≡ 4
        → SendsFront (W.contents (inner_of output.old)) (W.contents (inner_of output.new))
        text.now }
    ensures well { result ≡ 0 → GoesWell output.old output.new errors.old errors.new }
{
    match send(output, text.as_bytes()) {
        Ok(()) => Exit::Done as u8,
        Err(_) => {
            tell_line(errors, "tracedesk: Write");
            Exit::Failed as u8
        }
    }
}
