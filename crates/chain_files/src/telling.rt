//! The line of a comparison.

ghost use Rattle.std.specs.Prelude.{◌≡◌, ◌⊎◌, ◌^◌, ◌<◌, ◌≤◌};
ghost use Rattle.std.specs.Io.KnownBytes.{Appends};
ghost use Rattle.desk_types.specs.Wire.{inner_of, failures_of};
ghost use Rattle.desk_answers.specs.Sent.{SendsFront};
ghost use Rattle.desk_commands.specs.Told.{unavailable_line, TellsLine, TellsUnwritten};
ghost use Rattle.desk_commands.specs.Wires.{HaveFewFailures};
ghost use Rattle.chain_files.specs.Compared.{found_line, refused_line, found_status};

use crate::compared::Compared;
use desk_commands::{Exit, send_text, tell_line, unavailable};
use desk_types::Wire;
use std::alloc::Global;
use std::io::Write;

/// Prints what a comparison found: on the output, or on standard error if a file was refused. Returns the exit status.
pub fn tell_found<W: Write, E: Write>(
    alloc: Global,
    found: &Compared,
    output: &mut Wire<W>,
    errors: &mut Wire<E>,
) -> u8
    requires few { HaveFewFailures output.old errors.old }
    ensures status { (result ≡ 0) ⊎ (result ≡ 1) ⊎ (result ≡ 3) ⊎ (result ≡ 4) }
    ensures sent { (result ≡ 0) ⊎ (result ≡ 1)
        → (found_status found.now ≡ result)
        × Appends (W.contents (inner_of output.old)) (W.contents (inner_of output.new))
        (found_line found.now) }
    ensures refused { result ≡ 3
        → TellsLine E.contents errors.old errors.new unavailable_line
        ⊎ ((found_status found.now ≡ 3)
        × TellsLine E.contents errors.old errors.new (refused_line found.now)) }
    ensures untouched { result ≡ 3 → output.new ≡ output.old }
    ensures failed { result ≡ 4
        → TellsUnwritten E.contents output.old output.new errors.old errors.new
        × (found_status found.now ≤ 1)
        × SendsFront (W.contents (inner_of output.old)) (W.contents (inner_of output.new))
        (found_line found.now) }
{
    let status = found_status(found);
    if status == Exit::NoDesk as u8 {
        return tell_refused(alloc, found, errors);
    }
    match format!(in alloc; "{found}\n") {
        Ok(line) => match send_text(line.as_str(), output, errors) {
            0 => status,
            failed => failed,
        },
        Err(_) => unavailable(errors),
    }
}

fn found_status(found: &Compared) -> u8
    ensures value { result ≡ found_status found.now }
    ensures among { (result ≡ 0) ⊎ (result ≡ 1) ⊎ (result ≡ 3) }
{
    match found {
        Compared::Alike { .. } => Exit::Done as u8,
        Compared::Differs(_) => Exit::Refused as u8,
        Compared::Refused { .. } => Exit::NoDesk as u8,
    }
}

/// Prints on standard error which file was refused, and why.
fn tell_refused<E: Write>(alloc: Global, found: &Compared, errors: &mut Wire<E>) -> u8
    requires error_failures { failures_of errors.old < 2 ^ 63 }
    ensures status { result ≡ 3 }
    ensures told { TellsLine E.contents errors.old errors.new (refused_line found.now)
        ⊎ TellsLine E.contents errors.old errors.new unavailable_line }
{
    match format!(in alloc; "tracedesk: {found}") {
        Ok(line) => {
            tell_line(errors, line.as_str());
            Exit::NoDesk as u8
        }
        Err(_) => unavailable(errors),
    }
}
