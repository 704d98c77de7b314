//! A desk that is refused.

ghost use Rattle.std.specs.Prelude.{◌≡◌, ◌⊎◌, ◌^◌, ◌<◌};
ghost use Rattle.desk_types.specs.Wire.{failures_of};
ghost use Rattle.desk_commands.specs.Told.{unavailable_line, TellsLine};
ghost use Rattle.desk_commands.specs.Runs.{refusal_line};

use crate::exit::{Exit, tell_line, unavailable};
use desk_types::Wire;
use line_schema::OpenFault;
use std::alloc::Global;
use std::io::Write;

/// Prints why the desk's file was refused, or Unavailable if memory is refused.
pub fn tell_refusal<E: Write>(alloc: Global, fault: &OpenFault, errors: &mut Wire<E>) -> u8
    requires error_failures { failures_of errors.old < 2 ^ 63 }
    ensures status { result ≡ 3 }
    ensures told { TellsLine E.contents errors.old errors.new (refusal_line fault.now)
        ⊎ TellsLine E.contents errors.old errors.new unavailable_line }
{
    match format!(in alloc; "tracedesk: {fault}") {
        Ok(line) => {
            tell_line(errors, line.as_str());
            Exit::NoDesk as u8
        }
        Err(_) => unavailable(errors),
    }
}
