//! A file whose lists can't be read.

ghost use Rattle.std.specs.Prelude.{◌≡◌, ◌⊎◌, ◌^◌, ◌<◌};
ghost use Rattle.desk_types.specs.Wire.{failures_of};
ghost use Rattle.desk_commands.specs.Told.{unavailable_line, TellsLine};
ghost use Rattle.line_reads.specs.Ends.{fault_line};

use desk_commands::{Exit, tell_line, unavailable};
use desk_types::Wire;
use line_file::ListFault;
use std::alloc::Global;
use std::io::Write;

/// Prints which list of the file is at fault, and its fault; or Unavailable if memory is refused.
pub fn tell_fault<E: Write>(alloc: Global, fault: &ListFault, errors: &mut Wire<E>) -> u8
    requires error_failures { failures_of errors.old < 2 ^ 63 }
    ensures status { result ≡ 3 }
    ensures told { TellsLine E.contents errors.old errors.new unavailable_line
        ⊎ TellsLine E.contents errors.old errors.new (fault_line fault.now) }
{
    match format!(in alloc; "tracedesk: {fault}") {
        Ok(line) => {
            tell_line(errors, line.as_str());
            Exit::NoDesk as u8
        }
        Err(_) => unavailable(errors),
    }
}
