//! The end of a run, and its message on standard error.

ghost use Rattle.std.specs.Prelude.{◌≡◌, ◌^◌, ◌<◌};
ghost use Rattle.desk_types.specs.Wire.{failures_of};
ghost use Rattle.desk_commands.specs.Told.{fault_line, option_line, unavailable_line, Tells, TellsLine};

use desk_answers::{ServeFault, send, send_line};
use desk_feed::BadOption;
use desk_types::Wire;
use std::io::Write;

/// The end of a run.
#[derive(Clone, Copy, PartialEq, Eq)]
pub enum Exit {
    /// All went well.
    Done = 0,
    /// The answer to some line, request or import counts as refused, a connection failed, or there is no such report.
    Refused = 1,
    /// The command line has no meaning, or an option can't be read.
    BadCommandLine = 2,
    /// The desk's file was refused, or memory was, outside of a message.
    NoDesk = 3,
    /// Input or output failed, or an import's file, or a port.
    Failed = 4,
}

/// Prints why the input was not answered to its end.
pub fn tell_failure<E: Write>(fault: &ServeFault, errors: &mut Wire<E>) -> u8
    // The count of failures must not overflow.
    requires error_failures { failures_of errors.old < 2 ^ 63 }
    ensures status { result ≡ 4 }
    ensures told { TellsLine E.contents errors.old errors.new (fault_line fault.now) }
{
    tell_line(errors, fault_line(fault));
    Exit::Failed as u8
}

fn fault_line(fault: &ServeFault) -> &'static str
    ensures { result.now ≡ fault_line fault.now }
{
    match fault {
        ServeFault::Read(_) => "tracedesk: Read",
        ServeFault::Write(_) => "tracedesk: Write",
        ServeFault::TooManyReads(_) => "tracedesk: TooManyReads",
    }
}

/// Prints that memory was refused outside of a message.
pub fn unavailable<E: Write>(errors: &mut Wire<E>) -> u8
    requires error_failures { failures_of errors.old < 2 ^ 63 }
    ensures status { result ≡ 3 }
    ensures told { TellsLine E.contents errors.old errors.new unavailable_line }
{
    tell_line(errors, "tracedesk: Unavailable");
    Exit::NoDesk as u8
}

/// Prints that an option of an import can't be read.
pub fn bad_option<E: Write>(option: BadOption, errors: &mut Wire<E>) -> u8
    requires error_failures { failures_of errors.old < 2 ^ 63 }
    ensures status { result ≡ 2 }
    ensures told { TellsLine E.contents errors.old errors.new (option_line option) }
{
    tell_line(errors, option_line(option));
    Exit::BadCommandLine as u8
}

fn option_line(option: BadOption) -> &'static str
    ensures { result.now ≡ option_line option }
{
    match option {
        BadOption::Id => "tracedesk: Bad id",
        BadOption::Source => "tracedesk: Bad source",
        BadOption::Time => "tracedesk: Bad time",
        BadOption::Product => "tracedesk: Bad product",
        BadOption::Machine => "tracedesk: Bad machine",
    }
}

/// Prints a line on standard error. A failure of this can't be reported anywhere.
pub fn tell_line<E: Write>(errors: &mut Wire<E>, line: &str)
    requires error_failures { failures_of errors.old < 2 ^ 63 }
    ensures { TellsLine E.contents errors.old errors.new line.now }
{
    let _ = send_line(errors, line.as_bytes());
}

/// Prints a text on standard error, unchanged.
pub fn tell<E: Write>(errors: &mut Wire<E>, text: &str)
    requires error_failures { failures_of errors.old < 2 ^ 63 }
    ensures { Tells E.contents errors.old errors.new text.now }
{
    let _ = send(errors, text.as_bytes());
}
