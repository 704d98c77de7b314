//! A run on the system's files and ports.

ghost use Rattle.std.specs.Prelude.{◌≡◌, ◌≢◌, ◌^◌, ◌<◌, ◌||◌, is_some, map, string_bytes, codes, OnSome};
ghost use Rattle.std.specs.IoError.{error_kind};
ghost use Rattle.desk_types.specs.Wire.{failures_of};
ghost use Rattle.line_schema.specs.declared.fault.OpenFault.TheVariants.{Unavailable};
ghost use Rattle.desk_file.specs.Opened.{has_opened};
ghost use Rattle.desk_commands.specs.Told.{TellsLine};
ghost use Rattle.desk_commands.specs.Runs.{refusal_line};
ghost use Rattle.desk_program.specs.Program.{ClosesAs, HaveRoom, NamesFile, ReadsAsked};
ghost use Rattle.desk_program.specs.System.{any_bytes, any_clients, any_failure, files_in};
ghost use Rattle.desk_program.specs.Ways.{ways_when_closed};

use crate::system::{SystemClients, SystemFiles};
use crate::whole::whole_run;
use desk_commands::{Exit, tell_line, unavailable};
use desk_file::FileOpener;
use desk_types::Wire;
use desk_words::words_behind_name;
use sqlite::{FileFrom, Files, Start};
use sqlite_disk::Disk;
use std::io;
use std::io::{ErrorKind, Read, Write};

/// The files that a run closed, if it opened any. They can only be dropped, so what a clause says of them stays true.
#[derive(Drop)]
pub struct ClosedFiles<D: Disk + Drop> {
    files: Option<Files<D>>,
}

/// Runs the program with its arguments on the files and ports of the system, by `whole_run`. `T` is the contents of the
/// desk's file when it is opened. Returns the exit status, and the files that the run closed.
pub fn program<T: Start, R: Read, W: Write, E: Write>(
    rt: &HostRuntime,
    words: &[String],
    opener: &mut FileOpener<T>,
    input: &mut Wire<R>,
    output: &mut Wire<W>,
    errors: &mut Wire<E>,
) -> (u8, ClosedFiles<FileFrom<T>>)
    requires room { HaveRoom input.old output.old errors.old }
    // One of the ways to end, which `specs/Program.antt` lists by the words of the command line.
    ensures runs { ClosesAs
        (λ how. ways_when_closed how T.Start ⟦<FileFrom<T> as Disk>⟧ (files_in result.1))
        any_bytes any_failure any_clients
        R.remaining W.contents E.contents (map string_bytes words.now)
        input.old input.new output.old output.new errors.old errors.new result.0 }
    // Each file that was opened was closed, and is returned.
    ensures told { has_opened opener.new ≡ (is_some (files_in result.1) || has_opened opener.old) }
    // No file is opened that the command line doesn't name.
    ensures opened { OnSome (files_in result.1) (NamesFile (map string_bytes words.now)) }
    // No more of the input is read than the command needs, and a feed that ends well reads it all.
    ensures reads { ReadsAsked R.remaining (map string_bytes words.now)
        input.old input.new result.0 }
{
    let (status, files) = whole_run(
        rt,
        words,
        opener,
        &SystemFiles::new(rt),
        &mut SystemClients::new(rt),
        input,
        output,
        errors,
    );
    (status, ClosedFiles { files })
}

/// Returns the arguments after the program's name.
pub fn words(rt: &HostRuntime) -> io::Result<Vec<String>> {
    Ok(words_behind_name(rt.alloc(), std::env::args(rt)?)?)
}

/// Prints why the arguments could not be read.
pub fn wordless<E: Write>(error: &io::Error, errors: &mut Wire<E>) -> u8
    requires error_failures { failures_of errors.old < 2 ^ 63 }
    ensures unavailable { error_kind error.now ≡ ErrorKind.OutOfMemory → result ≡ 3 }
    ensures bad { error_kind error.now ≢ ErrorKind.OutOfMemory → result ≡ 2 }
    ensures told_unavailable { result ≡ 3
        → TellsLine E.contents errors.old errors.new (refusal_line Unavailable) }
    ensures told_bad { result ≡ 2
        → TellsLine E.contents errors.old errors.new
        (codes "tracedesk: a word of the command line is not UTF-8") }
{
    if error.kind() == ErrorKind::OutOfMemory {
        return unavailable(errors);
    }
    tell_line(errors, "tracedesk: a word of the command line is not UTF-8");
    Exit::BadCommandLine as u8
}
