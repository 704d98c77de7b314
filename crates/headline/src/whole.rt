//! A whole run of the program after others on the same file. It is for proofs; nothing of it runs.

ghost use Rattle.std.specs.Prelude.{◌≢◌, map, string_bytes, IfSome};
ghost use Rattle.desk_commands.specs.Clients.{ServesAt};
ghost use Rattle.desk_program.specs.Program.{HaveRoom};
ghost use Rattle.headline.specs.Whole.{GoesOn};

use desk_commands::Clients;
use desk_feed::Folder;
use desk_file::{FileOpener, next_run_goes_on};
use desk_program::whole_run;
use desk_types::Wire;
use sqlite::{FileFrom, Files, Start};
use sqlite_disk::Disk;
use std::io::{Read, Write};

/// A law, by a call of `whole_run`: a run whose file was closed goes on from any number of earlier runs on that file.
/// The answers of all of them, and the tables of the file, are those of one history, which is lawful and consistent.
pub fn whole_run_goes_on<T: Start, F: Folder, C: Clients, R: Read, W: Write, E: Write>(
    rt: &HostRuntime,
    words: &[String],
    opener: &mut FileOpener<T>,
    folder: &F,
    clients: &mut C,
    input: &mut Wire<R>,
    output: &mut Wire<W>,
    errors: &mut Wire<E>,
) -> (u8, Option<Files<FileFrom<T>>>)
    requires room { HaveRoom input.old output.old errors.old }
    // A run with status 3 was refused its files or memory: see `refused_runs_keep_lists`.
    ensures { result.0 ≢ 3 → IfSome result.1 (GoesOn (F.holds folder.now) (F.may_fail folder.now)
        (ServesAt C.Saw clients.old clients.new) R.remaining W.contents E.contents
        (map string_bytes words.now) input.old input.new output.old output.new
        errors.old errors.new result.0 T.Start ⟦<FileFrom<T> as Disk>⟧) }
{
    next_run_goes_on();
    whole_run(rt, words, opener, folder, clients, input, output, errors)
}
