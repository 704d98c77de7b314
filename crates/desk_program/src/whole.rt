//! A whole run of the program, over any files, folder, clients, input and output.

ghost use Rattle.std.specs.Prelude.{◌≡◌, ◌⊎◌, ◌||◌, true, is_some, map, string_bytes, IfOk, IfErr, OnSome};
ghost use Rattle.desk_file.specs.Opened.{has_opened};
ghost use Rattle.desk_commands.specs.Clients.{ServesAt};
ghost use Rattle.desk_commands.specs.Wires.{HaveFewCounts};
ghost use Rattle.desk_commands.specs.Closed.{ClosesLeft, failed, is_left_open, whole};
ghost use Rattle.desk_program.specs.Program.{AsksForNoServing, ClosesAs, HaveRoom, LeavesAs, Names, NamesFile, ReadsAsked};
ghost use Rattle.desk_program.specs.Ways.{ways_when_closed, ways_when_open};

use desk_commands::{
    Clients, Exit, ToClose, audit_file, bad_option, feed_in_file, feed_in_memory, import_in_file,
    migrate_file, report_in_file, send_text, serve_in_file, tell, unavailable,
};
use desk_feed::Folder;
use desk_file::{FileOpener, RefusedFile, close_desk, close_file};
use desk_types::Wire;
use desk_words::{CommandLine, read_words};
use sqlite::{FileFrom, Files, Start};
use sqlite_disk::Disk;
use std::alloc::AllocError;
use std::io::{Read, Write};

/// Runs the program with these arguments. Returns the exit status, and the files that it closed.
///
/// It is `open_run`, followed by the close of the file that was left open. If the close fails the status is 3 and
/// Unavailable is printed, unless a fault was printed with status 3 before; the answers remain.
pub fn whole_run<T: Start, F: Folder, C: Clients, R: Read, W: Write, E: Write>(
    rt: &HostRuntime,
    words: &[String],
    opener: &mut FileOpener<T>,
    folder: &F,
    clients: &mut C,
    input: &mut Wire<R>,
    output: &mut Wire<W>,
    errors: &mut Wire<E>,
) -> (u8, Option<Files<FileFrom<T>>>)
    requires room { HaveRoom input.old output.old errors.old }
    ensures runs { ClosesAs (λ how. ways_when_closed how T.Start ⟦<FileFrom<T> as Disk>⟧ result.1)
        (F.holds folder.now) (F.may_fail folder.now) (ServesAt C.Saw clients.old clients.new)
        R.remaining W.contents E.contents (map string_bytes words.now)
        input.old input.new output.old output.new errors.old errors.new result.0 }
    // Each file that was opened was closed, and is returned.
    ensures told { has_opened opener.new ≡ (is_some result.1 || has_opened opener.old) }
    // No file is opened that the command line doesn't name.
    ensures opened { OnSome result.1 (NamesFile (map string_bytes words.now)) }
    ensures reads { ReadsAsked R.remaining (map string_bytes words.now)
        input.old input.new result.0 }
    // Only `serve` waits for clients.
    ensures unserved { (result.0 ≡ 2) ⊎ AsksForNoServing (map string_bytes words.now)
        → clients.new ≡ clients.old }
{
    let (status, left) = open_run(rt, words, opener, folder, clients, input, output, errors);
    match close_run(left) {
        Ok(files) => (status, files),
        Err(files) if status == Exit::NoDesk as u8 => (status, files),
        Err(files) => (unavailable(errors), files),
    }
}

fn close_run<T: Start>(
    left: ToClose<FileFrom<T>>,
) -> Result<Option<Files<FileFrom<T>>>, Option<Files<FileFrom<T>>>>
    ensures ok { IfOk result (ClosesLeft whole left) }
    ensures err { IfErr result (λ files. ClosesLeft failed left files × (is_some files ≡ true)) }
    ensures all { IfOk result (λ files. is_left_open left ≡ is_some files) }
    ensures some { IfErr result (λ files. is_left_open left ≡ is_some files) }
{
    match left {
        ToClose::Nothing => Ok(None),
        ToClose::Desk(desk) => match close_desk(desk) {
            Ok(files) => Ok(Some(files)),
            Err((_, files)) => Err(Some(files)),
        },
        ToClose::Migrated(file) => match close_file(file) {
            Ok(files) => Ok(Some(files)),
            Err((_, files)) => Err(Some(files)),
        },
        ToClose::Refused(
            RefusedFile {
                fault: _,
                file,
                unread,
            },
        ) => match file {
            None => Ok(unread),
            Some(file) => match close_file(file) {
                Ok(files) => Ok(Some(files)),
                Err((_, files)) => Err(Some(files)),
            },
        },
    }
}

/// Runs the program with these arguments. Returns the exit status, and the file that it left open.
fn open_run<T: Start, F: Folder, C: Clients, R: Read, W: Write, E: Write>(
    rt: &HostRuntime,
    words: &[String],
    opener: &mut FileOpener<T>,
    folder: &F,
    clients: &mut C,
    input: &mut Wire<R>,
    output: &mut Wire<W>,
    errors: &mut Wire<E>,
) -> (u8, ToClose<FileFrom<T>>)
    requires few { HaveFewCounts input.old output.old errors.old }
    ensures runs { LeavesAs (ways_when_open T.Start result.1)
        (F.holds folder.now) (F.may_fail folder.now) (ServesAt C.Saw clients.old clients.new)
        R.remaining W.contents E.contents (map string_bytes words.now)
        input.old input.new output.old output.new errors.old errors.new result.0 }
    ensures named { Names (map string_bytes words.now) result.1 }
    ensures told { has_opened opener.new ≡ (is_left_open result.1 || has_opened opener.old) }
    ensures reads { ReadsAsked R.remaining (map string_bytes words.now)
        input.old input.new result.0 }
    ensures unserved { (result.0 ≡ 2) ⊎ (result.0 ≡ 3)
        ⊎ AsksForNoServing (map string_bytes words.now) → clients.new ≡ clients.old }
{
    match read_words(rt.alloc(), words) {
        Ok(CommandLine::Feed { file, greatest }) => match file {
            Some(file) => feed_in_file(rt, file.as_str(), opener, greatest, input, output, errors),
            None => (
                feed_in_memory(rt.alloc(), greatest, input, output, errors),
                ToClose::Nothing,
            ),
        },
        Ok(
            CommandLine::Serve {
                file,
                port,
                connections,
                greatest,
            },
        ) => serve_in_file(
            rt,
            file.as_str(),
            opener,
            clients,
            port,
            connections,
            greatest,
            output,
            errors,
        ),
        Ok(CommandLine::Report { file, target }) => report_in_file(
            rt,
            file.as_str(),
            opener,
            target.as_str(),
            output,
            errors,
        ),
        Ok(CommandLine::Audit { file }) => audit_file(rt, file.as_str(), opener, output, errors),
        Ok(CommandLine::Migrate { file }) => migrate_file(
            rt,
            file.as_str(),
            opener,
            output,
            errors,
        ),
        Ok(CommandLine::Import { file, import, from }) => import_in_file(
            rt,
            file.as_str(),
            opener,
            &import,
            folder,
            from.as_str(),
            output,
            errors,
        ),
        Ok(CommandLine::BadOption(option)) => (bad_option(option, errors), ToClose::Nothing),
        Ok(CommandLine::Text(text)) => (send_text(text.as_str(), output, errors), ToClose::Nothing),
        Ok(CommandLine::Bad(text)) => {
            tell(errors, text.as_str());
            (Exit::BadCommandLine as u8, ToClose::Nothing)
        }
        Err(AllocError) => (unavailable(errors), ToClose::Nothing),
    }
}
