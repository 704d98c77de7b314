//! A recall over the files of a chain.

ghost use Rattle.std.specs.Prelude.{◌≡◌, ◌<◌, ◌^◌, [], None, List, ℕ, IfErr, IfOk, IfSome, IsNone, length, map, string_bytes};
ghost use Rattle.std.specs.Option.{option_map};
ghost use Rattle.sqlite_wal.specs.Recovery.{Image};
ghost use Rattle.desk_commands.specs.Closed.{ClosesConn};
ghost use Rattle.sqlite_disk.specs.declared.Files.{Files};
ghost use Rattle.desk_file.specs.Unread.{IsJustOpened};
ghost use Rattle.desk_types.specs.History.{History};
ghost use Rattle.desk_types.specs.Wire.{failures_of};
ghost use Rattle.feeder_state.specs.contracts.desk.StateDeskDesk.TheImpl.{ghosts as state};
ghost use Rattle.desk_laws.specs.Chain.{DeskFile};
ghost use Rattle.trace_reports.specs.Csv.{HasWritten};
ghost use Rattle.chain_check.specs.Chained.{IsSoFar};
ghost use Rattle.chain_stores.specs.Look.{Says};
ghost use Rattle.chain_stores.specs.Begin.{IsMarkOf};
ghost use Rattle.chain_files.specs.Marks.{Follows, FollowsNone, IsWanted};
ghost use Rattle.chain_files.specs.declared.marks.Wanted.{Wanted};
ghost use Rattle.chain_files.specs.Files.{Adds, Continues, HasWanted, IsRefused, IsWhyStopped, Recalled, Stops, Takes, close_of, files_in, placed};
ghost use Rattle.chain_files.specs.Kept.{AddsKept, AreKept, ClosesKept};
ghost use Rattle.chain_files.specs.Opened.{HoldNoDesk};

use crate::closed::{ClosedChain, add_closed};
use crate::kept::{NoDesk, desk_in};
use crate::marks::{Links, Wanted, is_wanted, names_checksum, wanted_after, wanted_first};
use crate::opener::Opener;
use crate::texts::text_at;
use chain_check::{
    Chain, ChainFile, Difference, Question, ShownDifference, begin_rows, write_rows,
};
use chain_stores::{Begin, Looked, look};
use desk_commands::tell_line;
use desk_file::close_file;
use desk_types::{Desk, Wire};
use feeder_state::StateDesk;
use line_schema::OpenFault;
use sqlite::{Connection, FileStore, Files};
use sqlite_disk::Disk;
use std::alloc::{AllocError, Global};
use std::fmt;
use std::io::Write;
use trace_reports::TextWriter;

/// Why there is no answer.
#[derive(Drop)]
pub enum Fault {
    /// The file holds no desk, or it could not be read or closed.
    Refused(OpenFault),
    /// The file's desk was begun from the file with this checksum: it is the first, or that isn't the file before it.
    BegunFrom(String),
    /// The file's desk was begun from no other file, and isn't the first.
    NotBegun,
    /// The desk does not carry on that of the file before it.
    Differs(Difference),
}

impl fmt::Display for Fault {
    ghost use Rattle.std.specs.Prelude.{Some};
    ghost use Rattle.chain_files.specs.Stops.{stop_text};

    ghost output = { λ fault. Some (stop_text fault) };

    fn fmt<W: fmt::Write>(&self, f: &mut fmt::Formatter<W>) -> fmt::Result {
        match self {
            Fault::Refused(fault) => write!(f, "{fault}"),
            Fault::BegunFrom(mark) => write!(f, "begun from {mark}"),
            Fault::NotBegun => f.write_str("begun from no file"),
            Fault::Differs(difference) => write!(f, "differs {}", ShownDifference(*difference)),
        }
    }
}

/// Memory was refused.
const NO_MEMORY: Fault = Fault::Refused(OpenFault::Unavailable);

/// A fault, and the place of its file.
#[derive(Drop)]
pub struct Stopped {
    pub place: u64,
    pub fault: Fault,
}

/// A file that was looked into.
#[derive(Drop)]
pub struct Taken {
    pub looked: Looked<StateDesk>,
    /// What the next file has to name.
    pub wanted: Wanted,
}

/// The files of a chain so far.
#[derive(Drop)]
struct Older {
    chain: Option<Chain>,
    /// What the next file has to name.
    wanted: Wanted,
}

/// Looks into the file at a place, and closes it.
pub fn look_at<'a, O: Opener<'a>>(
    rt: &HostRuntime,
    opener: &mut O,
    place: u64,
    path: &'a str,
    question: &Question,
    without_marks: bool,
    closed: &mut ClosedChain<O::File>,
) -> Result<Taken, OpenFault>
    ensures takes { IfOk result
        (Takes ⟦<O::File as Disk>⟧ (O.image opener.old path.now place) question.now without_marks
        (files_in closed.old) (files_in closed.new)) }
    ensures refused { IfErr result
        (IsRefused ⟦<O::File as Disk>⟧ (O.image opener.old path.now place)
        (files_in closed.old) (files_in closed.new)) }
    ensures kept { AddsKept ⟦<O::File as Disk>⟧ (O.image opener.old path.now place) path.now
        (O.opened opener.old) (O.opened opener.new) (files_in closed.old) (files_in closed.new) }
    ensures same { O.image opener.new ≡ O.image opener.old }
{
    let files = opener.open(rt, place, path)?;
    match desk_in(rt, files) {
        Ok(store) => {
            let (conn, looked) = look(rt.alloc(), store, question);
            let files = match close_file(conn) {
                Ok(files) => files,
                Err((fault, files)) => {
                    add_closed(closed, files);
                    return Err(fault);
                }
            };
            let (wanted, files) = wanted_after(rt.alloc(), files, without_marks);
            add_closed(closed, files);
            let Ok(wanted) = wanted else {
                return Err(OpenFault::Unavailable);
            };
            match looked {
                Ok(looked) => Ok(Taken { looked, wanted }),
                Err(_) => Err(OpenFault::Unavailable),
            }
        }
        Err(no_desk) => Err(shut(no_desk, closed)),
    }
}

/// Closes files without a desk. Returns their fault.
fn shut<D: Disk + Drop>(no_desk: NoDesk<D>, closed: &mut ClosedChain<D>) -> OpenFault
    ensures refused { (image : Image) (first : Files D) → IsJustOpened D.Disk image first
        → HoldNoDesk first no_desk
        → IsRefused D.Disk image (files_in closed.old) (files_in closed.new) result }
    ensures kept { (image : Image) (first : Files D) → IsJustOpened D.Disk image first
        → HoldNoDesk first no_desk
        → ClosesKept D.Disk image (files_in closed.old) (files_in closed.new) }
{
    match no_desk {
        NoDesk::Unread(files) => {
            add_closed(closed, files);
            OpenFault::Unavailable
        }
        NoDesk::Refused { fault, file } => {
            let (_is_whole, files) = close_any(file);
            add_closed(closed, files);
            fault
        }
    }
}

/// Closes a file, or leaves what could not be closed. Returns whether it was closed.
fn close_any<D: Disk + Drop>(file: Connection<FileStore<D>>) -> (bool, Files<D>)
    ensures { ClosesConn (close_of result.0) file result.1 }
{
    match close_file(file) {
        Ok(files) => (true, files),
        Err((_, files)) => (false, files),
    }
}

/// Adds a file to the chain of the older ones, and its rows to the answer. Its first UniqueID has to name what is wanted.
fn add(
    alloc: Global,
    older: Older,
    taken: Taken,
    question: &Question,
    path: &str,
    answer: &mut TextWriter,
) -> Result<Older, Fault>
    ensures ok { (files : List DeskFile) (H : History) (text : List ℕ)
        → Continues older.chain files → Says state.Stands H question.now taken.looked
        → HasWritten answer.old text
        → IfOk result (λ it. Adds it.chain files H question.now path.now text answer.new) }
    ensures wanted { (H : History) → Says state.Stands H question.now taken.looked
        → IfOk result (λ it. HasWanted older.wanted H) }
    ensures next { IfOk result (λ it. it.wanted ≡ taken.wanted) }
    ensures err { (files : List DeskFile) (H : History) → Continues older.chain files
        → Says state.Stands H question.now taken.looked
        → IfErr result (Stops (IsWanted older.wanted) files H) }
{
    let Older { chain, wanted } = older;
    let Taken {
        looked,
        wanted: next,
    } = taken;
    if !is_wanted(&wanted, &looked.begin.mark) {
        return Err(begun_otherwise(looked));
    }
    match join(alloc, chain, looked, question, path, answer) {
        Ok(chain) => Ok(Older {
            chain: Some(chain),
            wanted: next,
        }),
        Err(fault) => Err(fault),
    }
}

/// The same for a file that was begun as wanted.
fn join(
    alloc: Global,
    chain: Option<Chain>,
    looked: Looked<StateDesk>,
    question: &Question,
    path: &str,
    answer: &mut TextWriter,
) -> Result<Chain, Fault>
    ensures ok { (files : List DeskFile) (H : History) (text : List ℕ) → Continues chain files
        → Says state.Stands H question.now looked → HasWritten answer.old text
        → IfOk result (λ it. Adds (Some it) files H question.now path.now text answer.new) }
    ensures err { (wanted : Wanted) (files : List DeskFile) (H : History)
        → Continues chain files → Says state.Stands H question.now looked
        → IfErr result (Stops (IsWanted wanted) files H) }
{
    match chain {
        None => add_first(alloc, looked, question, path, answer),
        Some(chain) => add_next(alloc, chain, looked, question, path, answer),
    }
}

/// Returns the fault of a file that was begun otherwise than wanted.
fn begun_otherwise(looked: Looked<StateDesk>) -> Fault
    ensures { (wanted : Wanted) (files : List DeskFile) (H : History)
        → IsMarkOf H (option_map string_bytes looked.begin.mark)
        → ¬ IsWanted wanted (option_map string_bytes looked.begin.mark)
        → Stops (IsWanted wanted) files H result }
{
    let Looked {
        begun: _begun,
        begin,
        whole: _whole,
        commands: _,
        pieces: _pieces,
    } = looked;
    let Begin { commands: _, mark } = begin;
    match mark {
        Some(mark) => Fault::BegunFrom(mark),
        None => Fault::NotBegun,
    }
}

fn add_first(
    alloc: Global,
    looked: Looked<StateDesk>,
    question: &Question,
    path: &str,
    answer: &mut TextWriter,
) -> Result<Chain, Fault>
    ensures ok { (H : History) (text : List ℕ)
        → Says state.Stands H question.now looked → HasWritten answer.old text
        → IfOk result (λ it. Adds (Some it) [] H question.now path.now text answer.new) }
    ensures err { (wanted : Wanted) (H : History)
        → IfErr result (Stops (IsWanted wanted) [] H) }
{
    let Looked {
        begun: _begun,
        begin: _begin,
        whole,
        commands,
        pieces,
    } = looked;
    let file = ChainFile {
        begun: 0,
        commands: u64::from(commands),
        minute: whole.minute(),
    };
    match write_rows(alloc, answer, question, path, &file, pieces.as_slice()) {
        Ok(()) => Ok(Chain::first(whole)),
        Err(_) => Err(NO_MEMORY),
    }
}

fn add_next(
    alloc: Global,
    chain: Chain,
    looked: Looked<StateDesk>,
    question: &Question,
    path: &str,
    answer: &mut TextWriter,
) -> Result<Chain, Fault>
    ensures ok { (files : List DeskFile) (H : History) (text : List ℕ)
        → IsSoFar chain files → Says state.Stands H question.now looked
        → HasWritten answer.old text
        → IfOk result (λ it. Adds (Some it) files H question.now path.now text answer.new) }
    ensures err { (wanted : Wanted) (files : List DeskFile) (H : History)
        → IsSoFar chain files → Says state.Stands H question.now looked
        → IfErr result (Stops (IsWanted wanted) files H) }
{
    let Looked {
        begun,
        begin,
        whole,
        commands,
        pieces,
    } = looked;
    let file = ChainFile {
        begun: u64::from(begin.commands),
        commands: u64::from(commands),
        minute: whole.minute(),
    };
    let Ok(()) = write_rows(alloc, answer, question, path, &file, pieces.as_slice()) else {
        return Err(NO_MEMORY);
    };
    match chain.next(&begun, whole) {
        Ok(chain) => Ok(chain),
        Err(difference) => Err(Fault::Differs(difference)),
    }
}

/// Goes through these files, the oldest first, and prints a line for each. Returns the answer and, in `closed`, the
/// files that it closed, which clauses name.
pub fn recall_files<'a, O: Opener<'a>, E: Write>(
    rt: &HostRuntime,
    opener: &mut O,
    paths: &'a [String],
    question: &Question,
    links: Links,
    errors: &mut Wire<E>,
    closed: &mut ClosedChain<O::File>,
) -> Result<TextWriter, Stopped>
    requires none { files_in closed.old ≡ [] }
    requires few { failures_of errors.old < 2 ^ 63 }
    ensures recalled { IfOk result
        (Recalled ⟦<O::File as Disk>⟧ (O.image opener.old) question.now links
        (map string_bytes paths.now) (files_in closed.new) (length paths.now)) }
    ensures stopped { IfErr result
        (IsWhyStopped ⟦<O::File as Disk>⟧ (O.image opener.old) links (map string_bytes paths.now)
        (files_in closed.new)) }
    ensures kept { AreKept ⟦<O::File as Disk>⟧ (O.image opener.old) (map string_bytes paths.now)
        (O.opened opener.old) (O.opened opener.new) (files_in closed.new) }
    ensures few { failures_of errors.new < 2 ^ 63 }
{
    let Ok(mut answer) = begin_rows(rt.alloc(), question) else {
        return Err(Stopped {
            place: 0,
            fault: NO_MEMORY,
        });
    };
    let mut older = Older {
        chain: None,
        wanted: wanted_first(links),
    };
    let mut seen = Vec::new(rt.alloc());
    for place in 0..paths.len() {
        let number = place as u64;
        let path = text_at(paths, number);
        let taken = match look_at(
            rt,
            opener,
            number,
            path,
            question,
            links.without_marks,
            closed,
        ) {
            Ok(taken) => taken,
            Err(fault) => {
                return Err(Stopped {
                    place: number,
                    fault: Fault::Refused(fault),
                });
            }
        };
        tell_file(rt.alloc(), path, &taken.looked, paths.len() - place, errors);
        note_checksum(rt.alloc(), &taken.wanted, &mut seen);
        match add(rt.alloc(), older, taken, question, path, &mut answer) {
            Ok(longer) => older = longer,
            Err(fault) => {
                tell_follows(rt.alloc(), paths, number, &fault, seen.as_slice(), errors);
                return Err(Stopped {
                    place: number,
                    fault,
                });
            }
        }
    }
    Ok(answer)
}

/// The failures after which no line is printed for a file any more.
const MOST_FAILURES: u64 = 1 << 62;

/// Prints a file's number of commands and its last minute, and how many files are left with it.
fn tell_file<E: Write>(
    alloc: Global,
    path: &str,
    looked: &Looked<StateDesk>,
    left: usize,
    errors: &mut Wire<E>,
)
    requires few { failures_of errors.old < 2 ^ 63 }
    ensures few { failures_of errors.new < 2 ^ 63 }
{
    if errors.failures() >= MOST_FAILURES {
        return;
    }
    if let Ok(line) = file_line(alloc, path, looked, left) {
        tell_line(errors, line.as_str());
    }
}

/// Adds the checksum that the next file has to name to those of the files so far. Without memory for it nothing is added.
fn note_checksum(alloc: Global, wanted: &Wanted, seen: &mut Vec<String>) {
    if let Wanted::Checksum(checksum) = wanted {
        if let Ok(copy) = String::from_str(alloc, checksum.as_str()) {
            let _ = seen.push(copy);
        }
    }
}

/// Prints which of the files so far this one was begun from, if it was begun from another than it should.
fn tell_follows<E: Write>(
    alloc: Global,
    paths: &[String],
    place: u64,
    fault: &Fault,
    seen: &[String],
    errors: &mut Wire<E>,
)
    requires few { failures_of errors.old < 2 ^ 63 }
    ensures few { failures_of errors.new < 2 ^ 63 }
{
    if errors.failures() >= MOST_FAILURES || seen.len() as u64 <= place {
        return;
    }
    let Some(earlier) = named_by(fault, seen) else {
        return;
    };
    let (path, its) = (text_at(paths, place), text_at(paths, earlier));
    if let Ok(line) = format!(in alloc; "tracedesk-chain: {path}: follows {its}") {
        tell_line(errors, line.as_str());
    }
}

/// Returns the place of the first of these checksums that the mark of a fault names.
fn named_by(fault: &Fault, seen: &[String]) -> Option<u64>
    ensures some { IfSome result (Follows fault.now (map string_bytes seen.now)) }
    ensures none { IsNone result → FollowsNone fault.now (map string_bytes seen.now) }
{
    let Fault::BegunFrom(mark) = fault else {
        return None;
    };
    for place in 0..seen.len() {
        let number = place as u64;
        if names_checksum(text_at(seen, number), mark.as_str()) {
            return Some(number);
        }
    }
    None
}

fn file_line(
    alloc: Global,
    path: &str,
    looked: &Looked<StateDesk>,
    left: usize,
) -> Result<String, AllocError> {
    let commands = looked.commands;
    let minute = match looked.whole.minute() {
        Some(minute) => minute.get(),
        None => 0,
    };
    match &looked.begin.mark {
        Some(mark) => format!(in alloc;
            "tracedesk-chain: {path}: {commands} commands, last minute {minute}, begun from {mark}; {left} to go"
        ),
        None => format!(in alloc;
            "tracedesk-chain: {path}: {commands} commands, last minute {minute}; {left} to go"
        ),
    }
}
