//! A whole run of the program, over any files and output.

ghost use Rattle.std.specs.Prelude.{◌≡◌, ◌⊎◌, ◌≤◌, ◌^◌, ◌<◌, List, ℕ, true, map, string_bytes};
ghost use Rattle.std.specs.Io.KnownBytes.{Appends};
ghost use Rattle.desk_types.specs.Wire.{inner_of, failures_of};
ghost use Rattle.desk_answers.specs.Sent.{SendsFront};
ghost use Rattle.desk_commands.specs.Told.{unavailable_line, TellsLine, TellsUnwritten};
ghost use Rattle.desk_commands.specs.Wires.{HaveFewFailures};
ghost use Rattle.trace_reports.specs.Csv.{HasWritten};
ghost use Rattle.chain_files.specs.Files.{files_in};
ghost use Rattle.chain_files.specs.Kept.{AreKept, KeepsNamed};
ghost use Rattle.chain_files.specs.Stops.{status_of, stop_line, without_marks_line};
ghost use Rattle.chain_files.specs.Whole.{Answers, AnswersFront, IsStopped, RunsAs, SaysLinks, StopsAt, list_line};

use crate::chain::{Fault, Stopped, recall_files};
use crate::closed::ClosedChain;
use crate::listed::{ListFault, question_of};
use crate::marks::Links;
use crate::opener::Opener;
use crate::texts::text_at;
use crate::two_files::alike;
use crate::words::{ChainCommand, HELP, VERSION, read_words};
use chain_check::{Question, end_rows};
use desk_answers::send;
use desk_commands::{Exit, send_text, tell, tell_line, unavailable};
use desk_feed::Folder;
use desk_types::Wire;
use sqlite_disk::Disk;
use std::alloc::Global;
use std::io::Write;
use trace_reports::TextWriter;

/// Runs the program with these arguments. Returns the exit status, and the files that it closed, which clauses name: those
/// of a recall or a comparison, in the order in which they were named.
pub fn program<'a, O: Opener<'a> + Folder, W: Write, E: Write>(
    rt: &HostRuntime,
    opener: &mut O,
    words: &'a [String],
    output: &mut Wire<W>,
    errors: &mut Wire<E>,
) -> (u8, ClosedChain<O::File>)
    requires few { HaveFewFailures output.old errors.old }
    // One of the ways to end, which `specs/Whole.antt` lists by the exit status.
    ensures runs { RunsAs ⟦<O::File as Disk>⟧ (O.image opener.old) (O.holds opener.old)
        (O.may_fail opener.old) W.contents E.contents (map string_bytes words.now)
        (files_in result.1) output.old output.new errors.old errors.new result.0 }
    // No file is opened that the command line doesn't name, and each is closed as it was.
    ensures kept { KeepsNamed ⟦<O::File as Disk>⟧ (O.image opener.old) (O.opened opener.old)
        (O.opened opener.new) (files_in result.1) (map string_bytes words.now) }
{
    match read_words(words) {
        ChainCommand::Recall {
            asked,
            word,
            links,
            files,
        } => match question_of(rt.alloc(), &*opener, asked, word) {
            Ok(question) => answer(rt, opener, &question, links, files, output, errors),
            Err(fault) => (
                tell_list(rt.alloc(), word, fault, errors),
                ClosedChain::new(),
            ),
        },
        ChainCommand::Alike { old, new } => alike(rt, opener, old, new, output, errors),
        ChainCommand::Help => (send_text(HELP, output, errors), ClosedChain::new()),
        ChainCommand::Version => (send_text(VERSION, output, errors), ClosedChain::new()),
        ChainCommand::Bad => {
            tell(
                errors,
                "usage: tracedesk-chain check|lot NAME|board NAME|reel NAME|reels LIST [--part PART] [--pieces] [--from-middle] [--without-marks] [--] FILE.., alike OLD NEW, or --help\n",
            );
            (Exit::BadCommandLine as u8, ClosedChain::new())
        }
    }
}

/// Recalls over the files, and prints the answer, or why there is none.
fn answer<'a, O: Opener<'a>, W: Write, E: Write>(
    rt: &HostRuntime,
    opener: &mut O,
    question: &Question,
    links: Links,
    paths: &'a [String],
    output: &mut Wire<W>,
    errors: &mut Wire<E>,
) -> (u8, ClosedChain<O::File>)
    requires few { HaveFewFailures output.old errors.old }
    ensures status { (result.0 ≤ 1) ⊎ (3 ≤ result.0) × (result.0 ≤ 5) }
    ensures done { result.0 ≡ 0
        → Answers ⟦<O::File as Disk>⟧ (O.image opener.old) (files_in result.1) question.now
        links (map string_bytes paths.now) W.contents E.contents output.old output.new
        errors.new }
    ensures stopped { IsStopped result.0
        → (output.new ≡ output.old)
        × StopsAt ⟦<O::File as Disk>⟧ (O.image opener.old) (files_in result.1) links
        (map string_bytes paths.now) E.contents errors.new result.0 }
    ensures failed { result.0 ≡ 4
        → AnswersFront ⟦<O::File as Disk>⟧ (O.image opener.old) (files_in result.1) question.now
        links (map string_bytes paths.now) W.contents E.contents output.old output.new
        errors.new }
    ensures kept { AreKept ⟦<O::File as Disk>⟧ (O.image opener.old) (map string_bytes paths.now)
        (O.opened opener.old) (O.opened opener.new) (files_in result.1) }
{
    let mut closed = ClosedChain::new();
    match recall_files(rt, opener, paths, question, links, errors, &mut closed) {
        Ok(answer) => (send_answer(answer, links, output, errors), closed),
        Err(stopped) => {
            let status = tell_stop(rt.alloc(), paths, &stopped, errors);
            (status, closed)
        }
    }
}

/// Prints the answer, and that marks were left aside.
fn send_answer<W: Write, E: Write>(
    answer: TextWriter,
    links: Links,
    output: &mut Wire<W>,
    errors: &mut Wire<E>,
) -> u8
    requires few { HaveFewFailures output.old errors.old }
    ensures status { (result ≡ 0) ⊎ (result ≡ 3) ⊎ (result ≡ 4) }
    ensures done { result ≡ 0
        → (text : List ℕ)
        × Appends (W.contents (inner_of output.old)) (W.contents (inner_of output.new)) text
        × ((all : List ℕ) → HasWritten answer all → text ≡ all)
        × SaysLinks links E.contents errors.new }
    ensures untouched { result ≡ 3
        → (output.new ≡ output.old)
        × TellsLine E.contents errors.old errors.new unavailable_line }
    ensures failed { result ≡ 4
        → (text : List ℕ)
        × SendsFront (W.contents (inner_of output.old)) (W.contents (inner_of output.new)) text
        × ((all : List ℕ) → HasWritten answer all → text ≡ all)
        × TellsUnwritten E.contents output.old output.new errors.old errors.new }
{
    let Ok(text) = end_rows(answer) else {
        return unavailable(errors);
    };
    match send(output, text.as_slice()) {
        Ok(()) => {
            tell_links(links, errors);
            Exit::Done as u8
        }
        Err(_) => {
            tell_line(errors, "tracedesk: Write");
            Exit::Failed as u8
        }
    }
}

/// Prints that marks were left aside, if they were.
fn tell_links<E: Write>(links: Links, errors: &mut Wire<E>)
    requires error_failures { failures_of errors.old < 2 ^ 63 }
    ensures { SaysLinks links E.contents errors.new }
{
    if links.without_marks {
        tell_line(
            errors,
            "tracedesk-chain: without marks: a gap or a fork may not show",
        );
    }
}

/// Prints which list was refused, and why. Returns the exit status.
fn tell_list<E: Write>(alloc: Global, path: &str, fault: ListFault, errors: &mut Wire<E>) -> u8
    requires error_failures { failures_of errors.old < 2 ^ 63 }
    ensures status { result ≡ 3 }
    ensures told { TellsLine E.contents errors.old errors.new (list_line path.now fault)
        ⊎ TellsLine E.contents errors.old errors.new unavailable_line }
{
    if let ListFault::NoMemory = fault {
        return unavailable(errors);
    }
    match format!(in alloc; "tracedesk-chain: {path}: {fault}") {
        Ok(line) => {
            tell_line(errors, line.as_str());
            Exit::NoDesk as u8
        }
        Err(_) => unavailable(errors),
    }
}

/// Prints the first file at fault, and what is wrong with it. Returns the exit status.
fn tell_stop<E: Write>(
    alloc: Global,
    paths: &[String],
    stopped: &Stopped,
    errors: &mut Wire<E>,
) -> u8
    requires error_failures { failures_of errors.old < 2 ^ 63 }
    ensures { ((result ≡ status_of stopped.now.fault)
        × TellsLine E.contents errors.old errors.new
        (stop_line (map string_bytes paths.now) stopped.now.place stopped.now.fault))
        ⊎ ((result ≡ 3) × TellsLine E.contents errors.old errors.new unavailable_line) }
{
    let path = text_at(paths, stopped.place);
    match format!(in alloc; "tracedesk-chain: {path}: {}", stopped.fault) {
        Ok(line) => {
            tell_line(errors, line.as_str());
            status_of(&stopped.fault)
        }
        Err(_) => unavailable(errors),
    }
}

fn status_of(fault: &Fault) -> u8
    ensures { result ≡ status_of fault.now }
{
    match fault {
        Fault::Refused(_) => Exit::NoDesk as u8,
        Fault::BegunFrom(_) | Fault::NotBegun => 5,
        Fault::Differs(_) => Exit::Refused as u8,
    }
}
