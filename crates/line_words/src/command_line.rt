//! The command line.

ghost use Rattle.std.specs.Prelude.{◌≡◌, false, map, string_bytes, List, [], ℕ, IfOk, IfSome, IsNone, codes};
ghost use Rattle.clap.specs.Kinds.{HasKind};
ghost use Rattle.clap.specs.Matches.{found_of};
ghost use Rattle.clap.specs.Simple.{app_of, shape_of, subcommand_rows_of};
ghost use Rattle.clap.specs.Walk.{first_of, rows_of};
ghost use Rattle.clap.specs.declared.builder.command.Command.TheViews.{out-Command};
ghost use Rattle.desk_types.specs.Id.{IsId};
ghost use Rattle.line_words.specs.CommandLine.{bare, commands, doubt_shape, file_shape, named_by, note_shape, serve_shape, state_shape, task_name, told_of, Asks, IsInRange, IsWithin, IsWithinNone, Names, Serves, ServesNone, ShowsName, ShowsNoName, ShowsNoted, ShowsNoNoted};

use clap::error::ErrorKind;
use clap::{Arg, ArgMatches};
use desk_types::{Id, MOST_PORT};
use desk_words::{number_in, numeral, with_wanted};
use line_answers::Noted;
use std::alloc::{AllocError, Global};

/// The meaning of a command line.
#[derive(Drop)]
pub enum LineCommand {
    /// Serve connections, one after another.
    Serve {
        file: String,
        port: u16,
        connections: u32,
    },
    /// Write what somebody decides, holds or releases into the book. `told` is what was said.
    Note {
        file: String,
        noted: Noted,
        told: String,
    },
    /// Print whether a machine may work, and each cause why not.
    State {
        file: String,
        machine: Id,
    },
    /// Print the pieces in doubt, with a tolerance of so many pieces at each splice.
    Doubt {
        file: String,
        within: u32,
    },
    /// Do something with both lists of a file.
    Whole {
        file: String,
        task: Task,
    },
    /// Print this text, help or the version, on standard output.
    Text(String),
    /// No meaning. This text, for standard error, says why.
    Bad(String),
}

/// What is done with both lists of a file.
#[derive(Clone, Copy, PartialEq, Eq)]
pub enum Task {
    /// Make those that are missing, and count both.
    Make,
    /// Print the book.
    Book,
    /// Check both, and count them.
    Audit,
}

/// The examples and the exit statuses, for the help.
const NOTES: &str = "\
Examples:
  tracedesk-line serve --db line.db --port 8080
  tracedesk-line make --db line.db
  tracedesk-line note --db line.db --kind hold --told '{\"Hold\":\"lot\",\"Name\":\"L1\",\"By\":\"A. Person\",\"Reason\":\"wrong label\"}'
  tracedesk-line state --db line.db --machine M1
  tracedesk-line book --db line.db
  tracedesk-line doubt --db line.db --within 10
  tracedesk-line audit --db line.db

Exit status:
  0  Each request was answered 200 or 202, the entry was written, what was asked for was printed, the audit found nothing wrong, or help or the version was asked for
  1  Some request was answered otherwise, a connection failed, no entry was written, or no sheet names the machine
  2  The command line asks for nothing that the program does
  3  The line's file was refused, or memory was, outside of a request
  4  Input or output failed, or the port can't be had";

/// Reads the arguments.
pub fn read_words(alloc: Global, words: &[String]) -> Result<LineCommand, AllocError>
    ensures asks { IfOk result (Asks (map string_bytes words.now)) }
    // To serve nobody has no meaning.
    ensures range { IfOk result IsInRange }
{
    let command = commands(alloc)?;
    match command.try_get_matches_from(words) {
        Ok(matches) => command_of(alloc, &matches),
        Err(error) => help_or_mistake(alloc, &error),
    }
}

fn help_or_mistake(alloc: Global, error: &clap::Error) -> Result<LineCommand, AllocError>
    ensures asks { (words : List (List ℕ)) → HasKind (told_of words) error.now
        → IfOk result (Asks words) }
    ensures range { IfOk result IsInRange }
{
    if error.kind() == ErrorKind::OutOfMemory {
        return Err(AllocError);
    }
    let text = format!(in alloc; "{error}")?;
    if error.use_stderr() {
        Ok(LineCommand::Bad(text))
    } else {
        Ok(LineCommand::Text(text))
    }
}

fn command_of(alloc: Global, matches: &ArgMatches<'_>) -> Result<LineCommand, AllocError>
    ensures asks { (words : List (List ℕ)) → told_of words ≡ []
        → subcommand_rows_of matches.now ≡ named_by words
        → IfOk result (Asks words) }
    ensures range { IfOk result IsInRange }
{
    match matches.subcommand() {
        Some((name, found)) if name == "serve" => serve_of(alloc, found),
        Some((name, found)) if name == "make" => task_of(alloc, found, Task::Make),
        Some((name, found)) if name == "note" => note_of(alloc, found),
        Some((name, found)) if name == "state" => state_of(alloc, found),
        Some((name, found)) if name == "book" => task_of(alloc, found, Task::Book),
        Some((name, found)) if name == "doubt" => doubt_of(alloc, found),
        Some((name, found)) if name == "audit" => task_of(alloc, found, Task::Audit),
        _ => Ok(LineCommand::Bad(no_command(alloc)?)),
    }
}

fn serve_of(alloc: Global, found: &ArgMatches<'_>) -> Result<LineCommand, AllocError>
    ensures asks { (words : List (List ℕ))
        → Names words (codes "serve") (rows_of (found_of found.now))
        → IfOk result (Asks words) }
    ensures range { IfOk result IsInRange }
{
    let Some(port) = number_in(found, "port", MOST_PORT) else {
        return Ok(LineCommand::Bad(no_number(alloc, "port", MOST_PORT)?));
    };
    let Some(connections) = connections_in(found) else {
        return Ok(LineCommand::Bad(no_number(alloc, "connections", u32::MAX)?));
    };
    match found.get_str("db") {
        Some(file) => Ok(LineCommand::Serve {
            file: String::from_str(alloc, file)?,
            port: port as u16,
            connections,
        }),
        None => Ok(LineCommand::Bad(no_value(alloc, "db <FILE>")?)),
    }
}

fn note_of(alloc: Global, found: &ArgMatches<'_>) -> Result<LineCommand, AllocError>
    ensures asks { (words : List (List ℕ))
        → Names words (codes "note") (rows_of (found_of found.now))
        → IfOk result (Asks words) }
    ensures range { IfOk result IsInRange }
{
    let Some(noted) = noted_in(found) else {
        return Ok(LineCommand::Bad(no_kind(alloc)?));
    };
    let Some(told) = found.get_str("told") else {
        return Ok(LineCommand::Bad(no_value(alloc, "told <TEXT>")?));
    };
    match found.get_str("db") {
        Some(file) => Ok(LineCommand::Note {
            file: String::from_str(alloc, file)?,
            noted,
            told: String::from_str(alloc, told)?,
        }),
        None => Ok(LineCommand::Bad(no_value(alloc, "db <FILE>")?)),
    }
}

fn state_of(alloc: Global, found: &ArgMatches<'_>) -> Result<LineCommand, AllocError>
    ensures asks { (words : List (List ℕ))
        → Names words (codes "state") (rows_of (found_of found.now))
        → IfOk result (Asks words) }
    ensures range { IfOk result IsInRange }
{
    match (found.get_str("db"), machine_in(found)) {
        (Some(file), Some(machine)) => Ok(LineCommand::State {
            file: String::from_str(alloc, file)?,
            machine,
        }),
        _ => Ok(LineCommand::Bad(no_machine(alloc)?)),
    }
}

fn doubt_of(alloc: Global, found: &ArgMatches<'_>) -> Result<LineCommand, AllocError>
    ensures asks { (words : List (List ℕ))
        → Names words (codes "doubt") (rows_of (found_of found.now))
        → IfOk result (Asks words) }
    ensures range { IfOk result IsInRange }
{
    let Some(within) = within_in(found) else {
        return Ok(LineCommand::Bad(no_number(alloc, "within", u32::MAX)?));
    };
    match found.get_str("db") {
        Some(file) => Ok(LineCommand::Doubt {
            file: String::from_str(alloc, file)?,
            within,
        }),
        None => Ok(LineCommand::Bad(no_value(alloc, "db <FILE>")?)),
    }
}

fn task_of(alloc: Global, found: &ArgMatches<'_>, task: Task) -> Result<LineCommand, AllocError>
    ensures asks { (words : List (List ℕ))
        → Names words (task_name task) (rows_of (found_of found.now))
        → IfOk result (Asks words) }
    ensures range { IfOk result IsInRange }
{
    match found.get_str("db") {
        Some(file) => Ok(LineCommand::Whole {
            file: String::from_str(alloc, file)?,
            task,
        }),
        None => Ok(LineCommand::Bad(no_value(alloc, "db <FILE>")?)),
    }
}

/// Returns how many connections are served: without the option, 4,294,967,295.
fn connections_in(found: &ArgMatches<'_>) -> Option<u32>
    ensures some { IfSome result
        (Serves (first_of (codes "connections") (rows_of (found_of found.now)))) }
    ensures none { IsNone result
        → ServesNone (first_of (codes "connections") (rows_of (found_of found.now))) }
{
    match found.get_str("connections") {
        Some(text) => numeral(text, u32::MAX),
        None => Some(u32::MAX),
    }
}

/// Returns the tolerance at each splice, in pieces: without the option, 0.
fn within_in(found: &ArgMatches<'_>) -> Option<u32>
    ensures some { IfSome result
        (IsWithin (first_of (codes "within") (rows_of (found_of found.now)))) }
    ensures none { IsNone result
        → IsWithinNone (first_of (codes "within") (rows_of (found_of found.now))) }
{
    match found.get_str("within") {
        Some(text) => numeral(text, u32::MAX),
        None => Some(0),
    }
}

/// Returns the machine, if the text of the option is a name.
fn machine_in(found: &ArgMatches<'_>) -> Option<Id>
    ensures some { IfSome result
        (ShowsName (first_of (codes "machine") (rows_of (found_of found.now)))) }
    ensures none { IsNone result
        → ShowsNoName (first_of (codes "machine") (rows_of (found_of found.now))) }
{
    match found.get_str("machine") {
        Some(text) => name_of(text),
        None => None,
    }
}

fn name_of(text: &str) -> Option<Id>
    ensures some { IfSome result (λ name. IsId text.now × (name ≡ text.now)) }
    ensures none { IsNone result → IsId text.now → ⊥ }
{
    Id::read(text.as_bytes())
}

/// Returns what is noted, if the text of the option is the name of such an entry's kind.
fn noted_in(found: &ArgMatches<'_>) -> Option<Noted>
    ensures some { IfSome result
        (ShowsNoted (first_of (codes "kind") (rows_of (found_of found.now)))) }
    ensures none { IsNone result
        → ShowsNoNoted (first_of (codes "kind") (rows_of (found_of found.now))) }
{
    match found.get_str("kind") {
        Some(text) => noted_of(text),
        None => None,
    }
}

fn noted_of(text: &str) -> Option<Noted>
    ensures some { IfSome result (ShowsNoted (Some text.now)) }
    ensures none { IsNone result → ShowsNoNoted (Some text.now) }
{
    if text == "decision" {
        Some(Noted::Decided)
    } else if text == "hold" {
        Some(Noted::Held)
    } else if text == "release" {
        Some(Noted::Released)
    } else {
        None
    }
}

fn no_command(alloc: Global) -> Result<String, AllocError> {
    String::from_str(alloc, "error: a command is required\n")
}

fn no_value(alloc: Global, option: &str) -> Result<String, AllocError> {
    format!(in alloc; "error: a value is required for '--{option}'\n")
}

fn no_number(alloc: Global, name: &str, most: u32) -> Result<String, AllocError> {
    format!(in alloc;
        "error: invalid value for '--{name} <N>': it is no number from 1 to {most}\n\nFor more information, try '--help'.\n"
    )
}

fn no_kind(alloc: Global) -> Result<String, AllocError> {
    String::from_str(
        alloc,
        "error: invalid value for '--kind <KIND>': it is decision, hold or release\n\nFor more information, try '--help'.\n",
    )
}

fn no_machine(alloc: Global) -> Result<String, AllocError> {
    String::from_str(
        alloc,
        "error: invalid value for '--machine <NAME>': a name has 1 to 64 printable ASCII characters, and no space at either end\n\nFor more information, try '--help'.\n",
    )
}

fn commands<'a>(alloc: Global) -> Result<clap::Command<'a>, AllocError>
    ensures { IfOk result (λ command. app_of command ≡ commands) }
{
    let program = bare(alloc)?;
    let with_serve = program.subcommand(serve(alloc)?)?;
    let make = of_file(
        alloc,
        "make",
        "Make FILE with an empty history and an empty book where it isn't there or is empty, else the book that it lacks, and count both",
    )?;
    let with_make = with_serve.subcommand(make)?;
    let with_note = with_make.subcommand(note(alloc)?)?;
    let with_state = with_note.subcommand(state(alloc)?)?;
    let book = of_file(alloc, "book", "Print the book as CSV")?;
    let with_book = with_state.subcommand(book)?;
    let with_doubt = with_book.subcommand(doubt(alloc)?)?;
    let audit = of_file(
        alloc,
        "audit",
        "Check the history and the book in a file, and count both",
    )?;
    with_doubt.subcommand(audit)
}

fn bare<'a>(alloc: Global) -> Result<clap::Command<'a>, AllocError>
    ensures { IfOk result (λ command. app_of command ≡ bare) }
{
    let program = clap::Command::new(alloc, "tracedesk-line")
        .about(
            "Serve a line by the history and the book of its file, and say whether its machines may work",
        )
        .version("1.0.0")
        .after_help(NOTES)
        .bin_name("tracedesk-line")?
        .no_binary_name(true)
        .disable_help_subcommand(true)
        .subcommand_required(true);
    Ok(program)
}

fn serve<'a>(alloc: Global) -> Result<clap::Command<'a>, AllocError>
    ensures shape { IfOk result (λ command. shape_of command ≡ serve_shape) }
    ensures local { IfOk result (λ command. (out-Command command).has_globals ≡ false) }
{
    let start = clap::Command::new(alloc, "serve")
        .about("Answer requests over HTTP on 127.0.0.1, one connection after the other")
        .after_help(NOTES);
    let kept = with_wanted(
        alloc,
        start,
        "db",
        "FILE",
        "Keep the line in FILE; where FILE isn't there or is empty, make it",
    )?;
    let bound = with_wanted(alloc, kept, "port", "N", "The port, from 1 to 65535")?;
    let option = Arg::new(alloc, "connections")
        .long("connections")
        .value_name("N")
        .help("How many connections are served, from 1 to 4294967295, the default");
    bound.arg(option)
}

fn state<'a>(alloc: Global) -> Result<clap::Command<'a>, AllocError>
    ensures shape { IfOk result (λ command. shape_of command ≡ state_shape) }
    ensures local { IfOk result (λ command. (out-Command command).has_globals ≡ false) }
{
    let start = clap::Command::new(alloc, "state")
        .about("Print whether a machine may work, and each cause why not")
        .after_help(NOTES);
    let kept = with_wanted(
        alloc,
        start,
        "db",
        "FILE",
        "The file of the line, which nobody serves",
    )?;
    with_wanted(alloc, kept, "machine", "NAME", "The machine")
}

fn doubt<'a>(alloc: Global) -> Result<clap::Command<'a>, AllocError>
    ensures shape { IfOk result (λ command. shape_of command ≡ doubt_shape) }
    ensures local { IfOk result (λ command. (out-Command command).has_globals ≡ false) }
{
    let start = clap::Command::new(alloc, "doubt")
        .about(
            "Print the placed pieces that may be from another reel, each with the reason, as CSV",
        )
        .after_help(NOTES);
    let kept = with_wanted(
        alloc,
        start,
        "db",
        "FILE",
        "The file of the line, which nobody serves",
    )?;
    let option = Arg::new(alloc, "within")
        .long("within")
        .value_name("N")
        .help("How many pieces each splice may be off, from 1 to 4294967295; without it, none");
    kept.arg(option)
}

fn note<'a>(alloc: Global) -> Result<clap::Command<'a>, AllocError>
    ensures shape { IfOk result (λ command. shape_of command ≡ note_shape) }
    ensures local { IfOk result (λ command. (out-Command command).has_globals ≡ false) }
{
    let start = clap::Command::new(alloc, "note")
        .about(
            "Write what somebody decides, holds or releases into the book, and print the answer of the line's route",
        )
        .after_help(NOTES);
    let kept = with_wanted(
        alloc,
        start,
        "db",
        "FILE",
        "The file of the line, which nobody serves",
    )?;
    let named = with_wanted(
        alloc,
        kept,
        "kind",
        "KIND",
        "What is said: decision, hold or release",
    )?;
    with_wanted(
        alloc,
        named,
        "told",
        "TEXT",
        "What is said, as the body of a request",
    )
}

/// Returns a command that has a file alone.
fn of_file<'a>(
    alloc: Global,
    name: &'a str,
    about: &'a str,
) -> Result<clap::Command<'a>, AllocError>
    ensures shape { IfOk result (λ command. shape_of command ≡ file_shape name.now) }
    ensures local { IfOk result (λ command. (out-Command command).has_globals ≡ false) }
{
    let start = clap::Command::new(alloc, name)
        .about(about)
        .after_help(NOTES);
    with_wanted(
        alloc,
        start,
        "db",
        "FILE",
        "The file of the line, which nobody serves",
    )
}
