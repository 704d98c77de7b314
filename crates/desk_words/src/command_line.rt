//! The command line.

ghost use Rattle.std.specs.Prelude.{◌≡◌, false, map, string_bytes, List, [], ℕ, IfOk, IfSome, IsNone, codes};
ghost use Rattle.clap.specs.Kinds.{HasKind};
ghost use Rattle.clap.specs.Matches.{found_of};
ghost use Rattle.clap.specs.Simple.{app_of, shape_of, subcommand_rows_of, with_rule};
ghost use Rattle.clap.specs.Walk.{first_of, rows_of};
ghost use Rattle.clap.specs.Values.{IsUnsignedIn};
ghost use Rattle.clap.specs.declared.builder.command.Command.TheViews.{out-Command};
ghost use Rattle.desk_words.specs.CommandLine.{audit_shape, bare, commands, counts_in, feed_shape, greatest_rule, import_counts_shape, import_setup_shape, migrate_shape, named_by, number_of, report_shape, serve_shape, setup_in, text_of, told_of, required_option, with_answering, with_stamp, Asks, GoesUpTo, HasNoGreatest, IsInRange, Names, NamesImport, Shows, ShowsNone};

use clap::error::ErrorKind;
use clap::{Arg, ArgMatches};
use desk_feed::{BadOption, counts_import, setup_import};
use desk_types::{MOST_CONNECTIONS, MOST_ENTRIES, MOST_PORT};
use imports::Import;
use std::alloc::{AllocError, Global};

/// The meaning of a command line.
#[derive(Drop)]
pub enum CommandLine {
    /// Answer the lines of standard input.
    Feed {
        /// The desk's file. Without one it is in memory.
        file: Option<String>,
        /// The greatest number of a desk that this run makes.
        greatest: u32,
    },
    /// Serve connections, one after another.
    Serve {
        file: String,
        port: u16,
        connections: u32,
        greatest: u32,
    },
    /// Print a report.
    Report {
        file: String,
        /// The target of the request, such as `/slots?machine=M`.
        target: String,
    },
    /// Audit the desk in a file.
    Audit {
        file: String,
    },
    /// Migrate a desk's file from version 1 to version 2.
    Migrate {
        file: String,
    },
    /// Answer an import.
    Import {
        file: String,
        import: Import,
        /// The file with its records.
        from: String,
    },
    /// Answer an import with this unreadable option.
    BadOption(BadOption),
    /// Print this text, help or the version, on standard output.
    Text(String),
    /// No meaning. This text, for standard error, says why.
    Bad(String),
}

/// The exit statuses, for the help.
const STATUSES: &str = "\
Exit status:
  0  Each line was Accepted or Ignored, each request answered 200 or 202, the import was Accepted, the report given, the audit found nothing wrong, the file was migrated, or help or the version was asked for
  1  Some line or request, or the import, was answered otherwise, a connection failed, or there is no such report
  2  The command line asks for nothing that the program does
  3  The desk's file was refused, or memory was, outside of a line
  4  Input or output failed, the import's file can't be read, or the port can't be had";

/// Reads the arguments.
pub fn read_words(alloc: Global, words: &[String]) -> Result<CommandLine, AllocError>
    // Leaves open which text is printed for help, for the version or for a mistake.
    ensures asks { IfOk result (Asks (map string_bytes words.now)) }
    // `open_desk` and `in_memory` require these bounds of the greatest number.
    ensures range { IfOk result IsInRange }
{
    let command = commands(alloc)?;
    match command.try_get_matches_from(words) {
        Ok(matches) => command_of(alloc, &matches),
        Err(error) => help_or_mistake(alloc, &error),
    }
}

fn help_or_mistake(alloc: Global, error: &clap::Error) -> Result<CommandLine, AllocError>
    ensures asks { (words : List (List ℕ)) → HasKind (told_of words) error.now
        → IfOk result (Asks words) }
    ensures range { IfOk result IsInRange }
{
    if error.kind() == ErrorKind::OutOfMemory {
        return Err(AllocError);
    }
    let text = format!(in alloc; "{error}")?;
    if error.use_stderr() {
        Ok(CommandLine::Bad(text))
    } else {
        Ok(CommandLine::Text(text))
    }
}

fn command_of(alloc: Global, matches: &ArgMatches<'_>) -> Result<CommandLine, AllocError>
    // The words were parsed without a mistake, so one of the commands is named.
    requires named { (words : List (List ℕ)) × (told_of words ≡ [])
        × (subcommand_rows_of matches.now ≡ named_by words) }
    ensures asks { (words : List (List ℕ)) → told_of words ≡ []
        → subcommand_rows_of matches.now ≡ named_by words
        → IfOk result (Asks words) }
    ensures range { IfOk result IsInRange }
{
    match matches.subcommand() {
        Some((name, found)) if name == "audit" => audit_of(alloc, found),
        Some((name, found)) if name == "migrate" => migrate_of(alloc, found),
        Some((name, found)) if name == "import-setup" => {
            let said = setup_in(found);
            import_of(alloc, found, said)
        }
        Some((name, found)) if name == "import-counts" => {
            let said = counts_in(found);
            import_of(alloc, found, said)
        }
        Some((name, found)) if name == "serve" => serve_of(alloc, found),
        Some((name, found)) if name == "report" => report_of(alloc, found),
        Some((_, found)) => feed_of(alloc, found),
        None => unreachable!(),
    }
}

fn feed_of(alloc: Global, found: &ArgMatches<'_>) -> Result<CommandLine, AllocError>
    ensures asks { (words : List (List ℕ))
        → Names words (codes "feed") (rows_of (found_of found.now))
        → IfOk result (Asks words) }
    ensures range { IfOk result IsInRange }
{
    let Some(greatest) = greatest_in(found) else {
        return Ok(CommandLine::Bad(no_greatest(alloc, found)?));
    };
    let file = match found.get_str("db") {
        None => None,
        Some(file) => Some(String::from_str(alloc, file)?),
    };
    Ok(CommandLine::Feed { file, greatest })
}

fn serve_of(alloc: Global, found: &ArgMatches<'_>) -> Result<CommandLine, AllocError>
    ensures asks { (words : List (List ℕ))
        → Names words (codes "serve") (rows_of (found_of found.now))
        → IfOk result (Asks words) }
    ensures range { IfOk result IsInRange }
{
    let Some(port) = number_in(found, "port", MOST_PORT) else {
        return Ok(CommandLine::Bad(no_number(alloc, found, "port", MOST_PORT)?));
    };
    let Some(connections) = number_in(found, "connections", MOST_CONNECTIONS) else {
        return Ok(CommandLine::Bad(no_number(alloc, found, "connections", MOST_CONNECTIONS)?));
    };
    let Some(greatest) = greatest_in(found) else {
        return Ok(CommandLine::Bad(no_greatest(alloc, found)?));
    };
    match found.get_str("db") {
        Some(file) => Ok(CommandLine::Serve {
            file: String::from_str(alloc, file)?,
            port: port as u16,
            connections,
            greatest,
        }),
        None => Ok(CommandLine::Bad(no_file(alloc)?)),
    }
}

fn report_of(alloc: Global, found: &ArgMatches<'_>) -> Result<CommandLine, AllocError>
    ensures asks { (words : List (List ℕ))
        → Names words (codes "report") (rows_of (found_of found.now))
        → IfOk result (Asks words) }
    ensures range { IfOk result IsInRange }
{
    match (found.get_str("db"), found.get_str("get")) {
        (Some(file), Some(target)) => Ok(CommandLine::Report {
            file: String::from_str(alloc, file)?,
            target: String::from_str(alloc, target)?,
        }),
        _ => Ok(CommandLine::Bad(no_file(alloc)?)),
    }
}

fn audit_of(alloc: Global, found: &ArgMatches<'_>) -> Result<CommandLine, AllocError>
    ensures asks { (words : List (List ℕ))
        → Names words (codes "audit") (rows_of (found_of found.now))
        → IfOk result (Asks words) }
    ensures range { IfOk result IsInRange }
{
    match found.get_str("db") {
        Some(file) => Ok(CommandLine::Audit {
            file: String::from_str(alloc, file)?,
        }),
        None => Ok(CommandLine::Bad(no_file(alloc)?)),
    }
}

fn migrate_of(alloc: Global, found: &ArgMatches<'_>) -> Result<CommandLine, AllocError>
    ensures asks { (words : List (List ℕ))
        → Names words (codes "migrate") (rows_of (found_of found.now))
        → IfOk result (Asks words) }
    ensures range { IfOk result IsInRange }
{
    match found.get_str("db") {
        Some(file) => Ok(CommandLine::Migrate {
            file: String::from_str(alloc, file)?,
        }),
        None => Ok(CommandLine::Bad(no_file(alloc)?)),
    }
}

fn import_of(
    alloc: Global,
    found: &ArgMatches<'_>,
    said: Result<Import, BadOption>,
) -> Result<CommandLine, AllocError>
    ensures asks { (words : List (List ℕ)) → NamesImport words (rows_of (found_of found.now)) said
        → IfOk result (Asks words) }
    ensures range { IfOk result IsInRange }
{
    let import = match said {
        Ok(import) => import,
        Err(option) => return Ok(CommandLine::BadOption(option)),
    };
    match (found.get_str("db"), found.get_str("file")) {
        (Some(file), Some(from)) => Ok(CommandLine::Import {
            file: String::from_str(alloc, file)?,
            import,
            from: String::from_str(alloc, from)?,
        }),
        _ => Ok(CommandLine::Bad(no_file(alloc)?)),
    }
}

fn setup_in(found: &ArgMatches<'_>) -> Result<Import, BadOption>
    ensures { result ≡ setup_in (rows_of (found_of found.now)) }
{
    let id = text_of(found, "id");
    let source = text_of(found, "source");
    let time = text_of(found, "time");
    let product = text_of(found, "product");
    let machine = text_of(found, "machine");
    setup_import(id, source, time, product, machine)
}

fn counts_in(found: &ArgMatches<'_>) -> Result<Import, BadOption>
    ensures { result ≡ counts_in (rows_of (found_of found.now)) }
{
    let id = text_of(found, "id");
    let source = text_of(found, "source");
    let time = text_of(found, "time");
    counts_import(id, source, time)
}

fn text_of<'m>(found: &'m ArgMatches<'_>, name: &str) -> &'m str
    ensures { result.now ≡ text_of (rows_of (found_of found.now)) name.now }
{
    match found.get_str(name) {
        Some(text) => text,
        None => "",
    }
}

fn no_file(alloc: Global) -> Result<String, AllocError> {
    String::from_str(alloc, "error: a value is required for '--db <FILE>'\n")
}

/// Returns the greatest number of a desk, from 1 to its default, 1,000,000,000.
fn greatest_in(found: &ArgMatches<'_>) -> Option<u32>
    // Without the option the number is the greatest that the option could have.
    ensures some { IfSome result
        (GoesUpTo (first_of (codes "greatest") (rows_of (found_of found.now)))) }
    ensures none { IsNone result → HasNoGreatest (rows_of (found_of found.now)) }
{
    match found.get_str("greatest") {
        Some(text) => numeral(text, MOST_ENTRIES as u32),
        None => Some(MOST_ENTRIES as u32),
    }
}

/// Returns the number in the text of an option, from 1 to the greatest.
pub fn number_in(found: &ArgMatches<'_>, name: &str, most: u32) -> Option<u32>
    // The option must be there: a number without it would be made up.
    ensures some { IfSome result (Shows most (first_of name.now (rows_of (found_of found.now)))) }
    ensures none { IsNone result
        → ShowsNone most (first_of name.now (rows_of (found_of found.now))) }
{
    match found.get_str(name) {
        Some(text) => numeral(text, most),
        None => None,
    }
}

/// Returns the number in a text, from 1 to the greatest.
pub fn numeral(text: &str, most: u32) -> Option<u32>
    ensures some { IfSome result (λ n. IsUnsignedIn 1 most text.now × (n ≡ number_of text.now)) }
    // Each numeral in range is read, also with a plus in front.
    ensures none { IsNone result → IsUnsignedIn 1 most text.now → ⊥ }
{
    let number = text.parse::<u32>().ok()?;
    if number < 1 || most < number {
        return None;
    }
    Some(number)
}

fn no_greatest(alloc: Global, found: &ArgMatches<'_>) -> Result<String, AllocError> {
    no_number(alloc, found, "greatest", MOST_ENTRIES as u32)
}

fn no_number(
    alloc: Global,
    found: &ArgMatches<'_>,
    name: &str,
    most: u32,
) -> Result<String, AllocError> {
    let text = text_of(found, name);
    format!(in alloc;
        "error: invalid value '{text}' for '--{name} <N>': it is no number from 1 to {most}\n\nFor more information, try '--help'.\n"
    )
}

fn commands<'a>(alloc: Global) -> Result<clap::Command<'a>, AllocError>
    ensures { IfOk result (λ command. app_of command ≡ commands) }
{
    let answering = with_answering(alloc)?;
    let with_report = answering.subcommand(report(alloc)?)?;
    let with_audit = with_report.subcommand(audit(alloc)?)?;
    with_audit.subcommand(migrate(alloc)?)
}

fn with_answering<'a>(alloc: Global) -> Result<clap::Command<'a>, AllocError>
    ensures { IfOk result (λ command. app_of command ≡ with_answering) }
{
    let tracedesk = bare(alloc)?;
    let with_feed = tracedesk.subcommand(feed(alloc)?)?;
    let with_serve = with_feed.subcommand(serve(alloc)?)?;
    let with_setup = with_serve.subcommand(import_setup(alloc)?)?;
    with_setup.subcommand(import_counts(alloc)?)
}

fn bare<'a>(alloc: Global) -> Result<clap::Command<'a>, AllocError>
    ensures { IfOk result (λ command. app_of command ≡ bare) }
{
    let tracedesk = clap::Command::new(alloc, "tracedesk")
        .about("Verify feeders and trace boards to lots and back")
        .version("1.0.0")
        .after_help(STATUSES)
        .bin_name("tracedesk")?
        .no_binary_name(true)
        .disable_help_subcommand(true)
        .subcommand_required(true);
    Ok(tracedesk)
}

fn feed<'a>(alloc: Global) -> Result<clap::Command<'a>, AllocError>
    ensures shape { IfOk result (λ command. shape_of command ≡ feed_shape) }
    ensures local { IfOk result (λ command. (out-Command command).has_globals ≡ false) }
{
    let file = Arg::new(alloc, "db").long("db").value_name("FILE").help(
        "Keep the desk in FILE; where FILE isn't there or is empty, make a desk",
    );
    let kept = clap::Command::new(alloc, "feed")
        .about("Answer the messages on standard input, one a line")
        .after_help(STATUSES)
        .arg(file)?;
    with_greatest(alloc, kept)
}

fn with_greatest<'a>(
    alloc: Global,
    command: clap::Command<'a>,
) -> Result<clap::Command<'a>, AllocError>
    requires local { (out-Command command).has_globals ≡ false }
    ensures shape { IfOk result
        (λ new. app_of new ≡ with_rule (app_of command.entry) greatest_rule) }
    ensures local { IfOk result (λ new. (out-Command new).has_globals ≡ false) }
{
    let option = Arg::new(alloc, "greatest")
        .long("greatest")
        .value_name("N")
        .help(
            "Number commands up to N, from 1 to 1000000000, the default; used only where a desk is made",
        );
    command.arg(option)
}

fn serve<'a>(alloc: Global) -> Result<clap::Command<'a>, AllocError>
    ensures shape { IfOk result (λ command. shape_of command ≡ serve_shape) }
    ensures local { IfOk result (λ command. (out-Command command).has_globals ≡ false) }
{
    let start = clap::Command::new(alloc, "serve")
        .about("Answer requests over HTTP on 127.0.0.1, one connection after the other")
        .after_help(STATUSES);
    let kept = with_wanted(
        alloc,
        start,
        "db",
        "FILE",
        "Keep the desk in FILE; where FILE isn't there or is empty, make a desk",
    )?;
    let bound = with_wanted(alloc, kept, "port", "N", "The port, from 1 to 65535")?;
    let ending = with_wanted(
        alloc,
        bound,
        "connections",
        "N",
        "How many connections are served, from 1 to 1000000",
    )?;
    with_greatest(alloc, ending)
}

fn report<'a>(alloc: Global) -> Result<clap::Command<'a>, AllocError>
    ensures shape { IfOk result (λ command. shape_of command ≡ report_shape) }
    ensures local { IfOk result (λ command. (out-Command command).has_globals ≡ false) }
{
    let start = clap::Command::new(alloc, "report")
        .about("Tell what a GET of a target is answered, as a list or a trace")
        .after_help(STATUSES);
    let kept = with_wanted(alloc, start, "db", "FILE", "The file that keeps the desk")?;
    with_wanted(
        alloc,
        kept,
        "get",
        "TARGET",
        "The target, as /slots?machine=M",
    )
}

fn import_setup<'a>(alloc: Global) -> Result<clap::Command<'a>, AllocError>
    ensures shape { IfOk result (λ command. shape_of command ≡ import_setup_shape) }
    ensures local { IfOk result (λ command. (out-Command command).has_globals ≡ false) }
{
    let start = clap::Command::new(alloc, "import-setup")
        .about("Answer a setup file: the sheet of a product on a machine")
        .after_help(STATUSES);
    let stamped = with_stamp(alloc, start)?;
    let made = with_wanted(alloc, stamped, "product", "NAME", "The product")?;
    let placed = with_wanted(alloc, made, "machine", "NAME", "The machine")?;
    with_wanted(
        alloc,
        placed,
        "file",
        "CSV",
        "The setup file: a header slot,part,designators and a row for each slot",
    )
}

fn import_counts<'a>(alloc: Global) -> Result<clap::Command<'a>, AllocError>
    ensures shape { IfOk result (λ command. shape_of command ≡ import_counts_shape) }
    ensures local { IfOk result (λ command. (out-Command command).has_globals ≡ false) }
{
    let start = clap::Command::new(alloc, "import-counts")
        .about("Answer a count file: the pieces of reels that were counted")
        .after_help(STATUSES);
    let stamped = with_stamp(alloc, start)?;
    with_wanted(
        alloc,
        stamped,
        "file",
        "CSV",
        "The count file: a header reel,quantity and a row for each reel",
    )
}

fn with_stamp<'a>(
    alloc: Global,
    command: clap::Command<'a>,
) -> Result<clap::Command<'a>, AllocError>
    requires local { (out-Command command).has_globals ≡ false }
    ensures shape { IfOk result (λ new. app_of new ≡ with_stamp (app_of command.entry)) }
    ensures local { IfOk result (λ new. (out-Command new).has_globals ≡ false) }
{
    let kept = with_wanted(alloc, command, "db", "FILE", "The file that keeps the desk")?;
    let named = with_wanted(
        alloc,
        kept,
        "id",
        "ID",
        "The UniqueID of the command; a repeat keeps it",
    )?;
    let said = with_wanted(alloc, named, "source", "NAME", "Who sends it")?;
    with_wanted(
        alloc,
        said,
        "time",
        "TIME",
        "When it happened, as 2026-03-02T06:00:00Z",
    )
}

/// The command with one more option, which is required.
pub fn with_wanted<'a>(
    alloc: Global,
    command: clap::Command<'a>,
    name: &'a str,
    value: &'a str,
    help: &'a str,
) -> Result<clap::Command<'a>, AllocError>
    requires local { (out-Command command).has_globals ≡ false }
    ensures shape { IfOk result
        (λ new. app_of new ≡ with_rule (app_of command.entry) (required_option name.now)) }
    ensures local { IfOk result (λ new. (out-Command new).has_globals ≡ false) }
{
    let option = Arg::new(alloc, name)
        .long(name)
        .value_name(value)
        .help(help)
        .required(true);
    command.arg(option)
}

fn audit<'a>(alloc: Global) -> Result<clap::Command<'a>, AllocError>
    ensures { IfOk result (λ command. (shape_of command ≡ audit_shape)
        × ((out-Command command).has_globals ≡ false)) }
{
    let file = Arg::new(alloc, "db")
        .long("db")
        .value_name("FILE")
        .help("The file that keeps the desk")
        .required(true);
    clap::Command::new(alloc, "audit")
        .about("Audit the desk in a file, and count its commands")
        .after_help(STATUSES)
        .arg(file)
}

fn migrate<'a>(alloc: Global) -> Result<clap::Command<'a>, AllocError>
    ensures { IfOk result (λ command. (shape_of command ≡ migrate_shape)
        × ((out-Command command).has_globals ≡ false)) }
{
    let file = Arg::new(alloc, "db")
        .long("db")
        .value_name("FILE")
        .help("The file of version 1 that keeps the desk")
        .required(true);
    clap::Command::new(alloc, "migrate")
        .about("Audit the desk in a file of version 1, and make the file version 2")
        .after_help(STATUSES)
        .arg(file)
}
