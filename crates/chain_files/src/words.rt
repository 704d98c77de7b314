//! The command line.

ghost use Rattle.std.specs.Prelude.{◌≡◌, ◌∷◌, ◌++◌, [], ℕ, Bool, List, false, true, IfSome, IsNone, codes, map, string_bytes};
ghost use Rattle.chain_files.specs.declared.marks.Links.{Links};
ghost use Rattle.chain_files.specs.declared.words.Chosen.{Chosen};
ghost use Rattle.chain_files.specs.declared.words.Whose.{Whose};
ghost use Rattle.chain_files.specs.Words.{AreBehind, ArePlain, Asks, Begins, HasFiles, HasName, HasNoPart, HasOptions, IsNamedLast, IsPart, IsSaid, NameFiles, NotFirst, flag_words, kind_of, kind_word, link_words, part_words};

use crate::marks::Links;
use desk_types::Id;

/// Whose pieces are looked for, by the words.
#[derive(Clone, Copy)]
pub enum Whose {
    /// A lot, or its pieces of one part.
    Lot { lot: Id, part: Option<Id> },
    Board(Id),
    Reel(Id),
    /// The reels that a file lists.
    Listed,
}

/// What is asked, by the words.
#[derive(Clone, Copy)]
pub enum Asked {
    /// Whether the files are a chain.
    Chain,
    /// The boards with a piece of these, or the lots with a piece on a board.
    Names(Whose),
    /// Each piece.
    Pieces(Whose),
}

/// The verb of a question about pieces.
#[derive(Clone, Copy)]
pub enum Kind {
    Lot,
    Board,
    Reel,
    Reels,
}

/// The meaning of a command line.
#[derive(Clone, Copy)]
pub enum ChainCommand<'a> {
    /// Recall over these files, the oldest first. The word is the one behind the verb: a name, or the path of a list.
    Recall {
        asked: Asked,
        word: &'a str,
        links: Links,
        files: &'a [String],
    },
    /// Compare the desk in the old file with the one that follows it in the new file.
    Alike {
        old: &'a str,
        new: &'a str,
    },
    /// Print the help.
    Help,
    /// Print the version.
    Version,
    /// No meaning.
    Bad,
}

/// What the program does.
pub const HELP: &str = "\
Says whether desk files are the chain of one line, recalls a lot, a board or reels over them, or compares two desks.

Usage: tracedesk-chain check [OPTION].. [--] FILE..
       tracedesk-chain lot NAME [OPTION].. [--] FILE..
       tracedesk-chain board NAME [OPTION].. [--] FILE..
       tracedesk-chain reel NAME [OPTION].. [--] FILE..
       tracedesk-chain reels LIST [OPTION].. [--] FILE..
       tracedesk-chain alike [--] OLD NEW

Name the files oldest first. Each file after the first has to be begun from the very file before it: its first UniqueID
names the checksum of that one, by 24 digits or more, and all that it has are compared. Each file is opened as an audit
opens it. A file with a log beside it gets what the log holds when it is closed, as by an audit, so its checksum changes.
Standard error has a line for each file, and names the archive from which its desk was begun. Standard output has a
header and a row for each file, name or piece:

check: file,begun,commands,minute. That is with how many commands a desk was begun, how many it has, and its last minute.

lot: board,file. Each board with a piece of the lot, once a file. With `board` it is lot,file, each lot with a piece on
the board; with `reel` board,file, each board with a piece of the reel; with `reels` the same of any of the reels that the
file LIST names, one a line. A name that no file knows is no error: without others, only the header is printed.

alike: compares the desk in OLD, which was closed, with the one that follows it in NEW, right after its begin. It prints
`alike <reels> <mounts>`, the reels and mounts of the new desk, if the desks are alike and the new one received the
pieces that were left of each reel. Otherwise it prints the first difference, as `differs reel K1 remaining 47 46`.

Options, in this order, behind the name:
  --part PART      With `lot`: only the pieces of this part
  --pieces         Print each piece: board,designator,part,lot,reel,machine,slot,overdue,minute,file
  --from-middle    The first file is one that was begun from an older file, which is left out
  --without-marks  A later file need not name the file before it. Then a file that is missing in the middle may not show,
                   nor that another desk was begun from one of these; the last line on standard error says so
  --               What comes behind it is no option: files, or NAME and the files, as in `lot --pieces -- --odd a.db`

  --help           Print help
  --version        Print the version

Exit status:
  0  The files are a chain, and the answer was printed; or two desks are alike; or help or the version was printed
  1  They are not: standard error names the first file that does not carry on the one before it, and a difference; or two desks are not alike, and the output names a difference
  2  The command line asks for nothing that the program does: a name or a file that begins as an option does comes behind --
  3  A file was refused, or LIST, or memory was; standard error names the file, or old or new, and its fault
  4  The output failed
  5  The first file was begun from another, or a later one was not begun from the file before it: standard error names the file, and the archive that it was begun from

Examples:
  tracedesk-chain check archive/L1-2026* desk.db
  tracedesk-chain lot L4711 archive/L1-2026* desk.db > boards.csv
  tracedesk-chain reels recalled.txt archive/L1-2026* desk.db > boards.csv
  tracedesk-chain board B1 --pieces archive/L1-2026* desk.db
  tracedesk-chain alike line-1.db line-2.db
";

/// The program's name and version.
pub const VERSION: &str = "tracedesk-chain 1.0.0\n";

/// Reads the arguments.
pub fn read_words<'a>(words: &'a [String]) -> ChainCommand<'a>
    ensures { Asks (map string_bytes words.now) result }
{
    let Some((verb, rest)) = words.split_first() else {
        return ChainCommand::Bad;
    };
    match verb.as_str() {
        "check" => match checked_in(rest) {
            Some((links, files)) => ChainCommand::Recall {
                asked: Asked::Chain,
                word: "",
                links,
                files,
            },
            None => ChainCommand::Bad,
        },
        "lot" => recall_in(Kind::Lot, rest),
        "board" => recall_in(Kind::Board, rest),
        "reel" => recall_in(Kind::Reel, rest),
        "reels" => recall_in(Kind::Reels, rest),
        "alike" => match compared_in(rest) {
            Some((old, new)) => ChainCommand::Alike { old, new },
            None => ChainCommand::Bad,
        },
        "--help" => ChainCommand::Help,
        "--version" => ChainCommand::Version,
        _ => ChainCommand::Bad,
    }
}

/// The options of a question about pieces.
#[derive(Clone, Copy)]
struct Chosen {
    part: Option<Id>,
    with_pieces: bool,
    links: Links,
}

/// Returns the recall that the words behind this verb ask for.
fn recall_in<'a>(kind: Kind, words: &'a [String]) -> ChainCommand<'a>
    ensures { Asks (kind_word kind ∷ map string_bytes words.now) result }
{
    match named_in(kind, words) {
        Some(named) => recall_of(named.0, named.1, named.2, named.3),
        None => ChainCommand::Bad,
    }
}

/// Returns the recall with these options.
fn recall_of<'a>(
    whose: Whose,
    chosen: Chosen,
    word: &'a str,
    files: &'a [String],
) -> ChainCommand<'a>
    ensures { (words : List (List ℕ))
        → HasName words whose word.now chosen (map string_bytes files.now)
        → Asks (kind_word (kind_of whose) ∷ words) result }
{
    let links = chosen.links;
    if chosen.with_pieces {
        return ChainCommand::Recall {
            asked: Asked::Pieces(whose),
            word,
            links,
            files,
        };
    }
    ChainCommand::Recall {
        asked: Asked::Names(whose),
        word,
        links,
        files,
    }
}

/// Returns the options and the files.
fn checked_in<'a>(words: &'a [String]) -> Option<(Links, &'a [String])>
    ensures some { IfSome result (λ found.
        HasFiles (map string_bytes words.now) found.0 (map string_bytes found.1.now)) }
    ensures none { IsNone result → (links : Links) (paths : List (List ℕ))
        → ¬ HasFiles (map string_bytes words.now) links paths }
{
    let (links, rest) = links_in(words);
    let files = files_in(rest)?;
    Some((links, files))
}

/// Returns the two files to compare.
fn compared_in<'a>(words: &'a [String]) -> Option<(&'a str, &'a str)>
    ensures some { IfSome result (λ found.
        NameFiles (map string_bytes words.now) (found.0.now ∷ found.1.now ∷ [])) }
    ensures none { IsNone result → (old new : List ℕ)
        → ¬ NameFiles (map string_bytes words.now) (old ∷ new ∷ []) }
{
    let files = files_in(words)?;
    let [old, new] = files else {
        return None;
    };
    Some((old.as_str(), new.as_str()))
}

/// What is looked for, the options, the word behind the verb, and the files.
type Named<'a> = (Whose, Chosen, &'a str, &'a [String]);

/// Returns what the words behind this verb ask for.
fn named_in<'a>(kind: Kind, words: &'a [String]) -> Option<Named<'a>>
    ensures some { IfSome result (λ found. (kind_of found.0 ≡ kind)
        × HasName (map string_bytes words.now) found.0 found.2.now found.1
        (map string_bytes found.3.now)) }
    ensures none { IsNone result
        → (whose : Whose) (word : List ℕ) (chosen : Chosen) (paths : List (List ℕ))
        → kind_of whose ≡ kind → ¬ HasName (map string_bytes words.now) whose word chosen paths }
{
    let (first, rest) = words.split_first()?;
    let word = first.as_str();
    if begins_with(word, "--") {
        return named_last(kind, words);
    }
    let (chosen, rest) = options_in(rest);
    let files = files_in(rest)?;
    let whose = whose_of(kind, word, chosen.part)?;
    Some((whose, chosen, word, files))
}

/// The same where options and `--` come before the name.
fn named_last<'a>(kind: Kind, words: &'a [String]) -> Option<Named<'a>>
    ensures some { IfSome result (λ found. (kind_of found.0 ≡ kind)
        × IsNamedLast (map string_bytes words.now) found.0 found.2.now found.1
        (map string_bytes found.3.now)) }
    ensures none { IsNone result
        → (whose : Whose) (word : List ℕ) (chosen : Chosen) (paths : List (List ℕ))
        → kind_of whose ≡ kind
        → ¬ IsNamedLast (map string_bytes words.now) whose word chosen paths }
{
    let (chosen, rest) = options_in(words);
    let (ends, rest) = rest.split_first()?;
    let (first, files) = rest.split_first()?;
    if ends.as_str() != "--" || files.is_empty() {
        return None;
    }
    let word = first.as_str();
    let whose = whose_of(kind, word, chosen.part)?;
    Some((whose, chosen, word, files))
}

/// Returns what is looked for, by the word behind the verb and the part.
fn whose_of(kind: Kind, word: &str, part: Option<Id>) -> Option<Whose>
    ensures some { IfSome result (λ whose. (kind_of whose ≡ kind) × IsSaid whose word.now part) }
    ensures none { IsNone result
        → (whose : Whose) → kind_of whose ≡ kind → ¬ IsSaid whose word.now part }
{
    if let Kind::Lot = kind {
        let lot = Id::read(word.as_bytes())?;
        return Some(Whose::Lot { lot, part });
    }
    if part.is_some() {
        return None;
    }
    if let Kind::Reels = kind {
        return Some(Whose::Listed);
    }
    let name = Id::read(word.as_bytes())?;
    if let Kind::Board = kind {
        return Some(Whose::Board(name));
    }
    Some(Whose::Reel(name))
}

/// Returns the options that come first, and the words behind them.
fn options_in<'a>(words: &'a [String]) -> (Chosen, &'a [String])
    ensures words { HasOptions (map string_bytes words.now) result.0
        (map string_bytes result.1.now) }
    ensures only { (chosen : Chosen) (rest : List (List ℕ)) → AreBehind rest
        → HasOptions (map string_bytes words.now) chosen rest
        → (chosen ≡ result.0) × (rest ≡ map string_bytes result.1.now) }
{
    let (part, rest) = part_in(words);
    let (with_pieces, rest) = flag_in("--pieces", rest);
    let (links, rest) = links_in(rest);
    (
        Chosen {
            part,
            with_pieces,
            links,
        },
        rest,
    )
}

/// Returns the part that comes first, and the words after it.
fn part_in<'a>(words: &'a [String]) -> (Option<Id>, &'a [String])
    ensures words { map string_bytes words.now
        ≡ part_words result.0 ++ map string_bytes result.1.now }
    ensures part { IfSome result.0 IsPart }
    ensures none { IsNone result.0 → HasNoPart (map string_bytes result.1.now) }
{
    match read_part(words) {
        Some((part, rest)) => (Some(part), rest),
        None => (None, words),
    }
}

fn read_part<'a>(words: &'a [String]) -> Option<(Id, &'a [String])>
    ensures some { IfSome result (λ found. IsPart found.0 × (map string_bytes words.now
        ≡ codes "--part" ∷ found.0 ∷ map string_bytes found.1.now)) }
    ensures none { IsNone result → HasNoPart (map string_bytes words.now) }
{
    let (option, rest) = words.split_first()?;
    let (word, rest) = rest.split_first()?;
    if option.as_str() != "--part" || begins_with(word.as_str(), "--") {
        return None;
    }
    let part = Id::read(word.as_str().as_bytes())?;
    Some((part, rest))
}

/// Returns the options on the files, and the words behind them.
fn links_in<'a>(words: &'a [String]) -> (Links, &'a [String])
    ensures words { map string_bytes words.now
        ≡ link_words result.0 ++ map string_bytes result.1.now }
    ensures only { (links : Links) (rest : List (List ℕ)) → AreBehind rest
        → map string_bytes words.now ≡ link_words links ++ rest
        → (links ≡ result.0) × (rest ≡ map string_bytes result.1.now) }
{
    let (from_middle, rest) = flag_in("--from-middle", words);
    let (without_marks, rest) = flag_in("--without-marks", rest);
    (
        Links {
            from_middle,
            without_marks,
        },
        rest,
    )
}

/// Returns whether this option comes first, and the words after it.
fn flag_in<'a>(option: &str, words: &'a [String]) -> (bool, &'a [String])
    ensures words { map string_bytes words.now
        ≡ flag_words option.now result.0 ++ map string_bytes result.1.now }
    ensures none { result.0 ≡ false → NotFirst option.now (map string_bytes result.1.now) }
{
    match words.split_first() {
        Some((first, rest)) => {
            if first.as_str() == option {
                (true, rest)
            } else {
                (false, words)
            }
        }
        None => (false, words),
    }
}

/// Returns the files, at least one.
fn files_in<'a>(words: &'a [String]) -> Option<&'a [String]>
    ensures some { IfSome result (λ files.
        NameFiles (map string_bytes words.now) (map string_bytes files.now)) }
    ensures none { IsNone result → (paths : List (List ℕ))
        → ¬ NameFiles (map string_bytes words.now) paths }
    ensures only { IfSome result (λ files. (paths : List (List ℕ))
        → NameFiles (map string_bytes words.now) paths → paths ≡ map string_bytes files.now) }
{
    let (first, rest) = words.split_first()?;
    if first.as_str() == "--" {
        if rest.is_empty() {
            return None;
        }
        return Some(rest);
    }
    if !are_plain(words) {
        return None;
    }
    Some(words)
}

/// Returns whether no word looks like an option.
fn are_plain(words: &[String]) -> bool
    ensures yes { result ≡ true → ArePlain (map string_bytes words.now) }
    ensures no { result ≡ false → ¬ ArePlain (map string_bytes words.now) }
{
    for word in words {
        if begins_with(word.as_str(), "-") {
            return false;
        }
    }
    true
}

/// Returns whether a word begins with this text.
pub fn begins_with(word: &str, text: &str) -> bool
    ensures yes { result ≡ true → Begins text.now word.now }
    ensures no { result ≡ false → ¬ Begins text.now word.now }
{
    match word.strip_prefix(text) {
        Some(_) => true,
        None => false,
    }
}
