//! The question that the words ask, with the reels that a file lists.

ghost use Rattle.std.specs.Prelude.{◌≡◌, ◌⊎◌, [], ◌∷◌, ℕ, IfOk, IfErr};
ghost use Rattle.chain_files.specs.Listed.{HoldsList, IsBadLine, IsBadList, IsBadListOf, IsFaultOfList, IsListed, IsQuestion, IsSubject, without_feed};
ghost use Rattle.chain_files.specs.declared.listed.ListFault.TheVariants.{BadLine, NoMemory};

use crate::words::{Asked, Whose};
use chain_check::{Question, Subject};
use desk_feed::{Folder, UnreadFile};
use desk_types::{Id, IdList, LONGEST_INPUT, Listing};
use std::alloc::{AllocError, Global};
use std::fmt;

/// Why no question can be made of a list.
#[derive(Clone, Copy)]
pub enum ListFault {
    /// It could not be opened or read.
    Unread,
    /// It has more bytes than an input may have.
    TooLong,
    /// The line with this number, from 1, is no name.
    BadLine(u64),
    /// There was too little memory.
    NoMemory,
}

impl From<AllocError> for ListFault {
    ghost use Rattle.std.specs.Prelude.{◌≡◌};
    ghost use Rattle.chain_files.specs.declared.listed.ListFault.TheVariants.{NoMemory};

    ghost from_gives = { λ _ fault. fault ≡ NoMemory };

    fn from(_error: AllocError) -> ListFault {
        ListFault::NoMemory
    }
}

impl fmt::Display for ListFault {
    ghost use Rattle.std.specs.Prelude.{Some};
    ghost use Rattle.chain_files.specs.Listed.{list_fault_text};

    ghost output = { λ fault. Some (list_fault_text fault) };

    fn fmt<W: fmt::Write>(&self, f: &mut fmt::Formatter<W>) -> fmt::Result {
        match self {
            ListFault::Unread => f.write_str("the list can't be read"),
            ListFault::TooLong => write!(f, "the list is longer than {LONGEST_INPUT} bytes"),
            ListFault::BadLine(line) => write!(f, "line {line} is no name of a reel"),
            ListFault::NoMemory => f.write_str("Unavailable"),
        }
    }
}

/// Returns the question that the words ask.
pub fn question_of<F: Folder>(
    alloc: Global,
    folder: &F,
    asked: Asked,
    word: &str,
) -> Result<Question, ListFault>
    ensures ok { IfOk result (IsQuestion (F.holds folder.now word.now) asked) }
    ensures err { IfErr result
        (IsBadList (F.holds folder.now word.now) (F.may_fail folder.now word.now) asked) }
{
    match asked {
        Asked::Chain => Ok(Question::Chain),
        Asked::Names(whose) => match subject_of(alloc, folder, whose, word) {
            Ok(subject) => Ok(Question::Names(subject)),
            Err(fault) => Err(fault),
        },
        Asked::Pieces(whose) => match subject_of(alloc, folder, whose, word) {
            Ok(subject) => Ok(Question::Pieces(subject)),
            Err(fault) => Err(fault),
        },
    }
}

fn subject_of<F: Folder>(
    alloc: Global,
    folder: &F,
    whose: Whose,
    word: &str,
) -> Result<Subject, ListFault>
    ensures ok { IfOk result (IsSubject (F.holds folder.now word.now) whose) }
    ensures err { IfErr result
        (IsBadListOf (F.holds folder.now word.now) (F.may_fail folder.now word.now) whose) }
{
    match whose {
        Whose::Lot { lot, part } => Ok(Subject::Lot { lot, part }),
        Whose::Board(board) => Ok(Subject::Board(board)),
        Whose::Reel(reel) => Ok(Subject::Reels(one(alloc, reel)?)),
        Whose::Listed => match listed_in(alloc, folder, word) {
            Ok(reels) => Ok(Subject::Reels(reels)),
            Err(fault) => Err(fault),
        },
    }
}

fn one(alloc: Global, name: Id) -> Result<IdList, AllocError>
    ensures { IfOk result (λ names. names ≡ name ∷ []) }
{
    let mut names = Vec::new(alloc);
    names.push(name)?;
    Ok(Listing::new(names))
}

/// Returns the names in the file at this path.
fn listed_in<F: Folder>(alloc: Global, folder: &F, path: &str) -> Result<IdList, ListFault>
    ensures ok { IfOk result (HoldsList (F.holds folder.now path.now)) }
    ensures err { IfErr result
        (IsFaultOfList (F.holds folder.now path.now) (F.may_fail folder.now path.now)) }
{
    let bytes = match folder.read(alloc, path) {
        Ok(bytes) => bytes,
        Err(UnreadFile::Failed) => return Err(ListFault::Unread),
        Err(UnreadFile::NoMemory) => return Err(ListFault::NoMemory),
    };
    if bytes.len() > LONGEST_INPUT {
        return Err(ListFault::TooLong);
    }
    names_in(alloc, bytes.as_slice())
}

/// Returns the names in a text, one a line.
fn names_in(alloc: Global, bytes: &[u8]) -> Result<IdList, ListFault>
    ensures ok { IfOk result (IsListed bytes.now) }
    ensures err { IfErr result (λ fault. (fault ≡ NoMemory)
        ⊎ ((line : ℕ) × (fault ≡ BadLine line) × IsBadLine bytes.now line)) }
{
    let text = without_feed(bytes);
    let mut names = Vec::new(alloc);
    for line in text.split(|byte| *byte == b'\n') {
        match Id::read(line) {
            Some(name) => {
                let Ok(()) = names.push(name) else {
                    return Err(ListFault::NoMemory);
                };
            }
            None => return Err(ListFault::BadLine(names.len() as u64 + 1)),
        }
    }
    Ok(Listing::new(names))
}

/// Returns the text without the line feed at its end, if it has one.
fn without_feed<'a>(text: &'a [u8]) -> &'a [u8]
    ensures { result.now ≡ without_feed text.now }
{
    match text.strip_suffix(&[b'\n']) {
        Some(rest) => rest,
        None => text,
    }
}
