//! Reading the rows of a book in turn.

ghost use Rattle.std.specs.Prelude.{◌≡◌, ◌+◌, ◌==◌, Option, IfOk, OnOk};
ghost use Rattle.line_book.specs.declared.kind.Names.{Names};
ghost use Rattle.line_book.specs.Restored.{Follows};
ghost use Rattle.line_book.specs.Rows.{HasNames, carries_by, command_in, entry_in, first_reading, is_about, is_begun, is_placed, is_refusal, matter_in, read_on, test, text_of};

use crate::kind::{Kind, Names, matter_of};
use crate::note::{Matter, Note};
use crate::row::BookRow;
use cfx_profile::{MessageFault, Said, read_message};
use desk_types::{Listing, Text};
use std::alloc::{AllocError, Global};

/// Why a row can't be an entry of the book.
#[derive(Clone, Copy, PartialEq, Eq)]
pub enum RowFault {
    /// Its number isn't that of the entry before it plus 1.
    WrongNumber,
    /// Its place is before that of the entry before it, or behind the history.
    WrongPlace,
    /// No entry has the kind.
    UnknownKind,
    /// A column that the kind needs is empty, one that it doesn't have isn't, or one is no name.
    WrongColumns,
    /// It can't be about the entry with that number.
    WrongOf,
    /// It is about a refusal, and doesn't tell the message.
    WrongTold,
}

/// What the rows so far say of the next one.
#[derive(Clone, Copy, PartialEq, Eq)]
pub struct Reading {
    /// The number of accepted commands in the history.
    pub commands: u64,
    /// The number of rows so far.
    pub entries: u32,
    /// The place of the last one.
    pub after: u32,
    /// Whether one says that the file was begun from a sealed file.
    pub begun: bool,
}

impl Reading {
    /// Returns what is read before the first row, with so many accepted commands in the history.
    pub fn new(commands: u64) -> Reading
        ensures { result ≡ first_reading commands }
    {
        Reading {
            commands,
            entries: 0,
            after: 0,
            begun: false,
        }
    }

    /// Returns the entry of the next row, or the row's first fault. After a fault nothing is read on.
    #[tactic(auto, unfolding(crate::specs::Rows::entry_in))]
    pub fn next(
        &mut self,
        alloc: Global,
        row: &BookRow,
    ) -> Result<Result<Note, RowFault>, AllocError>
        ensures entry { IfOk result (λ read. (named : Option Names) × HasNames row.now named
            × (read ≡ entry_in self.old row.now named)) }
        ensures on { IfOk result (λ read. IfOk read (λ note. self.new ≡ read_on self.old note)) }
        // So the rows of a book make a book.
        ensures follows { IfOk result (λ read. IfOk read
            (Follows self.old.commands self.old.entries self.old.after)) }
    {
        let named = Names::read(row);
        let matter = match self.matter(row, named) {
            Ok(matter) => matter,
            Err(fault) => return Ok(Err(fault)),
        };
        let Some(text) = text_of(alloc, &matter, &row.told)? else {
            return Ok(Err(RowFault::WrongTold));
        };
        self.entries = row.number;
        self.after = row.after;
        self.begun = self.begun || is_begun(&matter);
        Ok(Ok(Note {
            number: row.number,
            after: row.after,
            carries: carries_by(row.of, &matter),
            matter,
            text,
        }))
    }

    #[tactic(auto, unfolding(crate::specs::Rows::matter_in))]
    fn matter(&self, row: &BookRow, named: Option<Names>) -> Result<Matter, RowFault>
        ensures { result ≡ matter_in self.now row.now named }
    {
        test(self.is_next(row), RowFault::WrongNumber)?;
        test(self.is_placed(row), RowFault::WrongPlace)?;
        let kind = Kind::read(&row.kind).ok_or(RowFault::UnknownKind)?;
        let names = named.ok_or(RowFault::WrongColumns)?;
        let matter = matter_of(kind, &names, row.of).ok_or(RowFault::WrongColumns)?;
        test(self.is_about(row.of, &matter), RowFault::WrongOf)?;
        Ok(matter)
    }

    fn is_next(&self, row: &BookRow) -> bool
        ensures { result ≡ (row.now.number == self.now.entries + 1) }
    {
        row.number > 0 && row.number - 1 == self.entries
    }

    fn is_placed(&self, row: &BookRow) -> bool
        ensures { result ≡ is_placed self.now row.now }
    {
        self.after <= row.after && u64::from(row.after) <= self.commands
    }

    fn is_about(&self, of: u32, matter: &Matter) -> bool
        ensures { result ≡ is_about self.now of matter.now }
    {
        match matter {
            Matter::Decision { about } => 0 < *about && *about <= self.entries,
            Matter::Made => of == 0,
            Matter::Begun => of == 0,
            Matter::Restored => of == 0,
            _ => of == 0 || self.begun,
        }
    }
}

fn test(passes: bool, fault: RowFault) -> Result<(), RowFault>
    ensures { result ≡ test passes fault }
{
    if passes { Ok(()) } else { Err(fault) }
}

fn carries_by(of: u32, matter: &Matter) -> u32
    ensures { result ≡ carries_by of matter.now }
{
    match matter {
        Matter::Decision { .. } => 0,
        _ => of,
    }
}

fn is_begun(matter: &Matter) -> bool
    ensures { result ≡ is_begun matter.now }
{
    match matter {
        Matter::Begun => true,
        _ => false,
    }
}

fn is_refusal(matter: &Matter) -> bool
    ensures { result ≡ is_refusal matter.now }
{
    match matter {
        Matter::Handling { .. } => true,
        Matter::Stray { .. } => true,
        Matter::Work { .. } => true,
        _ => false,
    }
}

fn text_of(alloc: Global, matter: &Matter, told: &str) -> Result<Option<Text>, AllocError>
    ensures { IfOk result (λ text. text ≡ text_of matter.now told.now) }
{
    if let Matter::Unread { .. } = matter {
        return Ok(Some(Listing::new(told.as_bytes().to_vec(alloc)?)));
    }
    if !is_refusal(matter) {
        return Ok(Some(Listing::new(Vec::new(alloc))));
    }
    command_in(alloc, told)
}

fn command_in(alloc: Global, told: &str) -> Result<Option<Text>, AllocError>
    ensures { IfOk result (λ text. text ≡ command_in told.now) }
{
    match read_message(alloc, told.as_bytes()) {
        Ok(Said::Asked(stamped)) => Ok(Some(stamped.command.write_text(alloc)?)),
        Ok(Said::Ignored(_)) => Ok(None),
        Err(MessageFault::NoMemory) => Err(AllocError),
        Err(_) => Ok(None),
    }
}
