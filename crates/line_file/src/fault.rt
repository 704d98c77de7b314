//! Why the lists of a file can't be read.

use line_book_store::BookFault;
use line_schema::OpenFault;
use std::fmt;

/// The list at fault, and its fault.
#[derive(Clone, Copy, PartialEq, Eq)]
pub enum ListFault {
    /// The file holds no desk, or its history is wrong; or memory was refused, or the database failed.
    History(OpenFault),
    /// The history is right, and the book is wrong.
    Book(BookFault),
}

/// The fault of the history; or, after `book`, that of the book, with its number.
impl fmt::Display for ListFault {
    ghost use Rattle.std.specs.Prelude.{Some};
    ghost use Rattle.line_file.specs.Fault.{list_fault_text};

    ghost output = { λ fault. Some (list_fault_text fault) };

    fn fmt<W: fmt::Write>(&self, f: &mut fmt::Formatter<W>) -> fmt::Result {
        match self {
            ListFault::History(fault) => write!(f, "{fault}"),
            ListFault::Book(BookFault::OthersFirst) => f.write_str("book OthersFirst"),
            ListFault::Book(BookFault::OtherColumns) => f.write_str("book OtherColumns"),
            ListFault::Book(BookFault::WrongEntry(number)) => {
                write!(f, "book WrongEntry {number}")
            }
            ListFault::Book(BookFault::Unavailable) => f.write_str("book Unavailable"),
        }
    }
}

/// Memory was refused, or the database failed.
pub const UNAVAILABLE: ListFault = ListFault::History(OpenFault::Unavailable);
