//! What is wrong with a book.

use std::alloc::AllocError;

/// What is wrong with a book: the first of these that applies. Unavailable may replace any other.
#[derive(Clone, Copy, PartialEq, Eq)]
pub enum BookFault {
    /// Another table stands first behind the desk's.
    OthersFirst,
    /// The table `book` has other columns.
    OtherColumns,
    /// The first number, from 1, whose entry is missing, can't be read, or can't follow those before
    /// it.
    WrongEntry(u32),
    /// Memory was refused, or the database failed.
    Unavailable,
}

impl From<AllocError> for BookFault {
    ghost use Rattle.std.specs.Prelude.{◌≡◌};
    ghost use Rattle.line_book_store.specs.declared.fault.BookFault.TheVariants.{Unavailable};

    ghost from_gives = { λ _ fault. fault ≡ Unavailable };

    fn from(_error: AllocError) -> BookFault {
        BookFault::Unavailable
    }
}

impl From<sqlite::Error> for BookFault {
    ghost use Rattle.std.specs.Prelude.{◌≡◌};
    ghost use Rattle.line_book_store.specs.declared.fault.BookFault.TheVariants.{Unavailable};

    ghost from_gives = { λ _ fault. fault ≡ Unavailable };

    fn from(_error: sqlite::Error) -> BookFault {
        BookFault::Unavailable
    }
}
