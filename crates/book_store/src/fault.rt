//! Why an entry isn't written.

use line_book::RowFault;
use line_schema::Unavailable;
use std::alloc::AllocError;

/// Why an entry isn't written.
#[derive(Clone, Copy, PartialEq, Eq)]
pub enum NoteFault {
    /// The row can't be the next entry. It would not be read again.
    NoEntry(RowFault),
    /// Memory was refused, or the database failed. The book is unchanged, and a crash may still leave
    /// the entry.
    Unavailable,
}

impl From<AllocError> for NoteFault {
    ghost use Rattle.std.specs.Prelude.{◌≡◌};
    ghost use Rattle.book_store.specs.declared.fault.NoteFault.TheVariants.{Unavailable};

    ghost from_gives = { λ _ fault. fault ≡ Unavailable };

    fn from(_error: AllocError) -> NoteFault {
        NoteFault::Unavailable
    }
}

impl From<Unavailable> for NoteFault {
    ghost use Rattle.std.specs.Prelude.{◌≡◌};
    ghost use Rattle.book_store.specs.declared.fault.NoteFault.TheVariants.{Unavailable as Fails};

    ghost from_gives = { λ _ fault. fault ≡ Fails };

    fn from(_error: Unavailable) -> NoteFault {
        NoteFault::Unavailable
    }
}
