//! Why a command has no row, or a row no command.

use std::alloc::AllocError;

/// Why a row is not made: memory was refused, or a text is not UTF-8. Each text of a command and of an answer is UTF-8.
#[derive(Clone, Copy, PartialEq, Eq)]
pub struct NoRow;

impl From<AllocError> for NoRow {
    ghost use Rattle.std.specs.Prelude.{⊤};

    ghost from_gives = { λ _ _. ⊤ };

    fn from(_error: AllocError) -> NoRow {
        NoRow
    }
}

/// Why a row is not accepted.
#[derive(Clone, Copy, PartialEq, Eq)]
pub enum RowFault {
    /// The row does not continue the history.
    NotLawful,
    /// Memory was refused.
    NoMemory,
}

impl From<AllocError> for RowFault {
    ghost use Rattle.std.specs.Prelude.{◌≡◌};
    ghost use Rattle.line_replay.specs.declared.row_fault.RowFault.TheVariants.{NoMemory};

    ghost from_gives = { λ _ fault. fault ≡ NoMemory };

    fn from(_error: AllocError) -> RowFault {
        RowFault::NoMemory
    }
}
