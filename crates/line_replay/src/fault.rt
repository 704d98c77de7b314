//! Why a replay fails.

use std::alloc::AllocError;

/// Why a replay fails.
#[derive(Clone, Copy, PartialEq, Eq)]
pub enum ReplayFault {
    /// The first place, from 1, where the rows do not continue the history.
    NotLawful(u32),
    /// Memory was refused, or the database failed.
    Unavailable,
}

impl From<AllocError> for ReplayFault {
    ghost use Rattle.std.specs.Prelude.{◌≡◌};
    ghost use Rattle.line_replay.specs.declared.fault.ReplayFault.TheVariants.{Unavailable};

    ghost from_gives = { λ _ fault. fault ≡ Unavailable };

    fn from(_error: AllocError) -> ReplayFault {
        ReplayFault::Unavailable
    }
}

impl From<sqlite::Error> for ReplayFault {
    ghost use Rattle.std.specs.Prelude.{◌≡◌};
    ghost use Rattle.line_replay.specs.declared.fault.ReplayFault.TheVariants.{Unavailable};

    ghost from_gives = { λ _ fault. fault ≡ Unavailable };

    fn from(_error: sqlite::Error) -> ReplayFault {
        ReplayFault::Unavailable
    }
}
