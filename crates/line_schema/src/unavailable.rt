//! Why a call failed.

use line_replay::NoRow;
use std::alloc::AllocError;

/// Memory was refused, or the database failed. The history is unchanged, and the call may be
/// repeated. After a failed commit, a crash may still leave the command.
#[derive(Clone, Copy, PartialEq, Eq)]
pub struct Unavailable;

impl From<AllocError> for Unavailable {
    ghost use Rattle.std.specs.Prelude.{⊤};

    ghost from_gives = { λ _ _. ⊤ };

    fn from(_error: AllocError) -> Unavailable {
        Unavailable
    }
}

impl From<NoRow> for Unavailable {
    ghost use Rattle.std.specs.Prelude.{⊤};

    ghost from_gives = { λ _ _. ⊤ };

    fn from(_error: NoRow) -> Unavailable {
        Unavailable
    }
}

impl From<sqlite::Error> for Unavailable {
    ghost use Rattle.std.specs.Prelude.{⊤};

    ghost from_gives = { λ _ _. ⊤ };

    fn from(_error: sqlite::Error) -> Unavailable {
        Unavailable
    }
}
