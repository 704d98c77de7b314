//! What is known of a slot at a place of the history, and what is asked about it.

ghost use Rattle.std.specs.Prelude.{◌≡◌, ◌+◌};

use desk_types::Id;

/// A value of the slot at a place, by the command or the entry with this number.
#[derive(Clone, Copy, PartialEq, Eq)]
pub struct Mark {
    pub at: u64,
    pub machine: Id,
    pub slot: Id,
    pub value: u64,
    pub number: u64,
}

/// A question about the slot: what was marked before the place?
#[derive(Clone, Copy, PartialEq, Eq)]
pub struct Ask {
    pub at: u64,
    pub machine: Id,
    pub slot: Id,
}

/// Returns the number of the command that follows so many commands.
pub fn number_after(commands: u32) -> u64
    ensures { result ≡ commands + 1 }
{
    u64::from(commands) + 1
}
