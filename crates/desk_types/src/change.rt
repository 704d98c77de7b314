//! The effect of an accepted command.

ghost use Rattle.std.specs.Prelude.{◌≡◌};

use crate::answer::Detail;
use crate::command::Stamped;
use crate::list::Listing;
use crate::number::Minute;
use crate::take::Take;

/// Takes, ordered as the pieces leave their reels.
pub type Takes = Listing<Take>;

/// The effect of a command that isn't refused. Settling the change accepts the command.
#[derive(PartialEq, Eq, Drop)]
pub struct Change {
    pub stamped: Stamped,
    pub minute: Minute,
    pub detail: Detail,
    pub takes: Takes,
}

impl Change {
    /// Returns the minute at which the command takes effect.
    pub fn minute(&self) -> Minute
        ensures { result ≡ self.now.minute }
    {
        self.minute
    }

    /// Returns the details of the reply.
    pub fn detail(&self) -> &Detail
        ensures { result.now ≡ self.now.detail }
    {
        &self.detail
    }

    /// Returns the pieces that the command takes.
    pub fn takes(&self) -> &[Take]
        ensures { result.now ≡ self.now.takes }
    {
        self.takes.as_slice()
    }

    /// Returns the command with its message.
    pub fn stamped(&self) -> &Stamped
        ensures { result.now ≡ self.now.stamped }
    {
        &self.stamped
    }
}
