//! Counts of answers, and why serving stopped.

ghost use Rattle.std.specs.Prelude.{◌≡◌, ◌+◌, if◌then◌else◌};
ghost use Rattle.desk_answers.specs.Counts.{CanCountOne};

/// The number of answers sent, and how many of them are refusals.
#[derive(Clone, Copy, PartialEq, Eq)]
pub struct Served {
    pub answered: u64,
    pub refused: u64,
}

impl Served {
    /// Counts one more answer.
    pub fn count(&mut self, refused: bool)
        requires counts { CanCountOne self.old }
        ensures answered { self.new.answered ≡ self.old.answered + 1 }
        ensures refused { self.new.refused
            ≡ (if refused then self.old.refused + 1 else self.old.refused) }
    {
        self.answered += 1;
        if refused {
            self.refused += 1;
        }
    }
}

/// Why serving stopped, with the number of whole answers sent.
#[derive(Clone, Copy, PartialEq, Eq)]
pub enum ServeFault {
    /// A read failed.
    Read(Served),
    /// A write failed. Part of one more answer may have been sent, and its command may be accepted.
    Write(Served),
    /// The read limit was reached.
    TooManyReads(Served),
}
