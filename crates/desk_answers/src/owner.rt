//! The owner of a line's history.

use crate::answer::Answer;
use desk_types::Stamped;

/// Answers the commands of one line and stores those that it accepts.
pub trait Owner {
    ghost use Rattle.desk_types.specs.Judged.{IsLawful};
    ghost use Rattle.desk_answers.specs.Ledger.{Ledger, IsAnswer, ledger_after};

    /// The rules, the greatest number and the history that the owner represents.
    ghost Stands: { Self → Ledger → Type 0 };

    /// The condition that each call requires and restores.
    ghost Ready: { Self → Type 0 };

    /// The owner's storage has not lied so far, like an honest disk.
    ghost Trusts: { Self → Type 0 };

    /// Answers a command. A message accepted before gets its first answer again and changes
    /// nothing. After Unavailable it can be sent again.
    fn command(&mut self, stamped: &Stamped) -> Answer
        requires ready { Ready self.old }
        ensures ready { Ready self.new }
        // A disk that has lied is never trusted again: nothing that is said of an honest one holds.
        ensures trusts { Trusts self.new → Trusts self.old }
        // Said of an honest disk alone: a disk that lies can give back another history.
        ensures answer { (L : Ledger) → Stands self.old L → Trusts self.new
            → IsAnswer L stamped.now result }
        // After Unavailable the owner goes on as if the command had not been sent.
        ensures stands { (L : Ledger) → Stands self.old L → Trusts self.new
            → Stands self.new (ledger_after L stamped.now result) };

    /// A law, without code: an owner with these rules and numbers can reach this history.
    fn is_lawful(&self)
        ensures { (L : Ledger) → Stands self.now L → Trusts self.now
            → IsLawful L.rules L.greatest L.history };
}
