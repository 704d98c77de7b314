//! Laws of a crash between two calls. They are for proofs, and the program calls none of them.

ghost use Rattle.std.specs.Prelude.{◌≡◌, ℕ, IsTrue, List};
ghost use Rattle.sqlite_trees.specs.Tree.{Trees};
ghost use Rattle.sqlite.specs.State.{HasCleanDisk};
ghost use Rattle.desk_types.specs.declared.command.Stamped.{Stamped};
ghost use Rattle.desk_types.specs.declared.rules.Rules.TheVariants.{Two};
ghost use Rattle.desk_types.specs.History.{History, accept};
ghost use Rattle.desk_answers.specs.Commands.{command_after};
ghost use Rattle.line_tables.specs.Rows.{HoldsAt};
ghost use Rattle.line_replay.specs.Rows.{ledger_tables};
ghost use Rattle.line_schema.specs.Stands.{Kept, Stands, state_of};
ghost use Rattle.line_schema.specs.Unanswered.{GoUnanswered, HoldsWithAtMostOne, Tries};

use crate::store::LineStore;
use desk_answers::Answer;
use desk_types::Stamped;
use sqlite::Alter;
use state_rows::KeepsRows;

impl<S: Alter, D: KeepsRows + Drop> LineStore<S, D> {
    /// A law: while the connection is open, a crash leaves exactly the tables of the store's
    /// history. That holds between any two calls, even after a refusal, a report or Unavailable.
    pub fn crash_leaves_the_list(&self)
        ensures list { (L : Kept) → Stands S.Store D.Stands self.now L
            → HasCleanDisk (state_of S.Store self.now) → IsTrue L.own
            → IsTrue (state_of S.Store self.now).is_open
            → (trees : Trees) → (state_of S.Store self.now).may_leave trees
            → HoldsAt (ledger_tables L.greatest L.history) trees }
    {
        let _obeyed = self.conn.schema();
    }

    /// A law: after commands in a row that were answered Unavailable, even if the disk failed and
    /// the connection is shut, the history is unchanged. A crash leaves its tables, or its tables
    /// with one of these commands. Sent once more, an accepted command changes nothing.
    pub fn unanswered_commands_leave_the_list(&self, last: &LineStore<S, D>)
        ensures stands { (L : Kept) (sent : List Stamped)
            → Stands S.Store D.Stands self.now L
            → IsTrue L.own → GoUnanswered S.Store D.Stands self.now sent last.now
            → HasCleanDisk (state_of S.Store last.now)
            → Stands S.Store D.Stands last.now L }
        // A command without an answer is in the file whole, or not at all.
        ensures crash { (L : Kept) (sent : List Stamped)
            → Stands S.Store D.Stands self.now L
            → IsTrue L.own → IsTrue (state_of S.Store self.now).is_open
            → GoUnanswered S.Store D.Stands self.now sent last.now
            → HasCleanDisk (state_of S.Store last.now) → (trees : Trees)
            → (state_of S.Store last.now).may_leave trees
            → HoldsWithAtMostOne L sent trees }
        // So a sender without an answer sends again, and it acts once.
        ensures again { (greatest : ℕ) (H : History) (s : Stamped)
            → command_after Two greatest (accept H s) s ≡ accept H s }
    {
        self.crash_leaves_the_list();
    }

    /// A law: a call of `command` is a step of `unanswered_commands_leave_the_list`.
    pub fn tried(&mut self, stamped: &Stamped) -> Answer
        requires stands { (L : Kept) × Stands S.Store D.Stands self.old L }
        ensures tries { Tries S.Store D.Stands self.old stamped.now result self.new }
    {
        self.command(stamped)
    }
}
