//! The answers to messages and commands. What came of one is on disk before its answer is returned, and
//! the answer's text is made before anything is written.

ghost use Rattle.std.specs.Prelude.{◌≡◌, Err, IfOk, Ok};
ghost use Rattle.sqlite.specs.State.{HasCleanDisk, Survives};
ghost use Rattle.desk_types.specs.declared.command.Stamped.{Stamped as Request};
ghost use Rattle.cfx_profile.specs.declared.message.Said.TheVariants.{Asked};
ghost use Rattle.cfx_profile.specs.Message.{said_in};
ghost use Rattle.line_schema.specs.Verdict.{CanCommit, IsAccepted, IsReady, IsVerdict};
ghost use Rattle.book_store.specs.Answered.{AnswersCommand, AnswersMessage, AnswersSaid, KeepsRefusal};
ghost use Rattle.book_store.specs.Ended.{Ends};
ghost use Rattle.book_store.specs.Lists.{ForLists, Serves, StandsFor, book_state};

use crate::store::BookStore;
use crate::store::findings::sender_of;
use crate::texts::{accepted_told, command_told, fault_told, ignored_told};
use cfx_profile::{MessageFault, Said, read_message};
use desk_answers::Answer;
use desk_feed::AnswerText;
use desk_types::{Change, Stamped};
use line_entries::Sender;
use line_schema::{Unavailable, Verdict};
use sqlite::Alter;
use state_rows::KeepsRows;

impl<S: Alter, D: KeepsRows + Drop> BookStore<S, D> {
    /// Answers a message. The entry of one that is refused or faulty is written, unless the book has it
    /// in an entry that isn't closed. An accepted one has an entry for each finding in it. After Unavailable both lists are as before, and the message may be
    /// sent again.
    pub fn answer(&mut self, told: &[u8]) -> Result<AnswerText, Unavailable>
        requires serves { Serves S.Store D.Stands self.old }
        ensures answered { ForLists S.Store D.Stands self.old self.new (λ L.
            Ends S.Store D.Stands self.old self.new L result (AnswersMessage L told.now)) }
        // A disk that has lied is never honest again.
        ensures clean { HasCleanDisk (book_state S.Store self.new)
            → HasCleanDisk (book_state S.Store self.old) }
        ensures serves { Serves S.Store D.Stands self.new }
    {
        match read_message(self.alloc, told) {
            Ok(Said::Ignored(name)) => Ok(ignored_told(self.alloc, &name)?),
            Ok(Said::Asked(stamped)) => self.answer_asked(told, &stamped),
            Err(MessageFault::NoMemory) => Err(Unavailable),
            Err(fault) => self.answer_fault(told, &fault),
        }
    }

    /// Answers a command that is no message, as that of a file. It makes no entry. After Unavailable
    /// both lists are as before.
    pub fn command(&mut self, stamped: &Stamped) -> Result<AnswerText, Unavailable>
        requires serves { Serves S.Store D.Stands self.old }
        ensures answered { ForLists S.Store D.Stands self.old self.new (λ L.
            Ends S.Store D.Stands self.old self.new L result (AnswersCommand L stamped.now)) }
        // A disk that has lied is never honest again.
        ensures clean { HasCleanDisk (book_state S.Store self.new)
            → HasCleanDisk (book_state S.Store self.old) }
        ensures serves { Serves S.Store D.Stands self.new }
    {
        match self.judge(stamped)? {
            Verdict::Answered(answer) => Ok(command_told(self.alloc, stamped, answer)?),
            Verdict::Accepts(change) => self.accept_alone(change),
        }
    }

    fn answer_asked(&mut self, told: &[u8], stamped: &Stamped) -> Result<AnswerText, Unavailable>
        requires serves { Serves S.Store D.Stands self.old }
        ensures answered { said_in told.now ≡ Ok (Asked stamped.now)
            → ForLists S.Store D.Stands self.old self.new (λ L.
            Ends S.Store D.Stands self.old self.new L result
            (AnswersSaid L told.now (Ok (Asked stamped.now)))) }
        ensures clean { HasCleanDisk (book_state S.Store self.new)
            → HasCleanDisk (book_state S.Store self.old) }
        ensures serves { Serves S.Store D.Stands self.new }
    {
        match self.judge(stamped)? {
            Verdict::Answered(answer) => self.answer_final(told, stamped, answer),
            Verdict::Accepts(change) => self.accept_heard(told, change),
        }
    }

    /// Judges a command, and accepts nothing. Both lists stay.
    fn judge(&mut self, stamped: &Stamped) -> Result<Verdict, Unavailable>
        requires serves { Serves S.Store D.Stands self.old }
        ensures verdict { ForLists S.Store D.Stands self.old self.new (λ L. IfOk result
            (IsVerdict L.kept stamped.now)) }
        ensures ready { IfOk result (IsReady D.Stands self.new.store) }
        ensures stands { ForLists S.Store D.Stands self.old self.new
            (StandsFor S.Store D.Stands self.new) }
        ensures survives { Survives (book_state S.Store self.old) (book_state S.Store self.new)
            (λ _. ⊥) }
        ensures serves { Serves S.Store D.Stands self.new }
    {
        self.store.judge(stamped)
    }

    /// Returns the answer as a text, once the entry of a refusal is written.
    fn answer_final(
        &mut self,
        told: &[u8],
        stamped: &Stamped,
        answer: Answer,
    ) -> Result<AnswerText, Unavailable>
        requires serves { Serves S.Store D.Stands self.old }
        ensures answered { said_in told.now ≡ Ok (Asked stamped.now)
            → ForLists S.Store D.Stands self.old self.new (λ L.
            Ends S.Store D.Stands self.old self.new L result
            (KeepsRefusal L told.now stamped.now answer)) }
        ensures clean { HasCleanDisk (book_state S.Store self.new)
            → HasCleanDisk (book_state S.Store self.old) }
        ensures serves { Serves S.Store D.Stands self.new }
    {
        let entry = self.refusal_entry(stamped, &answer)?;
        let text = command_told(self.alloc, stamped, answer)?;
        self.keep(&entry, &sender_of(stamped), told)?;
        Ok(text)
    }

    /// Accepts the change of a message, with an entry for each finding in it, and returns its answer as a text.
    fn accept_heard(&mut self, told: &[u8], change: Change) -> Result<AnswerText, Unavailable>
        requires serves { Serves S.Store D.Stands self.old }
        requires ready { CanCommit D.Stands self.old.store change }
        ensures accepted { ForLists S.Store D.Stands self.old self.new (λ L. (s : Request)
            → IsAccepted L.kept s change → Ends S.Store D.Stands self.old self.new L result
            (AnswersSaid L told.now (Ok (Asked s)))) }
        ensures clean { HasCleanDisk (book_state S.Store self.new)
            → HasCleanDisk (book_state S.Store self.old) }
        ensures serves { Serves S.Store D.Stands self.new }
    {
        let rows = self.finding_rows(told, &change)?;
        match self.accept(change, rows.as_slice()) {
            Ok(answer) => accepted_told(answer),
            Err(_) => Err(Unavailable),
        }
    }

    /// Accepts a change with no entry, and returns its answer as a text.
    fn accept_alone(&mut self, change: Change) -> Result<AnswerText, Unavailable>
        requires serves { Serves S.Store D.Stands self.old }
        requires ready { CanCommit D.Stands self.old.store change }
        ensures accepted { ForLists S.Store D.Stands self.old self.new (λ L. (s : Request)
            → IsAccepted L.kept s change
            → Ends S.Store D.Stands self.old self.new L result (AnswersCommand L s)) }
        ensures clean { HasCleanDisk (book_state S.Store self.new)
            → HasCleanDisk (book_state S.Store self.old) }
        ensures serves { Serves S.Store D.Stands self.new }
    {
        match self.accept(change, &[]) {
            Ok(answer) => accepted_told(answer),
            Err(_) => Err(Unavailable),
        }
    }

    /// Returns the answer to a faulty message, once its entry is written.
    fn answer_fault(&mut self, told: &[u8], fault: &MessageFault) -> Result<AnswerText, Unavailable>
        requires serves { Serves S.Store D.Stands self.old }
        ensures answered { ForLists S.Store D.Stands self.old self.new (λ L.
            Ends S.Store D.Stands self.old self.new L result
            (AnswersSaid L told.now (Err fault.now))) }
        ensures clean { HasCleanDisk (book_state S.Store self.new)
            → HasCleanDisk (book_state S.Store self.old) }
        ensures serves { Serves S.Store D.Stands self.new }
    {
        let entry = self.fault_entry(told, fault)?;
        let text = fault_told(self.alloc, fault)?;
        let sender = Sender {
            source: None,
            uid: None,
        };
        self.keep(&entry, &sender, told)?;
        Ok(text)
    }
}
