//! A command that is judged first, and committed later together with entries of the book about it.

ghost use Rattle.std.specs.Prelude.{◌≡◌, ◌<◌, IfOk, List, length};
ghost use Rattle.desk_types.specs.declared.answer.Reply.TheVariants as Reply;
ghost use Rattle.desk_types.specs.declared.rules.Rules.TheVariants.{Two};
ghost use Rattle.desk_types.specs.History.{accept};
ghost use Rattle.desk_answers.specs.Commands.{earlier_answer, judged_answer};
ghost use Rattle.line_book.specs.declared.row.BookRow.{BookRow};
ghost use Rattle.line_book_store.specs.Book.{GoOn};
ghost use Rattle.line_schema.specs.Answered.{AnswersOrFails};
ghost use Rattle.line_schema.specs.Book.{StandsWith};
ghost use Rattle.line_schema.specs.Stands.{ForKept, Kept, Stands};
ghost use Rattle.line_schema.specs.Verdict.{CanCommit, CommitsBoth, IsReady, IsVerdict, IsVerdictAtHand, KeepsBoth};

use crate::settling::settle;
use crate::store::LineStore;
use crate::unavailable::Unavailable;
use desk_answers::Answer;
use desk_types::{Change, JudgeFault, Stamped};
use line_book::BookRow;
use line_book_store::append_with_entries;
use line_replay::{Acceptance, prepare};
use line_traces::Working;
use sqlite::Alter;
use state_rows::KeepsRows;

/// What judging a command gives.
#[derive(Drop)]
pub enum Verdict {
    /// The answer, which is final: the command is a repeat or refused, or the desk is full.
    Answered(Answer),
    /// The command is new and would be accepted: see [`LineStore::commit_with_entries`].
    Accepts(Change),
}

impl<S: Alter, D: KeepsRows + Drop> LineStore<S, D> {
    /// Judges a command, and accepts nothing. Loads the desk first if it isn't loaded. A caller writes
    /// the entry of a refusal before it gives the answer.
    pub fn judge(&mut self, stamped: &Stamped) -> Result<Verdict, Unavailable>
        requires stands { (L : Kept) × Stands S.Store D.Stands self.old L }
        ensures verdict { ForKept S.Store D.Stands self.old self.new
            (λ L. IfOk result (IsVerdict L stamped.now)) }
        ensures ready { IfOk result (IsReady D.Stands self.new) }
        ensures keeps { KeepsBoth S.Store D.Stands self.old self.new }
    {
        if let Some(answer) = self.earlier(stamped)? {
            return Ok(Verdict::Answered(answer));
        }
        if self.count >= self.greatest {
            return Ok(Verdict::Answered(Answer::DeskFull));
        }
        self.ready()?;
        self.judge_at_hand(stamped)
    }

    fn judge_at_hand(&self, stamped: &Stamped) -> Result<Verdict, Unavailable>
        requires stands { (L : Kept) × Stands S.Store D.Stands self.now L }
        ensures verdict { (L : Kept) → Stands S.Store D.Stands self.now L
            → IfOk result (IsVerdictAtHand L stamped.now) }
        ensures ready { IfOk result (IsReady D.Stands self.now) }
    {
        if self.count >= self.greatest {
            return Err(Unavailable);
        }
        let Some(working) = &self.working else {
            return Err(Unavailable);
        };
        match working.desk.judge(stamped) {
            Ok(change) => Ok(Verdict::Accepts(change)),
            Err(JudgeFault::Refused(refusal)) => Ok(Verdict::Answered(Answer::Refused(refusal))),
            Err(JudgeFault::NoMemory) => Err(Unavailable),
        }
    }

    /// Accepts a judged change, and commits it and the entries about it in one transaction. After
    /// Unavailable neither is committed, and a crash may still leave both.
    pub fn commit_with_entries(
        &mut self,
        change: Change,
        entries: &[BookRow],
    ) -> Result<Answer, Unavailable>
        requires stands { (L : Kept) × Stands S.Store D.Stands self.old L }
        requires ready { CanCommit D.Stands self.old change }
        ensures kept { (L : Kept) × Stands S.Store D.Stands self.new L }
        ensures answers { (L : Kept) → Stands S.Store D.Stands self.old L
            → AnswersOrFails S.Store D.Stands D.kept_rows self.old self.new L result
            (judged_answer L.history change.stamped (Reply.Accepted change.detail))
            (accept L.history change.stamped) }
        ensures commits { (L : Kept) (before : List BookRow)
            → StandsWith S.Store D.Stands self.old L before → GoOn (length before) entries.now
            → CommitsBoth S.Store D.Stands self.old self.new L result change.stamped entries.now
            before }
    {
        change.stamped.ranges_hold();
        let _ = change.minute.get();
        let number = self.count + 1;
        let Some(working) = &self.working else {
            unreachable!()
        };
        let Acceptance { text, row, edits } = prepare(self.alloc, number, &working.desk, &change)?;
        let Some(Working { desk: _, lists }) = &mut self.working else {
            unreachable!()
        };
        lists.reserve(&change)?;
        append_with_entries(self.alloc, &mut self.conn, &row, edits.as_slice(), entries)?;
        self.count = number;
        settle(&mut self.working, number, change, edits.as_slice());
        Ok(Answer::Accepted(u64::from(number), text))
    }
}
