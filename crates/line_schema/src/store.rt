//! The store of one line.

ghost use Rattle.std.specs.Prelude.{◌≡◌, ◌<◌, ◌≤◌, ⊤, false, IsTrue, IfOk, IfErr, OnOk, OnErr, IfSome, IsSomeAnd, is_some, length, None, Err};
ghost use Rattle.sqlite_trees.specs.Tree.{Trees};
ghost use Rattle.sqlite.specs.State.{Survives};
ghost use Rattle.sqlite.specs.Held.{state};
ghost use Rattle.desk_types.specs.declared.answer.Reply.TheVariants as Reply;
ghost use Rattle.desk_types.specs.declared.limits.TheConstants.{MOST_ENTRIES};
ghost use Rattle.desk_types.specs.declared.rules.Rules.TheVariants.{Two};
ghost use Rattle.desk_types.specs.Desk.{IsChange};
ghost use Rattle.desk_types.specs.History.{History, Basis, basis, accept};
ghost use Rattle.desk_types.specs.Outcome.{reply_to, after_command};
ghost use Rattle.desk_answers.specs.Commands.{earlier_answer, judged_answer, command_answer, command_after};
ghost use Rattle.line_tables.specs.Frames.{ReadsOnly};
ghost use Rattle.line_schema.specs.declared.fault.OpenFault.TheVariants as Fault;
ghost use Rattle.line_schema.specs.Opening.{IsReported};
ghost use Rattle.line_schema.specs.Stands.{Kept, ForKept, Stands, state_of, conn_of, has_desk, HasRows, answer_in, NewlyLeaves, Leaves};
ghost use Rattle.line_schema.specs.Frames.{MakesDesk, LeavesFile, LeavesUnmade, LetsOthersBe};
ghost use Rattle.line_schema.specs.Answered.{Answers, AnswersOrFails, Commits, IsFirst};
ghost use Rattle.line_schema.specs.Opened.{MakesStore, OpensStore};
ghost use Rattle.line_schema.specs.Traces.{working_of};

mod book;
mod checking;
mod crash;
mod migration;
mod traces;
mod verdict;
mod view;

use crate::fault::OpenFault;
use crate::opening::{Opened, read_tables};
use crate::settling::settle;
use crate::unavailable::Unavailable;
use desk_answers::Answer;
use desk_types::{Change, JudgeFault, Rules, Stamped};
use line_replay::{Acceptance, Replayed, answer_under, prepare, rebuild};
use line_tables::{append, find, has_our_name, make};
use line_traces::Working;
use sqlite::{Alter, Connection};
use state_rows::{KeepsRows, TraceLists};
use std::alloc::Global;
pub use verdict::Verdict;

/// A desk whose accepted commands are kept in the tables of a database. A command is answered
/// Accepted once it is committed. After a restart the history is read again.
///
/// To close it, take its connection back: [`LineStore::into_connection`].
pub struct LineStore<S: Alter, D: KeepsRows + Drop> {
    alloc: Global,
    conn: Connection<S>,
    working: Option<Working<D>>,
    count: u32,
    greatest: u32,
}

impl<S: Alter, D: KeepsRows + Drop> LineStore<S, D> {
    /// Makes the store of an empty history, with this greatest number from 1 to 1,000,000,000.
    /// Tables with other names stay, and the contract then promises nothing about the committed
    /// contents. Its faults are NotBlank and Unavailable. Inside an open transaction of the caller
    /// it is Unavailable.
    pub fn create(
        alloc: Global,
        conn: Connection<S>,
        greatest: u32,
    ) -> Result<LineStore<S, D>, (OpenFault, Connection<S>)>
        requires least { 1 ≤ greatest }
        requires most { greatest ≤ MOST_ENTRIES }
        ensures made { IfOk result
            (MakesStore S.Store D.Stands D.kept_rows conn greatest) }
        // The connection comes back, so a caller can close it or try again.
        ensures unmade { IfErr result (λ e. LeavesUnmade S.Store greatest conn e.0 e.1) }
        // What the caller began must neither be committed nor undone here.
        ensures inside { IsTrue conn.in_transaction → result ≡ Err (Fault.Unavailable, conn) }
    {
        let mut conn = conn;
        if !conn.is_autocommit() {
            return Err((OpenFault::Unavailable, conn));
        }
        if has_our_name(&conn) {
            return Err((OpenFault::NotBlank, conn));
        }
        let desk = D::fresh(alloc, Rules::Two);
        let _empty = desk.rows();
        match make(&mut conn, greatest) {
            Ok(()) => Ok(LineStore {
                alloc,
                conn,
                working: Some(Working {
                    desk,
                    lists: TraceLists::new(alloc),
                }),
                count: 0,
                greatest,
            }),
            Err(_) => Err((OpenFault::Unavailable, conn)),
        }
    }

    /// Opens the store in the tables, and judges each of its commands again. Inside an open
    /// transaction of the caller it is Unavailable.
    pub fn open(
        alloc: Global,
        conn: Connection<S>,
    ) -> Result<LineStore<S, D>, (OpenFault, Connection<S>)>
        ensures opened { IfOk result (λ store. (L : Kept)
            × OpensStore S.Store D.Stands D.kept_rows conn store L) }
        // The tables, as they were, have the fault that is reported.
        ensures fault { IfErr result
            (λ e. IsReported Two (state S.Store conn) (state S.Store e.1) e.0) }
        // A file that is refused isn't changed.
        ensures refused { IfErr result (λ e. ReadsOnly S.Store conn e.1) }
        ensures inside { IsTrue conn.in_transaction → result ≡ Err (Fault.Unavailable, conn) }
    {
        let mut conn = conn;
        if !conn.is_autocommit() {
            return Err((OpenFault::Unavailable, conn));
        }
        match read_tables(alloc, &mut conn, Rules::Two) {
            Ok(
                Opened {
                    working,
                    count,
                    greatest,
                },
            ) => Ok(LineStore {
                alloc,
                conn,
                working: Some(working),
                count,
                greatest,
            }),
            Err(fault) => Err((fault, conn)),
        }
    }

    /// Returns the connection. Takes no memory.
    pub fn into_connection(self) -> Connection<S>
        ensures { result ≡ conn_of self }
    {
        let (conn, _working) = self.into_parts();
        conn
    }

    /// Returns the connection, and the working state if it is loaded. Takes no memory.
    pub fn into_parts(self) -> (Connection<S>, Option<Working<D>>)
        ensures { result ≡ (conn_of self, working_of self) }
    {
        let LineStore {
            alloc: _,
            conn,
            working,
            count: _,
            greatest: _,
        } = self;
        (conn, working)
    }

    /// Returns the number of accepted commands. Takes no memory.
    pub fn count(&self) -> u32
        ensures { (L : Kept) → Stands S.Store D.Stands self.now L → result
            ≡ length L.history }
    {
        self.count
    }

    /// Returns the desk if it is loaded, as it is after [`LineStore::ready`].
    pub fn desk(&self) -> Option<&D>
        ensures there { is_some result ≡ has_desk self.now }
        ensures stands { (L : Kept) → Stands S.Store D.Stands self.now L
            → IfSome result (λ desk. D.Stands desk.now (basis Two L.history)) }
    {
        match &self.working {
            Some(working) => Some(&working.desk),
            None => None,
        }
    }

    /// Loads the working state from the tables if it isn't loaded.
    #[tactic(auto, using(crate::proofs::Others::let_be))]
    pub fn ready(&mut self) -> Result<(), Unavailable>
        // A store that stands for no history has nothing to load.
        requires stands { (L : Kept) × Stands S.Store D.Stands self.old L }
        ensures ok { OnOk result (IsTrue (has_desk self.new)) }
        // A loaded desk needs no memory and no disk.
        ensures at_hand { OnErr result (has_desk self.old ≡ false) }
        ensures makes_desk { MakesDesk S.Store D.Stands self.old self.new }
        ensures rows { ForKept S.Store D.Stands self.old self.new
            (λ L. HasRows D.kept_rows self.old L.history → HasRows D.kept_rows self.new L.history) }
        // Tables of other people in the file stay as they are.
        ensures others { LetsOthersBe (state_of S.Store self.old) (state_of S.Store self.new) }
    {
        if self.working.is_some() {
            return Ok(());
        }
        self.remake()
    }

    fn remake(&mut self) -> Result<(), Unavailable>
        requires stands { (L : Kept) × Stands S.Store D.Stands self.old L }
        ensures ok { OnOk result (IsTrue (has_desk self.new)) }
        ensures kept { (L : Kept) × Stands S.Store D.Stands self.new L }
        ensures stands { ForKept S.Store D.Stands self.old self.new
            (Stands S.Store D.Stands self.new) }
        ensures rows { ForKept S.Store D.Stands self.old self.new
            (λ L. HasRows D.kept_rows self.old L.history
            → HasRows D.kept_rows self.new L.history) }
        ensures file { LeavesFile (state_of S.Store self.old) (state_of S.Store self.new) (λ _. ⊥) }
    {
        match rebuild(self.alloc, &mut self.conn, Rules::Two, self.greatest) {
            Some(
                Replayed {
                    desk,
                    lists,
                    count,
                    placed: _placed,
                },
            ) => {
                self.working = Some(Working { desk, lists });
                self.count = count;
                Ok(())
            }
            None => Err(Unavailable),
        }
    }

    /// Answers a command. A repeated message gets its first answer again, and changes nothing.
    /// Accepted is answered once the command is committed. After Unavailable the message may be
    /// sent again.
    pub fn command(&mut self, stamped: &Stamped) -> Answer
        requires stands { (L : Kept) × Stands S.Store D.Stands self.old L }
        // It stands for some history, even on a disk that lies. The next call needs one.
        ensures kept { (L : Kept) × Stands S.Store D.Stands self.new L }
        // The answer is right for each history that it stood for.
        ensures answers { ForKept S.Store D.Stands self.old self.new
            (λ L. Answers S.Store D.Stands D.kept_rows self.old self.new L
            stamped.now result) }
        // The tables of other people stay, whenever a crash comes.
        ensures file { LeavesFile (state_of S.Store self.old) (state_of S.Store self.new) (λ _. ⊤) }
    {
        match self.answer(stamped) {
            Ok(answer) => answer,
            Err(_) => Answer::Unavailable,
        }
    }

    fn answer(&mut self, stamped: &Stamped) -> Result<Answer, Unavailable>
        requires stands { (L : Kept) × Stands S.Store D.Stands self.old L }
        ensures kept { (L : Kept) × Stands S.Store D.Stands self.new L }
        ensures answers { ForKept S.Store D.Stands self.old self.new
            (λ L. AnswersOrFails S.Store D.Stands D.kept_rows self.old self.new L
            result
            (command_answer Two L.greatest L.history stamped.now)
            (command_after Two L.greatest L.history stamped.now)) }
        ensures ok { ForKept S.Store D.Stands self.old self.new
            (λ L. OnOk result (Stands S.Store D.Stands self.new
            (record L { history = command_after Two L.greatest L.history stamped.now }))) }
        ensures crash { ForKept S.Store D.Stands self.old self.new
            (λ L. (trees : Trees) → (state_of S.Store self.new).may_leave trees
            → Leaves L stamped.now (answer_in result) ((state_of S.Store self.old).may_leave trees)
            trees) }
        ensures file { LeavesFile (state_of S.Store self.old) (state_of S.Store self.new) (λ _. ⊤) }
    {
        if let Some(answer) = self.earlier(stamped)? {
            return Ok(answer);
        }
        if self.count >= self.greatest {
            return Ok(Answer::DeskFull);
        }
        self.answer_new(stamped)
    }

    /// Returns the answer by the row with the UniqueID, if there is one.
    fn earlier(&mut self, stamped: &Stamped) -> Result<Option<Answer>, Unavailable>
        requires stands { (L : Kept) × Stands S.Store D.Stands self.old L }
        ensures answer { ForKept S.Store D.Stands self.old self.new
            (λ L. IfOk result (λ answer. answer ≡ earlier_answer L.history stamped.now)) }
        ensures working { working_of self.new ≡ working_of self.old }
        ensures stands { (L : Kept) → Stands S.Store D.Stands self.old L
            → Stands S.Store D.Stands self.new L }
        ensures survives { Survives (state_of S.Store self.old)
            (state_of S.Store self.new) (λ _. ⊥) }
        ensures others { LetsOthersBe (state_of S.Store self.old) (state_of S.Store self.new) }
    {
        match find(&mut self.conn, stamped.uid.as_str())? {
            Some(row) => Ok(Some(answer_under(self.alloc, row, stamped)?)),
            None => Ok(None),
        }
    }

    /// Judges the command, which is new and has room, by the desk, which is loaded first if needed.
    /// Accepts it unless it is refused.
    fn answer_new(&mut self, stamped: &Stamped) -> Result<Answer, Unavailable>
        requires stands { (L : Kept) × Stands S.Store D.Stands self.old L }
        ensures kept { (L : Kept) × Stands S.Store D.Stands self.new L }
        ensures answers { ForKept S.Store D.Stands self.old self.new
            (λ L. AnswersOrFails S.Store D.Stands D.kept_rows self.old self.new L
            result
            (judged_answer L.history stamped.now (reply_to Two L.history stamped.now))
            (after_command Two L.history stamped.now)) }
        ensures ok { ForKept S.Store D.Stands self.old self.new
            (λ L. earlier_answer L.history stamped.now ≡ None
            → OnOk result (Stands S.Store D.Stands self.new
            (record L { history = after_command Two L.history stamped.now }))) }
        ensures crash { ForKept S.Store D.Stands self.old self.new
            (λ L. (trees : Trees) → (state_of S.Store self.new).may_leave trees
            → NewlyLeaves L stamped.now (answer_in result)
            ((state_of S.Store self.old).may_leave trees) trees) }
        ensures file { LeavesFile (state_of S.Store self.old) (state_of S.Store self.new) (λ _. ⊤) }
    {
        self.ready()?;
        self.answer_at_hand(stamped)
    }

    /// Judges the command by the desk, and accepts it unless it is refused.
    #[tactic(auto, using(crate::proofs::Others::file_stays))]
    fn answer_at_hand(&mut self, stamped: &Stamped) -> Result<Answer, Unavailable>
        requires stands { (L : Kept) × Stands S.Store D.Stands self.old L }
        ensures kept { (L : Kept) × Stands S.Store D.Stands self.new L }
        ensures answers { (L : Kept) → Stands S.Store D.Stands self.old L
            → AnswersOrFails S.Store D.Stands D.kept_rows self.old self.new L result
            (judged_answer L.history stamped.now (reply_to Two L.history stamped.now))
            (after_command Two L.history stamped.now) }
        ensures ok { (L : Kept) → Stands S.Store D.Stands self.old L
            → IsFirst S.Store self.new L stamped.now
            → OnOk result (Stands S.Store D.Stands self.new
            (record L { history = after_command Two L.history stamped.now })) }
        ensures crash { ForKept S.Store D.Stands self.old self.new
            (λ L. (trees : Trees) → (state_of S.Store self.new).may_leave trees
            → NewlyLeaves L stamped.now (answer_in result)
            ((state_of S.Store self.old).may_leave trees) trees) }
        ensures file { LeavesFile (state_of S.Store self.old) (state_of S.Store self.new) (λ _. ⊤) }
    {
        if self.count >= self.greatest {
            return Err(Unavailable);
        }
        let Some(working) = &self.working else {
            return Err(Unavailable);
        };
        match working.desk.judge(stamped) {
            Ok(change) => self.commit_change(change),
            Err(JudgeFault::Refused(refusal)) => Ok(Answer::Refused(refusal)),
            Err(JudgeFault::NoMemory) => Err(Unavailable),
        }
    }

    /// Accepts a judged change. The answer and the edits are made first, and memory is taken for
    /// the trace indexes. Then the edits are committed. Last, the indexes note the change and the
    /// desk settles by the same edits.
    #[tactic(auto, using(crate::proofs::Others::file_stays))]
    fn commit_change(&mut self, change: Change) -> Result<Answer, Unavailable>
        requires stands { (L : Kept) × Stands S.Store D.Stands self.old L }
        requires room { self.old.count < self.old.greatest }
        requires judged { IsSomeAnd self.old.working (λ w. (B : Basis) → D.Stands w.desk B
            → IsChange B.rules B.history change.stamped change) }
        ensures answers { (L : Kept) → Stands S.Store D.Stands self.old L
            → AnswersOrFails S.Store D.Stands D.kept_rows self.old self.new L result
            (judged_answer L.history change.stamped (Reply.Accepted change.detail))
            (accept L.history change.stamped) }
        ensures commits { (L : Kept) → Stands S.Store D.Stands self.old L
            → Commits S.Store D.Stands self.old self.new L result change.stamped }
        ensures file { LeavesFile (state_of S.Store self.old) (state_of S.Store self.new) (λ _. ⊤) }
    {
        change.stamped.ranges_hold();
        let _ = change.minute.get();
        let number = self.count + 1;
        let Some(working) = &self.working else {
            unreachable!()
        };
        let Acceptance { text, row, edits } = prepare(self.alloc, number, &working.desk, &change)?;
        let Some(Working { desk: _, lists }) = &mut self.working else {
            unreachable!()
        };
        lists.reserve(&change)?;
        append(self.alloc, &mut self.conn, &row, edits.as_slice())?;
        self.count = number;
        settle(&mut self.working, number, change, edits.as_slice());
        Ok(Answer::Accepted(u64::from(number), text))
    }
}
