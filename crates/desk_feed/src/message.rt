//! The answer to a message.

ghost use Rattle.std.specs.Prelude.{◌≡◌, IfOk, OnOk, OnErr};
ghost use Rattle.desk_answers.specs.Commands.{command_after};
ghost use Rattle.desk_answers.specs.Ledger.{Ledger};
ghost use Rattle.desk_feed.specs.Messages.{answer_asked, answer_to, list_after};
ghost use Rattle.desk_feed.specs.Verdicts.{is_refused, message_verdict};

use cfx_profile::{MessageFault, Said, ignored_text, read_message};
use desk_answers::{Answer, Owner};
use desk_types::{Stamped, Text};
use std::alloc::{AllocError, Global};

/// What became of a message, a line or an import.
#[derive(Clone, Copy, PartialEq, Eq)]
pub enum Verdict {
    /// Its command was accepted, now or before.
    Accepted,
    /// The message asks nothing of the desk.
    Ignored,
    /// Its command was refused.
    Refused,
    /// No command can be read: it isn't a message.
    Unreadable,
    /// No command can be read: a member or a row has another form, or there are too many.
    Faulty,
    /// Out of memory, or the storage failed. It can be sent again.
    Unavailable,
}

/// The text of an answer, and what it says.
#[derive(PartialEq, Eq, Drop)]
pub struct AnswerText {
    pub text: Text,
    pub verdict: Verdict,
}

impl AnswerText {
    /// Returns whether the answer counts as refused: all except Accepted and Ignored do.
    pub fn is_refused(&self) -> bool
        ensures { result ≡ is_refused self.now }
    {
        !matches!(self.verdict, Verdict::Accepted | Verdict::Ignored)
    }
}

/// Answers the bytes of one message. Out of memory leaves the history unchanged.
pub fn answer_message<L: Owner>(
    alloc: Global,
    owner: &mut L,
    bytes: &[u8],
) -> Result<AnswerText, AllocError>
    requires ready { L.Ready owner.old }
    ensures ready { L.Ready owner.new }
    ensures trusts { L.Trusts owner.new → L.Trusts owner.old }
    ensures told { (G : Ledger) → L.Stands owner.old G → L.Trusts owner.new
        → IfOk result (λ told. told ≡ answer_to G.rules G.greatest G.history bytes.now) }
    ensures after { (G : Ledger) → L.Stands owner.old G → L.Trusts owner.new
        → OnOk result (L.Stands owner.new
        (record G { history = list_after G.rules G.greatest G.history bytes.now })) }
    ensures err { (G : Ledger) → L.Stands owner.old G → L.Trusts owner.new
        → OnErr result (L.Stands owner.new G) }
{
    match read_message(alloc, bytes) {
        Ok(Said::Ignored(name)) => Ok(AnswerText {
            text: ignored_text(alloc, &name)?,
            verdict: Verdict::Ignored,
        }),
        Ok(Said::Asked(stamped)) => answer_command(alloc, owner, &stamped),
        Err(MessageFault::NoMemory) => Err(AllocError),
        Err(fault) => Ok(AnswerText {
            text: fault.write_text(alloc)?,
            verdict: message_verdict(&fault),
        }),
    }
}

/// Answers a command. Out of memory leaves the history unchanged; an accepted command takes no
/// memory beyond its judgement.
#[tactic(auto, using(desk_answers::proofs::Refusing::refused_leaves))]
pub fn answer_command<L: Owner>(
    alloc: Global,
    owner: &mut L,
    stamped: &Stamped,
) -> Result<AnswerText, AllocError>
    requires ready { L.Ready owner.old }
    ensures ready { L.Ready owner.new }
    ensures trusts { L.Trusts owner.new → L.Trusts owner.old }
    ensures told { (G : Ledger) → L.Stands owner.old G → L.Trusts owner.new
        → IfOk result (λ told. told ≡ answer_asked G.rules G.greatest G.history stamped.now) }
    ensures after { (G : Ledger) → L.Stands owner.old G → L.Trusts owner.new
        → OnOk result (L.Stands owner.new
        (record G { history = command_after G.rules G.greatest G.history stamped.now })) }
    ensures err { (G : Ledger) → L.Stands owner.old G → L.Trusts owner.new
        → OnErr result (L.Stands owner.new G) }
{
    match owner.command(stamped) {
        Answer::Accepted(_, text) => Ok(AnswerText {
            text,
            verdict: Verdict::Accepted,
        }),
        Answer::Unavailable => Err(AllocError),
        answer => Ok(AnswerText {
            text: answer.into_text(alloc, &stamped.uid)?,
            verdict: Verdict::Refused,
        }),
    }
}

/// Returns the verdict on a message with this fault.
pub fn message_verdict(fault: &MessageFault) -> Verdict
    ensures { result ≡ message_verdict fault.now }
{
    match fault {
        MessageFault::BodyMember(_) | MessageFault::OverLimit(_) => Verdict::Faulty,
        _ => Verdict::Unreadable,
    }
}
