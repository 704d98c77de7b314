//! The texts of answers, as `desk_feed` makes them.

ghost use Rattle.std.specs.Prelude.{◌≡◌, IfOk, IsUtf8, List, Ok, ℕ};
ghost use Rattle.desk_answers.specs.declared.answer.Answer.TheVariants.{Accepted};
ghost use Rattle.desk_feed.specs.declared.message.Verdict.TheVariants as verdict;
ghost use Rattle.desk_feed.specs.Verdicts.{command_verdict};
ghost use Rattle.book_store.specs.Answered.{command_told, fault_told, ignored_told};

use cfx_profile::{MessageFault, ignored_text};
use desk_answers::Answer;
use desk_feed::{AnswerText, Verdict, message_verdict};
use desk_types::{Stamped, Text};
use line_schema::Unavailable;
use std::alloc::{AllocError, Global};

/// Returns the answer to a message that asks nothing.
pub fn ignored_told(alloc: Global, name: &Text) -> Result<AnswerText, AllocError>
    ensures { IfOk result (λ told. IsUtf8 name.now → told ≡ ignored_told name.now) }
{
    Ok(AnswerText {
        text: ignored_text(alloc, name)?,
        verdict: Verdict::Ignored,
    })
}

/// Returns the answer to a command.
pub fn command_told(
    alloc: Global,
    stamped: &Stamped,
    answer: Answer,
) -> Result<AnswerText, AllocError>
    ensures { IfOk result (λ told. told ≡ command_told stamped.now answer) }
{
    let verdict = command_verdict(&answer);
    let text = answer.into_text(alloc, &stamped.uid)?;
    Ok(AnswerText { text, verdict })
}

/// Returns the answer to an accepted command. Takes no memory.
pub fn accepted_told(answer: Answer) -> Result<AnswerText, Unavailable>
    ensures { (number : ℕ) (text : List ℕ) → answer ≡ Accepted number text
        → result ≡ Ok (record { text = text; verdict = verdict.Accepted }) }
{
    match answer {
        Answer::Accepted(_, text) => Ok(AnswerText {
            text,
            verdict: Verdict::Accepted,
        }),
        _ => Err(Unavailable),
    }
}

/// Returns the answer to a faulty message.
pub fn fault_told(alloc: Global, fault: &MessageFault) -> Result<AnswerText, AllocError>
    ensures { IfOk result (λ told. told ≡ fault_told fault.now) }
{
    Ok(AnswerText {
        text: fault.write_text(alloc)?,
        verdict: message_verdict(fault),
    })
}

fn command_verdict(answer: &Answer) -> Verdict
    ensures { result ≡ command_verdict answer.now }
{
    match answer {
        Answer::Accepted(..) => Verdict::Accepted,
        Answer::Unavailable => Verdict::Unavailable,
        _ => Verdict::Refused,
    }
}
