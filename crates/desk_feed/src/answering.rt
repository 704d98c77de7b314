//! Answers to imports.

ghost use Rattle.std.specs.Prelude.{◌≡◌, ◌^◌, ◌<◌, IfOk, OnOk, OnErr};
ghost use Rattle.desk_types.specs.Wire.{inner_of, failures_of};
ghost use Rattle.desk_answers.specs.Ledger.{Ledger, ForLists};
ghost use Rattle.desk_answers.specs.Owners.{StaysReady};
ghost use Rattle.desk_answers.specs.Sent.{CountsWrite};
ghost use Rattle.imports.specs.Import.{command_said};
ghost use Rattle.desk_feed.specs.Import.{after_said, answer_said, AnswersFile};

use crate::line::LineAnswer;
use crate::message::{AnswerText, Verdict, answer_command};
use desk_answers::{Owner, WriteFailed, send_line};
use desk_types::Wire;
use imports::{Import, ImportFault};
use std::alloc::{AllocError, Global};
use std::io::Write;

/// Answers the command of an import with its file's bytes. Out of memory leaves the history
/// unchanged.
pub fn answer_import<L: Owner>(
    alloc: Global,
    owner: &mut L,
    import: &Import,
    bytes: &[u8],
) -> Result<AnswerText, AllocError>
    requires ready { L.Ready owner.old }
    ensures ready { L.Ready owner.new }
    ensures trusts { L.Trusts owner.new → L.Trusts owner.old }
    ensures told { (G : Ledger) → L.Stands owner.old G → L.Trusts owner.new
        → IfOk result (λ told. told ≡ answer_said G (command_said import.now bytes.now)) }
    ensures after { (G : Ledger) → L.Stands owner.old G → L.Trusts owner.new
        → OnOk result (L.Stands owner.new
        (record G { history = after_said G (command_said import.now bytes.now) })) }
    // Lack of memory leaves the history as it was, so the import may be sent again.
    ensures err { (G : Ledger) → L.Stands owner.old G → L.Trusts owner.new
        → OnErr result (L.Stands owner.new G) }
{
    match import.command(alloc, bytes) {
        Ok(stamped) => answer_command(alloc, owner, &stamped),
        Err(ImportFault::NoMemory) => Err(AllocError),
        Err(fault) => Ok(AnswerText {
            text: fault.write_text(alloc)?,
            verdict: Verdict::Faulty,
        }),
    }
}

/// Answers an import, writes the answer, and returns whether it counts as refused.
pub fn serve_import<W: Write, L: Owner>(
    alloc: Global,
    output: &mut Wire<W>,
    owner: &mut L,
    import: &Import,
    bytes: &[u8],
) -> Result<bool, WriteFailed>
    requires few_failures { failures_of output.old < 2 ^ 63 }
    requires ready { L.Ready owner.old }
    ensures stays { StaysReady L.Ready L.Trusts owner.old owner.new }
    // A failed write undoes nothing: the history is that of the answer, however much was sent.
    ensures answers { ForLists L.Stands L.Trusts owner.old owner.new
        (AnswersFile (command_said import.now bytes.now) (W.contents (inner_of output.old))
        (W.contents (inner_of output.new)) result) }
    ensures writes { CountsWrite result output.old output.new }
{
    let answer = match answer_import(alloc, owner, import, bytes) {
        Ok(told) => LineAnswer::Made(told),
        Err(AllocError) => LineAnswer::Unavailable,
    };
    send_line(output, answer.text())?;
    Ok(answer.is_refused())
}
