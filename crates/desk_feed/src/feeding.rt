//! Answering lines of input.

ghost use Rattle.std.specs.Prelude.{ℕ, List};
ghost use Rattle.desk_types.specs.Wire.{inner_of};
ghost use Rattle.desk_answers.specs.Ledger.{ForLists};
ghost use Rattle.desk_answers.specs.Counts.{CanCountAnswer};
ghost use Rattle.desk_answers.specs.Owners.{StaysReady};
ghost use Rattle.desk_answers.specs.Sent.{CountsWrite};
ghost use Rattle.desk_answers.specs.Shown.{CanCountRun, CountsRun};
ghost use Rattle.desk_feed.specs.Taking.{HoldsLine};
ghost use Rattle.desk_feed.specs.LineAnswers.{CountsLine, SendsLine};
ghost use Rattle.desk_feed.specs.Lines.{lines_in};
ghost use Rattle.desk_feed.specs.Stream.{AnswersInput, ReadsInput};

use crate::line::answer_line;
use crate::taking::{RawLine, TakenLine, take_line};
use desk_answers::{Block, Owner, ReadFault, ServeFault, Served, WriteFailed, send_line};
use desk_types::{MOST_READS, Wire};
use std::alloc::Global;
use std::io::{Read, Write};

/// Answers the lines of an input, each before reading the next.
///
/// A line ends at a line feed or at the end of input, without a carriage return before it. Empty
/// lines are skipped. A line over 1,048,576 bytes is skipped to its end and answered LineTooLong; a
/// line that runs out of memory while being read is skipped and answered Unavailable. Any other
/// line is a message, answered from the owner's history, provided that its storage has not lied.
pub fn feed<R: Read, W: Write, L: Owner>(
    alloc: Global,
    input: &mut Wire<R>,
    output: &mut Wire<W>,
    owner: &mut L,
) -> Result<Served, ServeFault>
    requires counts { CanCountRun input.old output.old }
    requires ready { L.Ready owner.old }
    ensures stays { StaysReady L.Ready L.Trusts owner.old owner.new }
    ensures answers { ForLists L.Stands L.Trusts owner.old owner.new
        (AnswersInput (R.remaining (inner_of input.old)) (W.contents (inner_of output.old))
        (W.contents (inner_of output.new)) result) }
    // No line that was read to its end is left unanswered, unless a write failed.
    ensures read { ReadsInput (R.remaining (inner_of input.old)) (R.remaining (inner_of input.new))
        result }
    ensures counts { CountsRun result input.old input.new output.old output.new }
{
    let most_reads = input.reads() + MOST_READS;
    let mut block = Block::new();
    let mut served = Served {
        answered: 0,
        refused: 0,
    };
    'lines: loop {
        match take_line(alloc, &mut block, input, most_reads) {
            Ok(TakenLine { line: raw, last }) => {
                match serve_line(alloc, output, owner, raw, &mut served) {
                    Ok(()) if last => return Ok(served),
                    Ok(()) => {}
                    Err(WriteFailed) => return Err(ServeFault::Write(served)),
                }
            }
            Err(ReadFault::Failed) => return Err(ServeFault::Read(served)),
            Err(ReadFault::TooMany) => return Err(ServeFault::TooManyReads(served)),
        }
    }
}

fn serve_line<W: Write, L: Owner>(
    alloc: Global,
    output: &mut Wire<W>,
    owner: &mut L,
    raw: RawLine,
    served: &mut Served,
) -> Result<(), WriteFailed>
    requires counts { CanCountAnswer output.old served.old }
    requires ready { L.Ready owner.old }
    ensures stays { StaysReady L.Ready L.Trusts owner.old owner.new }
    ensures answers { (bytes : List ℕ) → HoldsLine raw bytes
        → ForLists L.Stands L.Trusts owner.old owner.new
        (SendsLine (lines_in bytes) (W.contents (inner_of output.old)) served.old
        (W.contents (inner_of output.new)) served.new result) }
    ensures counts { CountsLine raw result served.old served.new }
    ensures writes { CountsWrite result output.old output.new }
{
    if let Some(answer) = answer_line(alloc, owner, raw) {
        send_line(output, answer.text())?;
        served.count(answer.is_refused());
    }
    Ok(())
}
