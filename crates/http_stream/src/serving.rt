//! Serving a connection.

ghost use Rattle.std.specs.Prelude.{◌≡◌, true};
ghost use Rattle.desk_types.specs.Wire.{inner_of};
ghost use Rattle.desk_answers.specs.Counts.{CanCountAnswer};
ghost use Rattle.desk_answers.specs.Shown.{CanCountRun, CountsRun};
ghost use Rattle.http_stream.specs.Answers.{reply_told};
ghost use Rattle.http_stream.specs.Cut.{is_head, is_last};
ghost use Rattle.http_stream.specs.Portions.{IsTaken, portion_of};
ghost use Rattle.http_stream.specs.Stream.{AnswersConnection, AnswersPortion, ForStates, SendsPortion, ShowsSent, StaysLent, has_body};

use crate::answer::send_answer;
use crate::portion::{TakenPortion, method_of, take_portion, target_of};
use crate::reply::HttpReply;
use crate::response::Response;
use desk_answers::{Block, ReadFault, ServeFault, Served, WriteFailed};
use desk_types::{MOST_READS, Wire};
use std::alloc::Global;
use std::io::{Read, Write};

/// Answers whole requests from a state that it stores.
pub trait Handler {
    ghost use Rattle.std.specs.Prelude.{◌≡◌};
    ghost use Rattle.std.specs.Borrow.{GName};
    ghost use Rattle.http_stream.specs.Answers.{response_told};
    ghost use Rattle.http_stream.specs.Stream.{Rule, ForStates, AnswersRequest};

    /// The states that a handler can represent.
    ghost State: { Type 0 };

    /// The handler's rule.
    ghost rule: { Rule State };

    /// The state that the handler represents.
    ghost Stands: { Self → State → Type 0 };

    /// The condition that each call requires and restores.
    ghost Ready: { Self → Type 0 };

    /// The handler's storage has not lied so far, like an honest disk.
    ghost Trusts: { Self → Type 0 };

    /// The borrow that the handler holds, which each call keeps. So the lender knows the value that comes back.
    ghost held: { Self → GName };

    /// Answers a request, possibly with Unavailable, which leaves the state unchanged.
    fn handle(&mut self, alloc: Global, method: &[u8], target: &[u8], body: &[u8]) -> Response
        requires ready { Ready self.old }
        ensures ready { Ready self.new }
        ensures trusts { Trusts self.new → Trusts self.old }
        ensures held { held self.new ≡ held self.old }
        // The mark is free: any request may be answered Unavailable, and then changes nothing.
        ensures told { ForStates Stands Trusts self.old self.new
            (λ s. AnswersRequest rule
            (record { method = method.now; target = target.now; body = body.now }) s
            (response_told result)) };
}

/// The answer to a portion, and how it is written.
#[derive(Drop)]
struct Told {
    reply: HttpReply,
    closes: bool,
    has_body: bool,
}

/// Serves a connection: answers its requests, each before reading the next, up to the end of input
/// or of the connection.
///
/// A request that the input doesn't contain whole has no answer. A request without memory for its
/// body is answered 503 and ends the connection. After a write fault, part of one more answer may
/// have been sent, and its request may be done.
pub fn serve<R: Read, W: Write, A: Handler>(
    alloc: Global,
    input: &mut Wire<R>,
    output: &mut Wire<W>,
    handler: &mut A,
) -> Result<Served, ServeFault>
    requires counts { CanCountRun input.old output.old }
    requires ready { A.Ready handler.old }
    ensures stays { StaysLent A.Ready A.Trusts A.held handler.old handler.new }
    ensures answers { ForStates A.Stands A.Trusts handler.old handler.new
        (AnswersConnection A.rule (R.remaining (inner_of input.old))
        (R.remaining (inner_of input.new)) (W.contents (inner_of output.old))
        (W.contents (inner_of output.new)) result) }
    ensures counts { CountsRun result input.old input.new output.old output.new }
{
    let most_reads = input.reads() + MOST_READS;
    let mut block = Block::new();
    let mut served = Served {
        answered: 0,
        refused: 0,
    };
    'portions: loop {
        match take_portion(alloc, &mut block, input, most_reads) {
            Ok(Some(taken)) => {
                match serve_portion(alloc, output, handler, &block.bytes, taken, &mut served) {
                    Ok(true) => return Ok(served),
                    Ok(false) => {}
                    Err(WriteFailed) => return Err(ServeFault::Write(served)),
                }
            }
            Ok(None) => return Ok(served),
            Err(ReadFault::Failed) => return Err(ServeFault::Read(served)),
            Err(ReadFault::TooMany) => return Err(ServeFault::TooManyReads(served)),
        }
    }
}

/// Answers a portion, writes the answer, and returns whether it is the last.
fn serve_portion<W: Write, A: Handler>(
    alloc: Global,
    output: &mut Wire<W>,
    handler: &mut A,
    block: &[u8],
    taken: TakenPortion,
    served: &mut Served,
) -> Result<bool, WriteFailed>
    requires taken { IsTaken block.now taken }
    requires counts { CanCountAnswer output.old served.old }
    requires ready { A.Ready handler.old }
    ensures stays { StaysLent A.Ready A.Trusts A.held handler.old handler.new }
    ensures answers { ForStates A.Stands A.Trusts handler.old handler.new
        (SendsPortion A.rule (portion_of block.now taken) (W.contents (inner_of output.old))
        served.old (W.contents (inner_of output.new)) served.new result) }
    ensures sent { ShowsSent (is_last (portion_of block.now taken)) result output.old output.new
        served.old served.new }
{
    let told = answer_portion(alloc, handler, block, taken);
    send_answer(output, &told.reply, told.closes, told.has_body)?;
    served.count(told.reply.status().is_refused());
    Ok(told.closes)
}

fn answer_portion<A: Handler>(
    alloc: Global,
    handler: &mut A,
    block: &[u8],
    taken: TakenPortion,
) -> Told
    requires taken { IsTaken block.now taken }
    requires ready { A.Ready handler.old }
    ensures stays { StaysLent A.Ready A.Trusts A.held handler.old handler.new }
    ensures told { ForStates A.Stands A.Trusts handler.old handler.new
        (λ s. AnswersPortion A.rule (portion_of block.now taken) s (reply_told result.reply)) }
    ensures closes { result.closes ≡ is_last (portion_of block.now taken) }
    ensures has_body { result.has_body ≡ has_body (portion_of block.now taken) }
{
    match taken {
        TakenPortion::Whole(seen, body) => {
            let method = method_of(block, seen);
            Told {
                reply: HttpReply::Response(handler.handle(
                    alloc,
                    method,
                    target_of(block, seen),
                    &body,
                )),
                closes: seen.head.closes,
                has_body: !is_head(method),
            }
        }
        TakenPortion::BadHead => last(HttpReply::BadHead),
        TakenPortion::HeadTooLarge => last(HttpReply::HeadTooLarge),
        TakenPortion::Unread(seen, fault) => Told {
            reply: HttpReply::Length(fault),
            closes: true,
            has_body: !is_head(method_of(block, seen)),
        },
        TakenPortion::Starved => last(HttpReply::Response(Response::unavailable())),
    }
}

/// Returns the last answer of a connection, with its body.
fn last(reply: HttpReply) -> Told
    ensures { result ≡ record { reply = reply; closes = true; has_body = true } }
{
    Told {
        reply,
        closes: true,
        has_body: true,
    }
}

fn is_head(method: &[u8]) -> bool
    ensures { result ≡ is_head method.now }
{
    method == b"HEAD".as_slice()
}
