//! Connections, one after another.

ghost use Rattle.std.specs.Prelude.{◌≡◌, ◌<◌, ◌+◌, ◌^◌, [], ◌∷◌, None, IfSome, OnOk, OnErr};
ghost use Rattle.std.specs.Io.KnownBytes.{Appends};
ghost use Rattle.desk_types.specs.Wire.{inner_of, failures_of};
ghost use Rattle.desk_answers.specs.Sent.{SendsFront};
ghost use Rattle.http_stream.specs.Stream.{ForStates, StaysLent};
ghost use Rattle.desk_commands.specs.Clients.{Exchange, Sees, Serving, ServesOn, ends_of, events_in};
ghost use Rattle.desk_commands.specs.Clients.Event.{none_came};
ghost use Rattle.desk_commands.specs.Connections.{AnswersInTurn, Connected, TellsConnections, connection_line, fault_word, is_faulty, served_of};

use crate::clients::Clients;
use desk_answers::{ServeFault, Served, WriteFailed, send};
use desk_types::Wire;
use http_stream::{Handler, serve};
use itoa::Buffer;
use std::alloc::Global;
use std::io::Write;

/// Serves this number of connections, one after another, and writes a line for each: its number from 1 on, the number
/// of answered requests, and the fault that ended it, if any. A connection that ends with a fault ends no other. Only
/// the bytes that a client sent decide the answers it gets.
///
/// Returns the exit status: 0; 1 if a request was refused or a connection ended with a fault; 4 if no further
/// connection could be accepted, or if a line could not be written, which a failure of `output` shows.
pub fn serve_listener<H: Handler, C: Clients, W: Write>(
    alloc: Global,
    clients: &mut C,
    connections: u32,
    output: &mut Wire<W>,
    handler: &mut H,
) -> u8
    requires few_failures { failures_of output.old < 2 ^ 63 }
    requires ready { H.Ready handler.old }
    ensures stays { StaysLent H.Ready H.Trusts H.held handler.old handler.new }
    // One line for each connection, in order, with what it was answered by the rule.
    ensures told { (serving : Serving)
        × TellsConnections connections (ends_of serving.exchanges) serving.stop result
        (W.contents (inner_of output.old)) (W.contents (inner_of output.new))
        (failures_of output.old) (failures_of output.new)
        × ServesOn C.Saw clients.old clients.new serving
        × ForStates H.Stands H.Trusts handler.old handler.new
        (AnswersInTurn H.rule serving.exchanges) }
{
    let mut faulty = false;
    for k in 0..connections {
        let Some(ended) = serve_next(alloc, clients, handler) else {
            return 4;
        };
        faulty |= is_faulty(&ended);
        match tell(output, u64::from(k) + 1, &ended) {
            Ok(()) => {}
            Err(WriteFailed) => return 4,
        }
    }
    u8::from(faulty)
}

fn serve_next<H: Handler, C: Clients>(
    alloc: Global,
    clients: &mut C,
    handler: &mut H,
) -> Option<Result<Served, ServeFault>>
    requires ready { H.Ready handler.old }
    ensures stays { StaysLent H.Ready H.Trusts H.held handler.old handler.new }
    ensures none { result ≡ None
        → (handler.new ≡ handler.old) × Sees C.Saw clients.old clients.new (none_came ∷ []) }
    ensures served { IfSome result (λ ended. (exchange : Exchange) × (exchange.ended ≡ ended)
        × Sees C.Saw clients.old clients.new (events_in exchange)
        × ForStates H.Stands H.Trusts handler.old handler.new
        (λ s. Connected H.rule s exchange)) }
{
    let Ok((reader, writer)) = clients.accept() else {
        return None;
    };
    let mut input = Wire::new(reader);
    let mut answers = Wire::new(writer);
    let ended = serve(alloc, &mut input, &mut answers, handler);
    clients.leave(input.into_inner(), answers.into_inner());
    Some(ended)
}

fn is_faulty(ended: &Result<Served, ServeFault>) -> bool
    ensures { result ≡ is_faulty ended.now }
{
    match ended {
        Ok(served) => served.refused > 0,
        Err(_) => true,
    }
}

/// Writes the line of a connection, such as `1 8` or `2 0 Read`.
fn tell<W: Write>(
    output: &mut Wire<W>,
    number: u64,
    ended: &Result<Served, ServeFault>,
) -> Result<(), WriteFailed>
    requires few_failures { failures_of output.old < 2 ^ 63 }
    ensures ok { OnOk result
        (Appends (W.contents (inner_of output.old)) (W.contents (inner_of output.new))
        (connection_line number ended.now)) }
    ensures kept { OnOk result (failures_of output.new ≡ failures_of output.old) }
    ensures failed { OnErr result (failures_of output.new ≡ failures_of output.old + 1) }
    ensures front { OnErr result
        (SendsFront (W.contents (inner_of output.old)) (W.contents (inner_of output.new))
        (connection_line number ended.now)) }
{
    let (served, word) = served_and_word(ended);
    send(output, Buffer::new().format(number).as_bytes())?;
    send(output, b" ")?;
    send(output, Buffer::new().format(served.answered).as_bytes())?;
    send(output, word.as_bytes())
}

/// Returns the number of answers, and the name of the fault with the end of the line.
fn served_and_word(ended: &Result<Served, ServeFault>) -> (Served, &'static str)
    ensures served { result.0 ≡ served_of ended.now }
    ensures word { result.1.now ≡ fault_word ended.now }
{
    match ended {
        Ok(served) => (*served, "\n"),
        Err(ServeFault::Read(served)) => (*served, " Read\n"),
        Err(ServeFault::Write(served)) => (*served, " Write\n"),
        Err(ServeFault::TooManyReads(served)) => (*served, " TooManyReads\n"),
    }
}
