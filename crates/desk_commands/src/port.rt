//! Requests, answered: those of a port, or one that asks for a report.

ghost use Rattle.std.specs.Prelude.{◌≡◌, ◌+◌, ◌^◌, ◌<◌, ◌≤◌, true, false, OnOk, OnErr};
ghost use Rattle.std.specs.Io.KnownBytes.{Appends};
ghost use Rattle.desk_types.specs.Wire.{inner_of, failures_of};
ghost use Rattle.desk_answers.specs.declared.serving.ServeFault.TheVariants.{Read as ReadFault, Write as WriteFault};
ghost use Rattle.desk_answers.specs.Counts.{none_served};
ghost use Rattle.desk_answers.specs.Sent.{SendsFront};
ghost use Rattle.gateway_http.specs.Requests.{request_rule};
ghost use Rattle.http_stream.specs.Answers.{response_told};
ghost use Rattle.http_stream.specs.Stream.{ForStates, StaysLent};
ghost use Rattle.desk_answers.specs.Ledger.{ForLists};
ghost use Rattle.desk_commands.specs.Clients.{ServesAt};
ghost use Rattle.desk_commands.specs.Connections.{AnswersEach, AnswersInTurn};
ghost use Rattle.desk_commands.specs.Ends.{ReportEnds, ServingEnds};
ghost use Rattle.desk_commands.specs.OpenRuns.{AnswersReport};
ghost use Rattle.desk_commands.specs.Told.{fault_line, report_output, TellsLine};
ghost use Rattle.desk_commands.specs.Wires.{HaveFewFailures};

use crate::clients::{Clients, NoClient};
use crate::exit::{Exit, tell_line};
use crate::serving::serve_listener;
use desk_answers::{WriteFailed, send, send_line};
use desk_types::Wire;
use gateway_http::{Gateway, MediaType, ReportedOwner, Response, ask};
use http_stream::Handler;
use std::alloc::Global;
use std::io::Write;

/// Serves this number of connections on a port of this machine, and prints a line for each. Returns the exit status. If
/// the port can't be opened, no connection could be accepted.
pub fn serve_port<H: Handler, C: Clients, W: Write, E: Write>(
    alloc: Global,
    clients: &mut C,
    port: u16,
    connections: u32,
    output: &mut Wire<W>,
    errors: &mut Wire<E>,
    handler: &mut H,
) -> u8
    requires some { 1 ≤ connections }
    requires few { HaveFewFailures output.old errors.old }
    requires ready { H.Ready handler.old }
    ensures stays { StaysLent H.Ready H.Trusts H.held handler.old handler.new }
    ensures ends { ServingEnds W.contents E.contents output.old output.new errors.old errors.new
        connections (ServesAt C.Saw clients.old clients.new port)
        (λ es. ForStates H.Stands H.Trusts handler.old handler.new (AnswersInTurn H.rule es))
        ⊥ result }
{
    if let Err(NoClient) = clients.listen(port) {
        tell_line(errors, "tracedesk: Read");
        return Exit::Failed as u8;
    }
    let failures = output.failures();
    let status = serve_listener(alloc, clients, connections, output, handler);
    if status == 4 {
        tell_end(errors, output.failures() > failures);
    }
    status
}

/// The same by a gateway. Of its owner's ledger only the history changes.
fn serve_gateway<L: ReportedOwner, C: Clients, W: Write, E: Write>(
    alloc: Global,
    clients: &mut C,
    port: u16,
    connections: u32,
    output: &mut Wire<W>,
    errors: &mut Wire<E>,
    gateway: &mut Gateway<'_, L>,
) -> u8
    requires some { 1 ≤ connections }
    requires few { HaveFewFailures output.old errors.old }
    requires ready { L.Ready gateway.old.owner.now }
    ensures stays { StaysLent (λ lent. L.Ready lent.owner.now) (λ lent. L.Trusts lent.owner.now)
        (λ lent. lent.owner.ghost_name) gateway.old gateway.new }
    ensures ends { ServingEnds W.contents E.contents output.old output.new errors.old errors.new
        connections (ServesAt C.Saw clients.old clients.new port)
        (λ es. ForLists (λ lent G. L.Stands lent.owner.now G) (λ lent. L.Trusts lent.owner.now)
        gateway.old gateway.new (AnswersEach (request_rule L.reports) es)) ⊥ result }
{
    serve_port(alloc, clients, port, connections, output, errors, gateway)
}

/// The same by an owner, whose routes are made once.
pub fn serve_owner<L: ReportedOwner, C: Clients, W: Write, E: Write>(
    alloc: Global,
    clients: &mut C,
    port: u16,
    connections: u32,
    output: &mut Wire<W>,
    errors: &mut Wire<E>,
    owner: &mut L,
) -> u8
    requires some { 1 ≤ connections }
    requires few { HaveFewFailures output.old errors.old }
    requires ready { L.Ready owner.old }
    ensures ready { L.Ready owner.new }
    ensures trusts { L.Trusts owner.new → L.Trusts owner.old }
    ensures ends { ServingEnds W.contents E.contents output.old output.new errors.old errors.new
        connections (ServesAt C.Saw clients.old clients.new port)
        (λ es. ForLists L.Stands L.Trusts owner.old owner.new
        (AnswersEach (request_rule L.reports) es)) ⊥ result }
{
    let mut routes = None;
    let mut gateway = Gateway {
        owner,
        routes: &mut routes,
    };
    let status = serve_gateway(
        alloc,
        clients,
        port,
        connections,
        output,
        errors,
        &mut gateway,
    );
    let Gateway {
        owner: _,
        routes: _,
    } = gateway;
    status
}

fn tell_end<E: Write>(errors: &mut Wire<E>, unwritten: bool)
    requires error_failures { failures_of errors.old < 2 ^ 63 }
    ensures read { unwritten ≡ false
        → TellsLine E.contents errors.old errors.new (fault_line (ReadFault none_served)) }
    ensures write { unwritten ≡ true
        → TellsLine E.contents errors.old errors.new (fault_line (WriteFault none_served)) }
{
    if unwritten {
        tell_line(errors, "tracedesk: Write");
    } else {
        tell_line(errors, "tracedesk: Read");
    }
}

/// Prints the answer to a GET of a target. Returns the exit status.
pub fn tell_report<L: ReportedOwner, W: Write, E: Write>(
    alloc: Global,
    target: &str,
    output: &mut Wire<W>,
    errors: &mut Wire<E>,
    owner: &mut L,
) -> u8
    requires few { HaveFewFailures output.old errors.old }
    requires ready { L.Ready owner.old }
    ensures ready { L.Ready owner.new }
    ensures trusts { L.Trusts owner.new → L.Trusts owner.old }
    ensures ends { ReportEnds W.contents E.contents output.old output.new errors.old errors.new
        (λ answer. ForLists L.Stands L.Trusts owner.old owner.new
        (AnswersReport L.reports target.now answer)) ⊥ result }
{
    let response = ask(alloc, target.as_bytes(), owner);
    match send_report(output, &response) {
        Ok(()) if response.status.code() == 200 => Exit::Done as u8,
        Ok(()) => Exit::Refused as u8,
        Err(WriteFailed) => {
            tell_line(errors, "tracedesk: Write");
            Exit::Failed as u8
        }
    }
}

fn send_report<W: Write>(output: &mut Wire<W>, response: &Response) -> Result<(), WriteFailed>
    requires few_failures { failures_of output.old < 2 ^ 63 }
    ensures ok { OnOk result
        (Appends (W.contents (inner_of output.old)) (W.contents (inner_of output.new))
        (report_output (response_told response.now))) }
    ensures kept { OnOk result (failures_of output.new ≡ failures_of output.old) }
    ensures failed { OnErr result (failures_of output.new ≡ failures_of output.old + 1) }
    ensures front { OnErr result
        (SendsFront (W.contents (inner_of output.old)) (W.contents (inner_of output.new))
        (report_output (response_told response.now))) }
{
    match response.kind {
        MediaType::Csv => send(output, response.body.as_slice()),
        MediaType::Json => send_line(output, response.body.as_slice()),
    }
}
