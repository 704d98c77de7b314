//! The gateway: it serves connections and answers questions by an owner that it borrows.

ghost use Rattle.std.specs.Prelude.{◌≡◌, true, is_some};
ghost use Rattle.desk_types.specs.Wire.{inner_of};
ghost use Rattle.desk_answers.specs.Ledger.{Ledger, ForLists};
ghost use Rattle.desk_answers.specs.Owners.{StaysReady};
ghost use Rattle.desk_answers.specs.Shown.{CanCountRun, CountsRun};
ghost use Rattle.http_stream.specs.Answers.{response_told};
ghost use Rattle.http_stream.specs.Stream.{AnswersConnection, StaysLent};
ghost use Rattle.gateway_http.specs.Gateways.{AnswersGet};
ghost use Rattle.gateway_http.specs.Requests.{request_rule};

use crate::answers::answer_request;
use crate::reported::ReportedOwner;
use crate::routes::RouteTable;
use desk_answers::{ServeFault, Served};
use desk_types::Wire;
use http_stream::{Handler, Response};
use line_schema::Unavailable;
use std::alloc::Global;
use std::io::{Read, Write};

/// An owner with the routes, which the first request makes. If memory for them is refused, the next request tries
/// again.
pub struct Gateway<'a, L> {
    pub owner: &'a mut L,
    pub routes: &'a mut Option<RouteTable>,
}

/// It answers by the gateway's rule, with its owner's reports.
impl<'a, L: ReportedOwner> Handler for Gateway<'a, L> {
    ghost use Rattle.std.specs.Prelude.{◌≡◌};
    ghost use Rattle.desk_answers.specs.Ledger.{Ledger};
    ghost use Rattle.gateway_http.specs.Requests.{request_rule};

    ghost State = { Ledger };

    ghost rule = { request_rule L.reports };

    ghost Stands = { λ gateway G. L.Stands gateway.owner.now G };

    ghost Ready = { λ gateway. L.Ready gateway.owner.now };

    ghost Trusts = { λ gateway. L.Trusts gateway.owner.now };

    ghost held = { λ gateway. gateway.owner.ghost_name };

    fn handle(&mut self, alloc: Global, method: &[u8], target: &[u8], body: &[u8]) -> Response {
        make_missing(alloc, self.routes);
        match answer_request(
            alloc,
            self.owner,
            self.routes.as_ref(),
            method,
            target,
            body,
        ) {
            Ok(response) => response,
            Err(Unavailable) => Response::unavailable(),
        }
    }
}

impl<'a, L: ReportedOwner> Gateway<'a, L> {
    /// Serves a connection. Of the ledger only the history changes.
    fn serve<R: Read, W: Write>(
        &mut self,
        alloc: Global,
        input: &mut Wire<R>,
        output: &mut Wire<W>,
    ) -> Result<Served, ServeFault>
        requires counts { CanCountRun input.old output.old }
        requires ready { L.Ready self.old.owner.now }
        ensures stays { StaysLent (λ gateway. L.Ready gateway.owner.now)
            (λ gateway. L.Trusts gateway.owner.now) (λ gateway. gateway.owner.ghost_name)
            self.old self.new }
        ensures answers { ForLists (λ gateway G. L.Stands gateway.owner.now G)
            (λ gateway. L.Trusts gateway.owner.now) self.old self.new
            (λ G H. AnswersConnection (request_rule L.reports) (R.remaining (inner_of input.old))
            (R.remaining (inner_of input.new)) (W.contents (inner_of output.old))
            (W.contents (inner_of output.new)) result G (record G { history = H })) }
        ensures counts { CountsRun result input.old input.new output.old output.new }
    {
        http_stream::serve(alloc, input, output, self)
    }
}

/// Makes the routes if they are missing and there is memory for them.
pub fn make_missing(alloc: Global, routes: &mut Option<RouteTable>)
    // Says nothing of missing routes: without routes each request is answered Unavailable.
    ensures { is_some routes.old ≡ true → routes.new ≡ routes.old }
{
    if routes.is_none() {
        *routes = RouteTable::new(alloc).ok();
    }
}

/// Serves a connection by the owner, as `http_stream` does by a handler.
pub fn serve<R: Read, W: Write, L: ReportedOwner>(
    alloc: Global,
    input: &mut Wire<R>,
    output: &mut Wire<W>,
    owner: &mut L,
) -> Result<Served, ServeFault>
    requires counts { CanCountRun input.old output.old }
    requires ready { L.Ready owner.old }
    ensures stays { StaysReady L.Ready L.Trusts owner.old owner.new }
    // Only the history changes, and not the rules or the greatest number.
    ensures answers { ForLists L.Stands L.Trusts owner.old owner.new
        (λ G H. AnswersConnection (request_rule L.reports) (R.remaining (inner_of input.old))
        (R.remaining (inner_of input.new)) (W.contents (inner_of output.old))
        (W.contents (inner_of output.new)) result G (record G { history = H })) }
    ensures counts { CountsRun result input.old input.new output.old output.new }
{
    let mut routes = None;
    let mut gateway = Gateway {
        owner,
        routes: &mut routes,
    };
    let ended = gateway.serve(alloc, input, output);
    let Gateway {
        owner: _,
        routes: _,
    } = gateway;
    ended
}

/// Answers a GET of this target, possibly with Unavailable. The history is unchanged.
pub fn ask<L: ReportedOwner>(alloc: Global, target: &[u8], owner: &mut L) -> Response
    requires ready { L.Ready owner.old }
    ensures ready { L.Ready owner.new }
    ensures trusts { L.Trusts owner.new → L.Trusts owner.old }
    ensures told { (G : Ledger) → L.Stands owner.old G → L.Trusts owner.new
        → AnswersGet L.reports G target.now (response_told result) }
    ensures stands { (G : Ledger) → L.Stands owner.old G → L.Trusts owner.new
        → L.Stands owner.new G }
{
    let routes = RouteTable::new(alloc).ok();
    match answer_request(alloc, owner, routes.as_ref(), b"GET", target, &[]) {
        Ok(response) => response,
        Err(Unavailable) => Response::unavailable(),
    }
}
