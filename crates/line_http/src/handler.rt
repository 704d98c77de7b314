//! The handler of a line's routes, and a connection to it.

ghost use Rattle.desk_types.specs.Wire.{inner_of};
ghost use Rattle.desk_answers.specs.Shown.{CanCountRun, CountsRun};
ghost use Rattle.http_stream.specs.Stream.{AnswersConnection, ForStates, StaysLent};
ghost use Rattle.sqlite.specs.State.{HasCleanDisk};
ghost use Rattle.book_store.specs.Lists.{Serves, book_state};
ghost use Rattle.line_http.specs.Line.{Represents};
ghost use Rattle.line_http.specs.Rule.{line_rule};

use crate::answers::answer_request;
use book_store::BookStore;
use desk_answers::{ServeFault, Served};
use desk_types::Wire;
use gateway_http::{Response, RouteTable, Unavailable, make_missing};
use http_stream::Handler;
use sqlite::Alter;
use state_rows::KeepsRows;
use std::alloc::Global;
use std::io::{Read, Write};

/// A store of both lists, with the desk's routes, which the first request makes. If memory for them is refused, the next
/// request tries again.
pub struct LineHandler<'a, S: Alter, D: KeepsRows + Drop> {
    pub store: &'a mut BookStore<S, D>,
    pub routes: &'a mut Option<RouteTable>,
}

/// It answers by the rule of a line's routes.
impl<'a, S: Alter, D: KeepsRows + Drop> Handler for LineHandler<'a, S, D> {
    ghost use Rattle.std.specs.Prelude.{◌≡◌};
    ghost use Rattle.sqlite.specs.State.{HasCleanDisk};
    ghost use Rattle.book_store.specs.Lists.{Serves, book_state};
    ghost use Rattle.line_http.specs.Line.{Line, Represents};
    ghost use Rattle.line_http.specs.Rule.{line_rule};

    ghost State = { Line };

    ghost rule = { line_rule };

    ghost Stands = { λ handler line. Represents S.Store D.Stands handler.store.now line };

    ghost Ready = { λ handler. Serves S.Store D.Stands handler.store.now };

    ghost Trusts = { λ handler. HasCleanDisk (book_state S.Store handler.store.now) };

    ghost held = { λ handler. handler.store.ghost_name };

    fn handle(&mut self, alloc: Global, method: &[u8], target: &[u8], body: &[u8]) -> Response {
        make_missing(alloc, self.routes);
        match answer_request(
            alloc,
            self.store,
            self.routes.as_ref(),
            method,
            target,
            body,
        ) {
            Ok(response) => response,
            Err(Unavailable) => Response::unavailable(),
        }
    }
}

impl<'a, S: Alter, D: KeepsRows + Drop> LineHandler<'a, S, D> {
    /// Serves a connection.
    fn serve<R: Read, W: Write>(
        &mut self,
        alloc: Global,
        input: &mut Wire<R>,
        output: &mut Wire<W>,
    ) -> Result<Served, ServeFault>
        requires counts { CanCountRun input.old output.old }
        requires serves { Serves S.Store D.Stands self.old.store.now }
        ensures stays { StaysLent (λ handler. Serves S.Store D.Stands handler.store.now)
            (λ handler. HasCleanDisk (book_state S.Store handler.store.now))
            (λ handler. handler.store.ghost_name) self.old self.new }
        ensures answers { ForStates
            (λ handler line. Represents S.Store D.Stands handler.store.now line)
            (λ handler. HasCleanDisk (book_state S.Store handler.store.now)) self.old self.new
            (AnswersConnection line_rule (R.remaining (inner_of input.old))
            (R.remaining (inner_of input.new)) (W.contents (inner_of output.old))
            (W.contents (inner_of output.new)) result) }
        ensures counts { CountsRun result input.old input.new output.old output.new }
    {
        http_stream::serve(alloc, input, output, self)
    }
}

/// Serves a connection by the store, as `http_stream` does by a handler.
pub fn serve<R: Read, W: Write, S: Alter, D: KeepsRows + Drop>(
    alloc: Global,
    input: &mut Wire<R>,
    output: &mut Wire<W>,
    store: &mut BookStore<S, D>,
) -> Result<Served, ServeFault>
    requires counts { CanCountRun input.old output.old }
    requires serves { Serves S.Store D.Stands store.old }
    ensures serves { Serves S.Store D.Stands store.new }
    ensures clean { HasCleanDisk (book_state S.Store store.new)
        → HasCleanDisk (book_state S.Store store.old) }
    // Each answer is by the lists that the ones before it left.
    ensures answers { ForStates (Represents S.Store D.Stands)
        (λ kept. HasCleanDisk (book_state S.Store kept)) store.old store.new
        (AnswersConnection line_rule (R.remaining (inner_of input.old))
        (R.remaining (inner_of input.new)) (W.contents (inner_of output.old))
        (W.contents (inner_of output.new)) result) }
    ensures counts { CountsRun result input.old input.new output.old output.new }
{
    let mut routes = None;
    let mut handler = LineHandler {
        store,
        routes: &mut routes,
    };
    let ended = handler.serve(alloc, input, output);
    let LineHandler {
        store: _,
        routes: _,
    } = handler;
    ended
}
