//! Requests, answered by both lists of a file.

ghost use Rattle.std.specs.Prelude.{◌≡◌, ◌≤◌};
ghost use Rattle.sqlite.specs.State.{HasCleanDisk};
ghost use Rattle.sqlite_wal.specs.Files.{image_at};
ghost use Rattle.http_stream.specs.Stream.{ForStates, StaysLent};
ghost use Rattle.desk_commands.specs.Clients.{ServesAt};
ghost use Rattle.desk_commands.specs.Connections.{AnswersInTurn};
ghost use Rattle.desk_commands.specs.Ends.{ServingEnds};
ghost use Rattle.desk_commands.specs.Wires.{HaveFewFailures};
ghost use Rattle.book_store.specs.Lists.{Serves, book_state};
ghost use Rattle.line_http.specs.Line.{Represents};
ghost use Rattle.line_http.specs.Rule.{line_rule};
ghost use Rattle.line_commands.specs.Serving.{HasNoLists, ServesLists};

use crate::left::LineLeft;
use crate::lists::open_lists;
use book_store::BookStore;
use desk_commands::{Clients, serve_port};
use desk_types::Wire;
use line_http::LineHandler;
use line_reads::tell_fault;
use sqlite::{Alter, FileFrom, Start};
use state_rows::KeepsRows;
use std::alloc::Global;
use std::io::Write;

/// Serves this number of connections on a port by both lists of a file, which is made if missing. Returns the exit
/// status, and what is open of the file.
pub fn serve_in_file<T: Start, C: Clients, W: Write, E: Write>(
    rt: &HostRuntime,
    file: &str,
    start: T,
    clients: &mut C,
    port: u16,
    connections: u32,
    output: &mut Wire<W>,
    errors: &mut Wire<E>,
) -> (u8, LineLeft<FileFrom<T>>)
    // To serve nobody is a fault of the command line, which is read before.
    requires some { 1 ≤ connections }
    requires few { HaveFewFailures output.old errors.old }
    // Each answer is by the lists that the ones before it left. If the file was refused no client was waited for.
    ensures ends { ServingEnds W.contents E.contents output.old output.new errors.old errors.new
        connections (ServesAt C.Saw clients.old clients.new port)
        (λ es. ServesLists (image_at T.Start) result.1 (AnswersInTurn line_rule es))
        (HasNoLists (image_at T.Start) result.1 E.contents errors.old errors.new
        × (clients.new ≡ clients.old)) result.0 }
{
    match open_lists(rt, file, start) {
        Ok(store) => {
            let mut store = store;
            let status = serve_store(
                rt.alloc(),
                clients,
                port,
                connections,
                output,
                errors,
                &mut store,
            );
            (status, LineLeft::Lists(store))
        }
        Err((fault, left)) => (tell_fault(rt.alloc(), &fault, errors), left),
    }
}

/// The same by a store of both lists.
fn serve_store<S: Alter, D: KeepsRows + Drop, C: Clients, W: Write, E: Write>(
    alloc: Global,
    clients: &mut C,
    port: u16,
    connections: u32,
    output: &mut Wire<W>,
    errors: &mut Wire<E>,
    store: &mut BookStore<S, D>,
) -> u8
    requires some { 1 ≤ connections }
    requires few { HaveFewFailures output.old errors.old }
    requires serves { Serves S.Store D.Stands store.old }
    ensures ends { ServingEnds W.contents E.contents output.old output.new errors.old errors.new
        connections (ServesAt C.Saw clients.old clients.new port)
        (λ es. ForStates (Represents S.Store D.Stands)
        (λ kept. HasCleanDisk (book_state S.Store kept)) store.old store.new
        (AnswersInTurn line_rule es)) ⊥ result }
{
    let mut routes = None;
    let mut handler = LineHandler {
        store,
        routes: &mut routes,
    };
    let status = serve_handler(
        alloc,
        clients,
        port,
        connections,
        output,
        errors,
        &mut handler,
    );
    let LineHandler {
        store: _,
        routes: _,
    } = handler;
    status
}

/// The same by the handler of a store that is lent.
fn serve_handler<S: Alter, D: KeepsRows + Drop, C: Clients, W: Write, E: Write>(
    alloc: Global,
    clients: &mut C,
    port: u16,
    connections: u32,
    output: &mut Wire<W>,
    errors: &mut Wire<E>,
    handler: &mut LineHandler<'_, S, D>,
) -> u8
    requires some { 1 ≤ connections }
    requires few { HaveFewFailures output.old errors.old }
    requires serves { Serves S.Store D.Stands handler.old.store.now }
    ensures stays { StaysLent (λ lent. Serves S.Store D.Stands lent.store.now)
        (λ lent. HasCleanDisk (book_state S.Store lent.store.now))
        (λ lent. lent.store.ghost_name) handler.old handler.new }
    ensures ends { ServingEnds W.contents E.contents output.old output.new errors.old errors.new
        connections (ServesAt C.Saw clients.old clients.new port)
        (λ es. ForStates (λ lent line. Represents S.Store D.Stands lent.store.now line)
        (λ lent. HasCleanDisk (book_state S.Store lent.store.now)) handler.old handler.new
        (AnswersInTurn line_rule es)) ⊥ result }
{
    serve_port(alloc, clients, port, connections, output, errors, handler)
}
