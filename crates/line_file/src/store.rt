//! Both lists of a store, which is given back as its connection.

ghost use Rattle.std.specs.Prelude.{◌≡◌, IfErr, IfOk};
ghost use Rattle.sqlite.specs.Held.{state};
ghost use Rattle.desk_types.specs.Desk.{HasRoom};
ghost use Rattle.line_schema.specs.Stands.{Kept, Stands, conn_of, state_of};
ghost use Rattle.line_tables.specs.Frames.{ReadsOnly};
ghost use Rattle.line_file.specs.Lines.{IsLineOf, IsListFault, ReadsFault, ReadsLine, line_of};
ghost use Rattle.line_file.specs.Lists.{IsSound};

use crate::fault::{ListFault, UNAVAILABLE};
use crate::lists::{Found, read_lists};
use book_store::Restored;
use line_book::BookRow;
use line_book_store::BookFault;
use line_schema::LineStore;
use line_traces::Working;
use sqlite::{Alter, Connection};
use state_rows::KeepsRows;
use std::alloc::Global;

/// Both lists of a line, as their file had them: the desk of the history, and the guard of both.
#[derive(Drop)]
pub struct Line<D> {
    pub desk: D,
    pub lists: Restored,
    /// The rows of the book if they were asked for, else none.
    pub rows: Vec<BookRow>,
    /// The number of accepted commands.
    pub commands: u32,
}

/// Opens the lists in the database of a connection, judges each command again and checks each entry. Nothing changes.
pub fn read_connection<S: Alter, D: KeepsRows + Drop>(
    alloc: Global,
    conn: Connection<S>,
    with_rows: bool,
) -> (Result<Line<D>, ListFault>, Connection<S>)
    ensures ok { IfOk result.0
        (ReadsLine D.Stands with_rows (IsSound (state S.Store result.1)) (state S.Store conn)) }
    ensures err { IsSound (state S.Store result.1)
        → IfErr result.0 (ReadsFault (state S.Store conn)) }
    ensures room { IfOk result.0 (λ line. HasRoom D.Stands line.desk 0) }
    ensures reads { ReadsOnly S.Store conn result.1 }
{
    match LineStore::open(alloc, conn) {
        Ok(store) => read_store(alloc, store, with_rows),
        Err((fault, conn)) => (Err(ListFault::History(fault)), conn),
    }
}

fn read_store<S: Alter, D: KeepsRows + Drop>(
    alloc: Global,
    store: LineStore<S, D>,
    with_rows: bool,
) -> (Result<Line<D>, ListFault>, Connection<S>)
    ensures ok { (L : Kept) → Stands S.Store D.Stands store L → IfOk result.0
        (IsLineOf D.Stands L with_rows (IsSound (state S.Store result.1))
        (state_of S.Store store)) }
    ensures err { (L : Kept) → Stands S.Store D.Stands store L
        → IsSound (state S.Store result.1)
        → IfErr result.0 (IsListFault L (state_of S.Store store)) }
    ensures room { (L : Kept) → Stands S.Store D.Stands store L
        → IfOk result.0 (λ line. HasRoom D.Stands line.desk 0) }
    ensures reads { ReadsOnly S.Store (conn_of store) result.1 }
{
    let mut store = store;
    let commands = store.count();
    let lists = read_lists(alloc, &mut store, with_rows);
    let (conn, working) = store.into_parts();
    (line_of(commands, lists, working), conn)
}

fn line_of<D: KeepsRows + Drop>(
    commands: u32,
    found: Result<Found, BookFault>,
    working: Option<Working<D>>,
) -> Result<Line<D>, ListFault>
    ensures { result ≡ line_of commands found working }
{
    let Found { lists, rows } = match found {
        Ok(found) => found,
        Err(fault) => return Err(ListFault::Book(fault)),
    };
    match working {
        Some(
            Working {
                desk,
                lists: _traces,
            },
        ) => Ok(Line {
            desk,
            lists,
            rows,
            commands,
        }),
        None => Err(UNAVAILABLE),
    }
}
