//! Both lists in the file at a path, to be served.

ghost use Rattle.std.specs.Prelude.{IfErr, IfOk};
ghost use Rattle.sqlite.specs.Files.{over_files};
ghost use Rattle.sqlite_wal.specs.Files.{image_at};
ghost use Rattle.book_store.specs.Lists.{Serves};
ghost use Rattle.feeder_state.specs.contracts.desk.StateDeskDesk.TheImpl.{ghosts as state};
ghost use Rattle.line_commands.specs.Serving.{FindsDesk, FindsLists, HasListFault, IsOpenedIn, IsRefusedIn, RefusesDesk};

use crate::left::LineLeft;
use book_store::BookStore;
use desk_file::{connect_to, is_empty_at, open_at};
use desk_types::MOST_ENTRIES;
use feeder_state::StateDesk;
use line_file::ListFault;
use line_schema::{LineStore, OpenFault};
use sqlite::{Connection, FileFrom, FileStore, Start};
use sqlite_disk::Disk;
use std::alloc::Global;

const UNAVAILABLE: ListFault = ListFault::History(OpenFault::Unavailable);

/// Opens both lists of the file at a path. If the file is missing or empty, an empty history and an empty book are made,
/// in one transaction. A file without a book gets an empty one. `T` is the contents of the file when it is opened.
pub fn open_lists<T: Start>(
    rt: &HostRuntime,
    path: &str,
    start: T,
) -> Result<BookStore<FileStore<FileFrom<T>>, StateDesk>, (ListFault, LineLeft<FileFrom<T>>)>
    ensures opened { IfOk result (IsOpenedIn (image_at T.Start)) }
    ensures serves { IfOk result (Serves over_files state.Stands) }
    ensures refused { IfErr result (λ r. IsRefusedIn (image_at T.Start) r.0 r.1) }
{
    let Ok(empty) = is_empty_at(rt, path) else {
        return Err((UNAVAILABLE, LineLeft::Nothing));
    };
    let Ok(files) = open_at(rt, path, start) else {
        return Err((UNAVAILABLE, LineLeft::Nothing));
    };
    match connect_to(rt, files) {
        Ok(conn) => lists_of(rt.alloc(), conn, empty),
        Err(files) => Err((UNAVAILABLE, LineLeft::Unread(files))),
    }
}

/// Opens both lists in the database of a connection, or makes them.
fn lists_of<F: Disk + Drop>(
    alloc: Global,
    conn: Connection<FileStore<F>>,
    empty: bool,
) -> Result<BookStore<FileStore<F>, StateDesk>, (ListFault, LineLeft<F>)>
    ensures found { IfOk result (FindsLists conn) }
    ensures serves { IfOk result (Serves over_files state.Stands) }
    ensures refused { IfErr result (λ r. HasListFault conn r.0 r.1) }
{
    match desk_of(alloc, conn, empty) {
        Ok(desk) => match BookStore::open(alloc, desk) {
            Ok(store) => Ok(store),
            Err((fault, desk)) => Err((
                ListFault::Book(fault),
                LineLeft::Refused(desk.into_connection()),
            )),
        },
        Err((fault, conn)) => Err((ListFault::History(fault), LineLeft::Refused(conn))),
    }
}

/// Opens the desk in the database of a connection. In an empty file, a desk and a book are made.
fn desk_of<F: Disk + Drop>(
    alloc: Global,
    conn: Connection<FileStore<F>>,
    empty: bool,
) -> Result<LineStore<FileStore<F>, StateDesk>, (OpenFault, Connection<FileStore<F>>)>
    ensures found { IfOk result (FindsDesk conn) }
    ensures refused { IfErr result (λ e. RefusesDesk conn e.0 e.1) }
{
    if empty {
        LineStore::create_with_book(alloc, conn, MOST_ENTRIES as u32)
    } else {
        LineStore::open(alloc, conn)
    }
}
