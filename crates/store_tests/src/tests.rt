//! A store over files in memory: each allocation refused in turn by `dev/faults/run memory`, the boards of a lot, a disk
//! that stops, and the book.
//!
//! No test drops a connection or a store: it takes the connection back and closes its files. A drop would prove again
//! how each of their parts is dropped. What is done over a connection is generic in its store, and what came of it is
//! asserted once it is closed: the proof of an assertion beside a connection of these files takes a minute.

mod book_stores;
mod books;
mod both_lists;
mod sending;
mod stopping;

use desk_types::{Id, IdList};
use feeder_state::StateDesk;
use line_schema::LineStore;
use sending::{BOARDS, FIRST_RUN, Sent, Told, send_over, viewed};
use sqlite::{Alter, Connection, Error, FileStore, Options};
use sqlite_disk::{Fuse, Memory};
use std::alloc::{AllocError, Global};
use std::process::Abort;
use std::test::Fail;
use stopping::files;

/// Turns tables of version 2 into those of version 1.
const VERSION_ONE: &str = "BEGIN; DROP TABLE found; UPDATE version SET number = 1; COMMIT";

/// Returns the version of the tables, which are migrated if it is 1, or `None` if that fails.
fn migrated<S: Alter>(alloc: Global, conn: &mut Connection<S>) -> Option<i64> {
    let version = conn.query_row("SELECT number FROM version", &[]);
    let version: i64 = version.ok()?.get(0).ok()?;
    if version == 1 {
        LineStore::<S, StateDesk>::migrate(alloc, conn).ok()?;
    }
    Some(version)
}

/// A connection to new files.
fn new_files(alloc: Global) -> Result<Connection<FileStore<Fuse<Memory>>>, AllocError> {
    match Connection::open_files(alloc, files(alloc, u64::MAX, u64::MAX), Options::new(1)) {
        Ok(conn) => Ok(conn),
        Err((_error, left)) => {
            let _ = left.into_files();
            Err(AllocError)
        }
    }
}

fn close(conn: Connection<FileStore<Fuse<Memory>>>) {
    match conn.close_files() {
        Ok(_files) => {}
        Err((_error, store)) => {
            let _ = store.close();
        }
    }
}

/// What came of the commands of `first_run`, sent twice over a connection, with a migration between.
struct Twice {
    created: Option<u32>,
    told: Result<Told, AllocError>,
    made: Result<(), Error>,
    began: Option<u32>,
    again: Result<Told, AllocError>,
}

fn sent_twice<S: Alter>(
    rt: &impl Abort,
    alloc: Global,
    conn: Connection<S>,
) -> (Twice, Connection<S>) {
    let Sent {
        began: created,
        told,
        mut conn,
    } = send_over(rt, alloc, conn, FIRST_RUN);
    let made = conn.execute_batch(VERSION_ONE);
    let _ = migrated(alloc, &mut conn);
    let _ = migrated(alloc, &mut conn);
    let Sent {
        began,
        told: again,
        conn,
    } = send_over(rt, alloc, conn, FIRST_RUN);
    let twice = Twice {
        created,
        told,
        made,
        began,
        again,
    };
    (twice, conn)
}

/// Returns whether the desk was made again.
fn is_made_good(rt: &impl Abort, twice: Twice) -> Result<bool, Fail> {
    let Twice {
        created,
        told,
        made,
        began,
        again,
    } = twice;
    let (told, again) = (told?, again?);
    let (_, began) = (created.ok_or(AllocError)?, began.ok_or(AllocError)?);
    made?;
    assert!(rt; told.unavailable.saturating_add(again.unavailable) <= 1);
    assert_eq!(rt; (told.count, began), (6, 6));
    assert!(rt; told.text == again.text);
    Ok(told.made_again > 0)
}

/// For each refused allocation, in the fifth command's settling or later, at most one command is Unavailable, and each
/// has one final answer. If memory was refused in settling, the next command rebuilds the desk, and the test prints
/// that. A migration that meets it leaves complete tables of version 1, so the next one succeeds. The returned
/// connection opens with all accepted commands.
#[test]
fn refused_memory_is_made_good(rt: HostRuntime) -> Result<(), Fail> {
    let conn = new_files(rt.alloc())?;
    let (twice, conn) = sent_twice(&rt, rt.alloc(), conn);
    close(conn);
    if is_made_good(&rt, twice)? {
        eprintln!(rt; "the desk was made again")?;
    }
    Ok(())
}

/// What a store over a connection shows of a lot: its boards, or `None` if it cannot be opened or asked; and whether
/// its desk can be borrowed.
struct Lot<S: Alter> {
    boards: Option<Option<IdList>>,
    is_viewed: bool,
    conn: Connection<S>,
}

fn lot_over<S: Alter>(alloc: Global, conn: Connection<S>, lot: &Id) -> Lot<S> {
    match LineStore::<S, StateDesk>::open(alloc, conn) {
        Ok(mut store) => {
            let boards = store.lot_boards(lot).ok();
            Lot {
                boards,
                is_viewed: viewed(&mut store).is_some(),
                conn: store.into_connection(),
            }
        }
        Err((_fault, conn)) => Lot {
            boards: None,
            is_viewed: false,
            conn,
        },
    }
}

/// The boards of a lot by the trace indexes, and by a query once rows have moved, and those of a lot without pieces.
struct Boards {
    told: Result<Told, AllocError>,
    moved: Result<(), Error>,
    is_viewed: bool,
    by_lists: Option<Option<IdList>>,
    by_query: Option<Option<IdList>>,
    of_none: Option<Option<IdList>>,
}

fn boards_over<S: Alter>(
    rt: &impl Abort,
    alloc: Global,
    conn: Connection<S>,
    lot: &Id,
    other: &Id,
) -> (Boards, Connection<S>) {
    let Sent {
        began: _,
        told,
        conn,
    } = send_over(rt, alloc, conn, BOARDS);
    let Lot {
        boards: by_lists,
        is_viewed,
        mut conn,
    } = lot_over(alloc, conn, lot);
    let moved = conn.execute_batch("UPDATE placement SET rowid = -rowid");
    let Lot {
        boards: by_query,
        is_viewed: _,
        conn,
    } = lot_over(alloc, conn, lot);
    let Lot {
        boards: of_none,
        is_viewed: _,
        conn,
    } = lot_over(alloc, conn, other);
    let boards = Boards {
        told,
        moved,
        is_viewed,
        by_lists,
        by_query,
        of_none,
    };
    (boards, conn)
}

fn are_complete(rt: &impl Abort, boards: Boards) -> Result<(), Fail> {
    let Boards {
        told,
        moved,
        is_viewed,
        by_lists,
        by_query,
        of_none,
    } = boards;
    let first = Id::read(b"B10").ok_or("no board")?;
    let second = Id::read(b"B9").ok_or("no board")?;
    moved?;
    assert_eq!(rt; told?.count, 11);
    assert!(rt; is_viewed);
    assert!(rt; matches!(of_none, Some(None)));
    for boards in [by_lists, by_query] {
        let Some(Some(boards)) = boards else {
            return Err(Fail::from("no boards"));
        };
        assert!(rt; boards.as_slice() == [first, second].as_slice());
    }
    Ok(())
}

/// The boards of a lot are returned once each and in byte order, and none for an unknown lot. No report calls this; it
/// serves callers that want only the names. If rows are not at the places in the trace indexes, a query finds them.
#[test]
fn boards_of_a_lot(rt: HostRuntime) -> Result<(), Fail> {
    let lot = Id::read(b"L1").ok_or("no lot")?;
    let other = Id::read(b"L2").ok_or("no lot")?;
    let conn = new_files(rt.alloc())?;
    let (boards, conn) = boards_over(&rt, rt.alloc(), conn, &lot, &other);
    close(conn);
    are_complete(&rt, boards)
}
