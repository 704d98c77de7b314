//! Both lists over files in memory.

mod stopping;

use super::{close, new_files};
use desk_answers::{Answer, Owner};
use desk_types::{Command, Id, Minute, Stamped};
use feeder_state::StateDesk;
use line_book::{BookRow, Note, Reading};
use line_book_store::BookFault;
use line_schema::{LineStore, Unavailable, Verdict};
use sqlite::{Alter, Connection};
use std::alloc::{AllocError, Global};
use std::process::Abort;
use std::test::Fail;

fn message(alloc: Global, number: u32, text: &str) -> Option<Stamped> {
    let uid = format!(in alloc; "u{number}").ok()?;
    Some(Stamped {
        uid: Id::read(uid.as_bytes())?,
        source: Id::read(b"S")?,
        minute: Minute::new(0)?,
        command: Command::read_text(alloc, text.as_bytes()).ok()??,
    })
}

/// An entry that holds a reel.
fn hold(alloc: Global, number: u32, after: u32, reel: &str) -> Result<BookRow, AllocError> {
    Ok(BookRow {
        number,
        after,
        kind: format!(in alloc; "hold")?,
        source: format!(in alloc; "S")?,
        uid: String::new(alloc),
        machine: String::new(alloc),
        slot: String::new(alloc),
        board: String::new(alloc),
        reel: format!(in alloc; "{reel}")?,
        word: String::new(alloc),
        of: 0,
        told: format!(in alloc; "held")?,
    })
}

/// Writes an entry, and returns whether it was committed.
fn noted<S: Alter>(store: &mut LineStore<S, StateDesk>, entry: &BookRow) -> bool
    requires { ⟦<LineStore<S, StateDesk> as Owner>⟧.Ready store.old }
    ensures { ⟦<LineStore<S, StateDesk> as Owner>⟧.Ready store.new }
{
    store.note(entry).is_ok()
}

/// Judges a command and, if it would be accepted, commits it with the entries.
fn send<S: Alter>(
    store: &mut LineStore<S, StateDesk>,
    stamped: &Stamped,
    entries: &[BookRow],
) -> Option<Answer>
    requires { ⟦<LineStore<S, StateDesk> as Owner>⟧.Ready store.old }
    ensures { ⟦<LineStore<S, StateDesk> as Owner>⟧.Ready store.new }
{
    match store.judge(stamped) {
        Ok(Verdict::Answered(answer)) => Some(answer),
        Ok(Verdict::Accepts(change)) => store.commit_with_entries(change, entries).ok(),
        Err(_) => None,
    }
}

/// What was written to both lists.
#[derive(Drop)]
struct Written {
    noted: bool,
    accepted: Option<Answer>,
    refused: Option<Answer>,
}

/// Writes an entry, and a command with another entry, and has a command refused.
fn write_both<S: Alter>(
    alloc: Global,
    store: &mut LineStore<S, StateDesk>,
    part: &Stamped,
    start: &Stamped,
) -> Result<Written, AllocError>
    requires { ⟦<LineStore<S, StateDesk> as Owner>⟧.Ready store.old }
{
    let noted = noted(store, &hold(alloc, 1, 0, "K1")?);
    let accepted = send(store, part, &[hold(alloc, 2, 0, "K2")?]);
    let refused = send(store, start, &[]);
    Ok(Written {
        noted,
        accepted,
        refused,
    })
}

/// What a store says of its two lists.
#[derive(Drop)]
struct Read {
    has: Result<bool, BookFault>,
    checked: Result<u32, BookFault>,
    whole: Result<bool, BookFault>,
    next: Result<Option<Note>, BookFault>,
    window: Result<Vec<BookRow>, Unavailable>,
    command: Result<Option<Stamped>, Unavailable>,
}

fn read_both<S: Alter>(store: &mut LineStore<S, StateDesk>) -> Read {
    Read {
        has: store.has_book(),
        checked: store.check_book(),
        whole: store.is_whole(2),
        next: store.next_note(&mut Reading::new(1)),
        window: store.entries_after(1, 5),
        command: store.command_at(1),
    }
}

fn is_right(rt: &impl Abort, written: Written, read: Read, part: &Stamped) -> Result<(), Fail> {
    let Written {
        noted,
        accepted,
        refused,
    } = written;
    let Read {
        has,
        checked,
        whole,
        next,
        window,
        command,
    } = read;
    assert!(rt; noted);
    assert!(rt; matches!(accepted, Some(Answer::Accepted(1, _))));
    assert!(rt; matches!(refused, Some(Answer::Refused(_))));
    assert!(rt; has == Ok(true) && checked == Ok(2) && whole == Ok(true));
    let Ok(Some(first)) = next else {
        return Err(Fail::from("no entry"));
    };
    assert!(rt; first.number == 1 && first.after == 0);
    let Ok(window) = window else {
        return Err(Fail::from("no window"));
    };
    assert!(rt; window.len() == 1 && window[0].reel.as_str() == "K2");
    let Ok(Some(command)) = command else {
        return Err(Fail::from("no command"));
    };
    assert!(rt; command == *part);
    Ok(())
}

/// What came of a file: what was written, and what a store says that opened it again.
type Came = Result<(Written, Read), AllocError>;

fn used<S: Alter>(
    alloc: Global,
    store: LineStore<S, StateDesk>,
    part: &Stamped,
    start: &Stamped,
) -> (Came, Connection<S>)
    requires { ⟦<LineStore<S, StateDesk> as Owner>⟧.Ready store }
{
    let mut store = store;
    let written = write_both(alloc, &mut store, part, start);
    let conn = store.into_connection();
    match LineStore::<S, StateDesk>::open(alloc, conn) {
        Ok(again) => {
            let mut again = again;
            let read = read_both(&mut again);
            let came = match written {
                Ok(written) => Ok((written, read)),
                Err(refused) => Err(refused),
            };
            (came, again.into_connection())
        }
        Err((_fault, conn)) => (Err(AllocError), conn),
    }
}

fn made_together<S: Alter>(
    alloc: Global,
    conn: Connection<S>,
    part: &Stamped,
    start: &Stamped,
) -> (Came, Connection<S>) {
    match LineStore::create_with_book(alloc, conn, 1_000) {
        Ok(store) => used(alloc, store, part, start),
        Err((_fault, conn)) => (Err(AllocError), conn),
    }
}

/// Both lists of a new file, read again by another store.
#[test]
fn a_store_is_made_with_its_book(rt: HostRuntime) -> Result<(), Fail> {
    let part = message(rt.alloc(), 1, "PartDefined\tP").ok_or("no message")?;
    let start = message(rt.alloc(), 2, "WorkStarted\tM\tB").ok_or("no message")?;
    let conn = new_files(rt.alloc())?;
    let (came, conn) = made_together(rt.alloc(), conn, &part, &start);
    close(conn);
    let (written, read) = came?;
    is_right(&rt, written, read, &part)
}

fn lacks_book<S: Alter>(store: &LineStore<S, StateDesk>) -> bool {
    store.has_book() == Ok(false)
}

/// Adds the book to a store, and returns whether it was committed.
fn added<S: Alter>(store: &mut LineStore<S, StateDesk>) -> bool
    requires { ⟦<LineStore<S, StateDesk> as Owner>⟧.Ready store.old }
    ensures { ⟦<LineStore<S, StateDesk> as Owner>⟧.Ready store.new }
{
    store.add_book().is_ok()
}

fn made_later<S: Alter>(
    alloc: Global,
    conn: Connection<S>,
    part: &Stamped,
    start: &Stamped,
) -> (bool, Came, Connection<S>) {
    match LineStore::create(alloc, conn, 1_000) {
        Ok(store) => {
            let mut store = store;
            let lacked = lacks_book(&store);
            let added = added(&mut store);
            let (came, conn) = used(alloc, store, part, start);
            (lacked && added, came, conn)
        }
        Err((_fault, conn)) => (false, Err(AllocError), conn),
    }
}

/// Those of a file that gets its book later.
#[test]
fn a_store_gets_its_book_later(rt: HostRuntime) -> Result<(), Fail> {
    let part = message(rt.alloc(), 1, "PartDefined\tP").ok_or("no message")?;
    let start = message(rt.alloc(), 2, "WorkStarted\tM\tB").ok_or("no message")?;
    let conn = new_files(rt.alloc())?;
    let (added, came, conn) = made_later(rt.alloc(), conn, &part, &start);
    close(conn);
    assert!(rt; added);
    let (written, read) = came?;
    is_right(&rt, written, read, &part)
}
