//! A disk that stops while both lists are written. Then the power is lost, or the program is killed.

ghost use Rattle.std.specs.Prelude.{IfOk, IsTrue};

use super::{Read, hold, message, noted, read_both, send};
use crate::tests::stopping::files;
use desk_answers::{Answer, Owner};
use desk_types::Stamped;
use feeder_state::StateDesk;
use line_book::{BookRow, Note};
use line_book_store::BookFault;
use line_schema::{LineStore, OpenFault};
use sqlite::{Alter, Connection, Files, Options};
use sqlite_disk::{Crash, Disk, Fuse, Memory};
use std::alloc::Global;
use std::process::Abort;
use std::test::Fail;

/// What is written: an entry alone, and then a command with its entry.
#[derive(Drop)]
struct Writing {
    alone: BookRow,
    part: Stamped,
    with: BookRow,
}

fn to_write(alloc: Global) -> Result<Writing, Fail> {
    Ok(Writing {
        alone: hold(alloc, 1, 0, "K1")?,
        part: message(alloc, 1, "PartDefined\tP").ok_or("no message")?,
        with: hold(alloc, 2, 0, "K2")?,
    })
}

/// What a session found in its file, and how many of the three steps it then made: the file, the entry, and the
/// command with its entry.
#[derive(Drop)]
struct Session {
    found: Result<Read, OpenFault>,
    steps: u32,
}

fn found_over<S: Alter>(
    alloc: Global,
    conn: Connection<S>,
) -> (Result<Read, OpenFault>, Connection<S>) {
    match LineStore::<S, StateDesk>::open(alloc, conn) {
        Ok(store) => {
            let mut store = store;
            let read = read_both(&mut store);
            (Ok(read), store.into_connection())
        }
        Err((fault, conn)) => (Err(fault), conn),
    }
}

/// Writes to a file that was made, until a step fails.
fn steps_of<S: Alter>(store: &mut LineStore<S, StateDesk>, writing: &Writing) -> u32
    requires { ⟦<LineStore<S, StateDesk> as Owner>⟧.Ready store.old }
{
    if !noted(store, &writing.alone) {
        return 1;
    }
    match send(store, &writing.part, std::slice::from_ref(&writing.with)) {
        Some(Answer::Accepted(1, _)) => 3,
        _ => 2,
    }
}

fn session_over<S: Alter>(
    alloc: Global,
    conn: Connection<S>,
    writing: &Writing,
) -> (Session, Connection<S>) {
    let (found, conn) = found_over(alloc, conn);
    match LineStore::create_with_book(alloc, conn, 1_000) {
        Ok(store) => {
            let mut store = store;
            let steps = steps_of(&mut store, writing);
            (Session { found, steps }, store.into_connection())
        }
        Err((_fault, conn)) => (Session { found, steps: 0 }, conn),
    }
}

/// The same over files, which are closed again. Returns them too, and whether they were closed whole.
fn work<D: Disk + Drop>(
    alloc: Global,
    files: Files<D>,
    writing: &Writing,
) -> (Session, Files<D>, bool)
    requires log { IsTrue (D.Disk.is_usable files.log) }
    requires db { IsTrue (D.Disk.is_usable files.db) }
{
    match Connection::open_files(alloc, files, Options::new(1)) {
        Ok(conn) => {
            let (session, conn) = session_over(alloc, conn, writing);
            match conn.close_files() {
                Ok(files) => (session, files, true),
                Err((_error, store)) => (session, store.close(), false),
            }
        }
        Err((_error, left)) => {
            let found = Err(OpenFault::Unavailable);
            (Session { found, steps: 0 }, left.into_files(), false)
        }
    }
}

/// Returns the file after a kill, which leaves all that was written, or after a loss of power, which leaves what was
/// synced.
fn left(alloc: Global, file: Fuse<Memory>, is_kill: bool) -> Result<Fuse<Memory>, Fail>
    ensures { IfOk result (λ left. IsTrue (⟦<Fuse<Memory> as Disk>⟧.is_usable left)) }
{
    let mut file = file;
    if is_kill {
        let mut memory = Memory::new(alloc);
        let written = memory.write_at(0, file.inner().bytes());
        written.ok().ok_or("not written")?;
        return Ok(Fuse::new(memory, u64::MAX));
    }
    file.crash();
    Ok(file)
}

fn is_first(next: &Result<Option<Note>, BookFault>) -> bool {
    match next {
        Ok(Some(note)) => note.number == 1 && note.after == 0,
        _ => false,
    }
}

/// Returns how many steps both lists show, or `None` if they show anything else.
fn steps_in(found: Result<Read, OpenFault>, writing: &Writing) -> Option<u32> {
    let read = match found {
        Ok(read) => read,
        Err(OpenFault::NotADesk) => return Some(0),
        Err(_) => return None,
    };
    let Read {
        has,
        checked,
        whole: _,
        next,
        window: _,
        command,
    } = read;
    let is_noted = is_first(&next);
    let commands = match &command {
        Ok(None) => 0,
        Ok(Some(command)) if *command == writing.part => 1,
        _ => 2,
    };
    match (has, checked, commands) {
        (Ok(true), Ok(0), 0) => Some(1),
        (Ok(true), Ok(1), 0) if is_noted => Some(2),
        (Ok(true), Ok(2), 1) if is_noted => Some(3),
        _ => None,
    }
}

/// Works on new files that stop after these numbers of calls. What is left then shows the steps that were made, and
/// at most the next one. Returns whether no call failed.
fn stop_after(
    rt: &impl Abort,
    alloc: Global,
    (log, db): (u64, u64),
    is_kill: bool,
) -> Result<bool, Fail> {
    let writing = to_write(alloc)?;
    let (first, files, is_whole) = work(alloc, files(alloc, log, db), &writing);
    let Files { log, db } = files;
    let (log, db) = (left(alloc, log, is_kill)?, left(alloc, db, is_kill)?);
    let (second, _files, _) = work(alloc, Files { log, db }, &writing);
    let Session { found, steps: _ } = second;
    let found = steps_in(found, &writing).ok_or("neither as before nor as after")?;
    assert!(rt; found >= first.steps && found <= first.steps.saturating_add(1));
    Ok(is_whole && first.steps == 3)
}

/// Stops the log or the database after each number of calls until none fails. Returns how often that was.
fn stop_at_each(rt: &impl Abort, alloc: Global, is_log: bool, is_kill: bool) -> Result<u64, Fail> {
    for calls in 0..1_000u64 {
        let fuses = if is_log {
            (calls, u64::MAX)
        } else {
            (u64::MAX, calls)
        };
        if stop_after(rt, alloc, fuses, is_kill)? {
            return Ok(calls);
        }
    }
    Err(Fail::from("it never ended"))
}

/// For each last call of a disk, both lists are as before the step in progress or as after it.
#[test]
fn both_lists_on_a_disk_that_stops(rt: HostRuntime) -> Result<(), Fail> {
    for is_kill in [false, true] {
        let log = stop_at_each(&rt, rt.alloc(), true, is_kill)?;
        let db = stop_at_each(&rt, rt.alloc(), false, is_kill)?;
        assert!(rt; log > 0 && db > 0);
        println!(rt; "stopped {log} and {db} times")?;
    }
    Ok(())
}
