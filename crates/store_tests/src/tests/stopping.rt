//! A disk that stops: the log or the database accepts a number of calls, and fails all later ones. After a crash its
//! files are opened again.

ghost use Rattle.std.specs.Prelude.{IsTrue};

use super::sending::{FIRST_RUN, MOVED, SPLICE, Sent, Told, send_over};
use super::{VERSION_ONE, migrated};
use sqlite::{Alter, Connection, Files, Options};
use sqlite_disk::{Crash, Disk, Fuse, Memory};
use std::alloc::{AllocError, Global};
use std::process::Abort;
use std::test::Fail;

/// New files whose log and whose database stop after these numbers of calls.
pub fn files(alloc: Global, log: u64, db: u64) -> Files<Fuse<Memory>>
    ensures log { IsTrue (⟦<Fuse<Memory> as Disk>⟧.is_usable result.log) }
    ensures db { IsTrue (⟦<Fuse<Memory> as Disk>⟧.is_usable result.db) }
{
    Files {
        log: Fuse::new(Memory::new(alloc), log),
        db: Fuse::new(Memory::new(alloc), db),
    }
}

/// What came of commands that were sent over a connection: the version of the tables and their number of commands
/// before, if there were tables; the answers; and whether a migration was reported.
#[derive(Drop)]
pub struct Session {
    version: Option<i64>,
    began: Option<u32>,
    told: Result<Told, AllocError>,
    is_migrated: bool,
}

/// Sends commands to the desk behind a connection, whose tables are migrated first if they are of version 1. With
/// `migrates` they are then turned into version 1, and migrated.
fn session_over<S: Alter>(
    rt: &impl Abort,
    alloc: Global,
    conn: Connection<S>,
    row: &str,
    migrates: bool,
) -> (Session, Connection<S>) {
    let mut conn = conn;
    let version = migrated(alloc, &mut conn);
    let Sent {
        began,
        told,
        mut conn,
    } = send_over(rt, alloc, conn, row);
    let is_migrated = migrates
        && conn.execute_batch(VERSION_ONE).is_ok()
        && migrated(alloc, &mut conn) == Some(1);
    let session = Session {
        version,
        began,
        told,
        is_migrated,
    };
    (session, conn)
}

/// The same over files, which are closed again. Returns them too, and whether they were closed whole.
pub fn work<D: Disk + Drop>(
    rt: &impl Abort,
    alloc: Global,
    files: Files<D>,
    seed: u64,
    row: &str,
    migrates: bool,
) -> (Session, Files<D>, bool)
    requires log { IsTrue (D.Disk.is_usable files.log) }
    requires db { IsTrue (D.Disk.is_usable files.db) }
{
    match Connection::open_files(alloc, files, Options::new(seed)) {
        Ok(conn) => {
            let (session, conn) = session_over(rt, alloc, conn, row, migrates);
            match conn.close_files() {
                Ok(files) => (session, files, true),
                Err((_error, store)) => (session, store.close(), false),
            }
        }
        Err((_error, left)) => {
            let session = Session {
                version: None,
                began: None,
                told: Ok(Told::new(alloc)),
                is_migrated: false,
            };
            (session, left.into_files(), false)
        }
    }
}

/// Sends commands to new files that stop after these numbers of calls, and again after a crash, which loses unsynced
/// data. The history then has each answered command, and at most one more; each has its first answer. A reported
/// migration remains. Returns all answers, and whether no call failed.
fn stop_after(
    rt: &impl Abort,
    alloc: Global,
    (log, db): (u64, u64),
    row: &str,
) -> Result<(Told, bool), Fail> {
    let (first, files, is_whole) = work(rt, alloc, files(alloc, log, db), 1, row, true);
    let Files { mut log, mut db } = files;
    log.crash();
    db.crash();
    let (second, _files, _) = work(rt, alloc, Files { log, db }, 2, row, false);
    let Session {
        version: _,
        began: _,
        told,
        is_migrated,
    } = first;
    let Session {
        version,
        began,
        told: again,
        is_migrated: _,
    } = second;
    let (told, again) = (told?, again?);
    let more = began.unwrap_or(u32::MAX).saturating_sub(told.count);
    assert!(rt; began >= Some(told.count) && more <= 1);
    assert!(rt; version == Some(2) || !is_migrated);
    assert!(rt; again.unavailable == 0 && again.text.starts_with(&told.text));
    let is_whole = is_whole && is_migrated && told.unavailable == 0;
    Ok((again, is_whole))
}

/// Stops the log, and then the database, after each number of calls until none fails. All answers are the same each
/// time. Returns how often that was.
fn stop_at_each(rt: &impl Abort, alloc: Global, row: &str) -> Result<u64, Fail> {
    let (wanted, _) = stop_after(rt, alloc, (u64::MAX, u64::MAX), row)?;
    let (mut points, mut ends) = (0u64, 0u32);
    for is_log in [true, false] {
        for calls in 0..10_000u64 {
            let fuses = if is_log {
                (calls, u64::MAX)
            } else {
                (u64::MAX, calls)
            };
            let (told, is_whole) = stop_after(rt, alloc, fuses, row)?;
            assert!(rt; told.text == wanted.text, "after {calls} calls");
            if is_whole {
                points = points.saturating_add(calls);
                ends = ends.saturating_add(1);
                break;
            }
        }
    }
    assert_eq!(rt; ends, 2);
    Ok(points)
}

/// For each last call of a disk, every answered command is present after the crash, with at most the current one in
/// addition. Sent again, each acts once. The migration leaves complete tables of version 1 or of version 2.
#[test]
fn a_disk_that_stops(rt: HostRuntime) -> Result<(), Fail> {
    for row in [FIRST_RUN, SPLICE, MOVED] {
        let points = stop_at_each(&rt, rt.alloc(), row)?;
        println!(rt; "stopped {points} times")?;
    }
    Ok(())
}
