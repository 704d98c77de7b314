//! Books over files in memory.

use super::{close, new_files};
use line_book::BookRow;
use line_book_store::{
    BookFault, append_entry, append_with_entries, check_book, entries_after, entry_at, has_book,
    make_book, make_with_book,
};
use line_tables::{Accepted, make};
use sqlite::{Alter, Connection, Error};
use std::alloc::{AllocError, Global};
use std::process::Abort;
use std::test::Fail;

/// An entry of the kind, about another or none.
fn entry(
    alloc: Global,
    (number, after, of): (u32, u32, u32),
    kind: &str,
    reel: &str,
) -> Result<BookRow, AllocError> {
    Ok(BookRow {
        number,
        after,
        kind: format!(in alloc; "{kind}")?,
        source: format!(in alloc; "S")?,
        uid: format!(in alloc; "u{number}")?,
        machine: String::new(alloc),
        slot: String::new(alloc),
        board: String::new(alloc),
        reel: format!(in alloc; "{reel}")?,
        word: String::new(alloc),
        of,
        told: format!(in alloc; "told {number}")?,
    })
}

/// The row of the first command.
fn accepted(alloc: Global) -> Result<Accepted, AllocError> {
    Ok(Accepted {
        number: 1,
        uid: format!(in alloc; "u")?,
        source: format!(in alloc; "S")?,
        own: 0,
        effective: 0,
        command: format!(in alloc; "PartDefined\tP")?,
        detail: format!(in alloc; "")?,
    })
}

/// Writes four entries, two of them with a command.
fn write_four<S: Alter>(alloc: Global, conn: &mut Connection<S>) -> Result<(), Error> {
    append_entry(conn, &entry(alloc, (1, 0, 0), "made", "")?)?;
    append_entry(conn, &entry(alloc, (2, 0, 0), "hold", "K1")?)?;
    let held = [
        entry(alloc, (3, 1, 0), "hold", "K2")?,
        entry(alloc, (4, 1, 2), "decision", "")?,
    ];
    append_with_entries(alloc, conn, &accepted(alloc)?, &[], &held)
}

/// What a book shows.
#[derive(Drop)]
struct Shown {
    written: Result<(), Error>,
    has: Result<bool, BookFault>,
    second: Result<Option<BookRow>, Error>,
    fifth: Result<Option<BookRow>, Error>,
    window: Result<Vec<BookRow>, Error>,
    checked: Result<u32, BookFault>,
    checked_short: Result<u32, BookFault>,
}

fn show<S: Alter>(alloc: Global, conn: &mut Connection<S>) -> Shown {
    Shown {
        written: write_four(alloc, conn),
        has: has_book(conn),
        second: entry_at(conn, 2),
        fifth: entry_at(conn, 5),
        window: entries_after(alloc, conn, 1, 2),
        checked: check_book(alloc, conn, 1),
        checked_short: check_book(alloc, conn, 0),
    }
}

fn is_right(rt: &impl Abort, shown: Shown) -> Result<(), Fail> {
    shown.written?;
    assert!(rt; shown.has == Ok(true));
    let second = shown.second?.ok_or(AllocError)?;
    assert!(rt; second.reel.as_str() == "K1" && second.told.as_str() == "told 2");
    assert!(rt; shown.fifth?.is_none());
    let window = shown.window?;
    assert!(rt; window.len() == 2 && window[0].number == 2 && window[1].number == 3);
    assert!(rt; shown.checked == Ok(4));
    assert!(rt; shown.checked_short == Err(BookFault::WrongEntry(3)));
    Ok(())
}

fn made_together<S: Alter>(alloc: Global, conn: &mut Connection<S>) -> Result<Shown, Error> {
    make_with_book(conn, 1_000)?;
    Ok(show(alloc, conn))
}

#[test]
fn a_book_is_made_with_its_desk(rt: HostRuntime) -> Result<(), Fail> {
    let mut conn = new_files(rt.alloc())?;
    let came = made_together(rt.alloc(), &mut conn);
    close(conn);
    is_right(&rt, came?)
}

fn made_later<S: Alter>(
    alloc: Global,
    conn: &mut Connection<S>,
) -> Result<(Result<bool, BookFault>, Shown), Error> {
    make(conn, 1_000)?;
    let before = has_book(conn);
    make_book(conn)?;
    Ok((before, show(alloc, conn)))
}

#[test]
fn a_desk_gets_its_book_later(rt: HostRuntime) -> Result<(), Fail> {
    let mut conn = new_files(rt.alloc())?;
    let came = made_later(rt.alloc(), &mut conn);
    close(conn);
    let (before, shown) = came?;
    assert!(rt; before == Ok(false));
    is_right(&rt, shown)
}

/// The faults of a gap, of other columns, and of another table in the book's place.
fn faults<S: Alter>(
    alloc: Global,
    conn: &mut Connection<S>,
) -> Result<
    (
        Result<u32, BookFault>,
        Result<bool, BookFault>,
        Result<bool, BookFault>,
    ),
    Error,
> {
    make_with_book(conn, 1_000)?;
    write_four(alloc, conn)?;
    conn.execute_batch("DELETE FROM book WHERE n = 3")?;
    let gap = check_book(alloc, conn, 1);
    conn.execute_batch("DROP TABLE book; CREATE TABLE book(n INTEGER PRIMARY KEY)")?;
    let columns = has_book(conn);
    conn.execute_batch("DROP TABLE book; CREATE TABLE shift(name TEXT)")?;
    Ok((gap, columns, has_book(conn)))
}

#[test]
fn a_book_with_faults_is_refused(rt: HostRuntime) -> Result<(), Fail> {
    let mut conn = new_files(rt.alloc())?;
    let came = faults(rt.alloc(), &mut conn);
    close(conn);
    let (gap, columns, others) = came?;
    assert!(rt; gap == Err(BookFault::WrongEntry(3)));
    assert!(rt; columns == Err(BookFault::OtherColumns));
    assert!(rt; others == Err(BookFault::OthersFirst));
    Ok(())
}
