//! The entries of a book, read in turn, and where its rows stop being one. One row is in memory at a
//! time.

ghost use Rattle.std.specs.Prelude.{◌≡◌, ◌==◌, ◌+◌, ◌<◌, ◌^◌, IfErr, IfOk, length};
ghost use Rattle.sqlite.specs.State.{HasCleanDisk};
ghost use Rattle.sqlite.specs.Held.{state};
ghost use Rattle.line_tables.specs.Frames.{ReadsOnly};
ghost use Rattle.line_book_store.specs.Checking.{Goes, IsChecked, IsFaultOf, IsReadFrom, IsStop, Stops, fault_after};
ghost use Rattle.line_book_store.specs.Reading.{ReadsShelf};
ghost use Rattle.line_book_store.specs.declared.fault.BookFault.TheVariants.{Unavailable};

use crate::fault::BookFault;
use crate::reading::{count_rows, entry_of, row_at};
use line_book::{Note, Reading};
use sqlite::{Alter, Connection, Error, ErrorCode, Row};
use std::alloc::Global;

/// Reads the book of a line with so many accepted commands, and returns the number of its entries.
pub fn check_book<S: Alter>(
    alloc: Global,
    conn: &mut Connection<S>,
    commands: u64,
) -> Result<u32, BookFault>
    // The book has no other rows than these entries, so no row was passed over.
    ensures ok { IfOk result (IsChecked commands (HasCleanDisk (state S.Store conn.new))
        (state S.Store conn.old)) }
    // Explains `WrongEntry` alone: of any other fault nothing is said.
    ensures err { HasCleanDisk (state S.Store conn.new)
        → IfErr result (IsFaultOf commands (state S.Store conn.old)) }
    ensures reads { ReadsOnly S.Store conn.old conn.new }
{
    let mut reading = Reading::new(commands);
    let mut more = true;
    while more {
        match next_note(alloc, conn, &mut reading)? {
            Some(_note) => {}
            None => more = false,
        }
    }
    let whole = is_whole(conn, reading.entries)?;
    if !whole {
        return Err(wrong_after(reading.entries));
    }
    Ok(reading.entries)
}

/// Returns the next entry behind those that were read, or none if no row has its number.
pub fn next_note<S: Alter>(
    alloc: Global,
    conn: &mut Connection<S>,
    reading: &mut Reading,
) -> Result<Option<Note>, BookFault>
    ensures ok { IfOk result
        (Goes (HasCleanDisk (state S.Store conn.new)) (state S.Store conn.old) reading.old
        reading.new) }
    ensures room { IfOk result (λ _. reading.old.entries + 1 < 2 ^ 32) }
    ensures err { HasCleanDisk (state S.Store conn.new)
        → IfErr result (IsStop (state S.Store conn.old) reading.old) }
    ensures reads { ReadsOnly S.Store conn.old conn.new }
{
    if reading.entries == u32::MAX {
        return Err(BookFault::Unavailable);
    }
    match row_at(conn, reading.entries + 1)? {
        Some(row) => Ok(Some(note_of(alloc, reading, &row)?)),
        None => Ok(None),
    }
}

/// Returns whether the book has so many rows.
pub fn is_whole<S: Alter>(conn: &mut Connection<S>, entries: u32) -> Result<bool, BookFault>
    ensures counted { HasCleanDisk (state S.Store conn.new)
        → IfOk result (λ whole. ReadsShelf (state S.Store conn.old)
        (λ rows. whole ≡ (entries == length rows))) }
    ensures err { IfErr result (λ f. f ≡ Unavailable) }
    ensures reads { ReadsOnly S.Store conn.old conn.new }
{
    Ok(count_rows(conn)? == u64::from(entries))
}

fn note_of(alloc: Global, reading: &mut Reading, row: &Row) -> Result<Note, BookFault>
    ensures ok { IfOk result (IsReadFrom row.now reading.old reading.new) }
    ensures err { IfErr result (Stops row.now reading.old) }
{
    let wrong = wrong_after(reading.entries);
    let entry = match entry_of(row) {
        Ok(entry) => entry,
        Err(Error::SqliteFailure(ErrorCode::OutOfMemory)) => return Err(BookFault::Unavailable),
        Err(_) => return Err(wrong),
    };
    match reading.next(alloc, &entry)? {
        Ok(note) => Ok(note),
        Err(_) => Err(wrong),
    }
}

fn wrong_after(entries: u32) -> BookFault
    ensures { result ≡ fault_after entries }
{
    match entries.checked_add(1) {
        Some(number) => BookFault::WrongEntry(number),
        None => BookFault::Unavailable,
    }
}
