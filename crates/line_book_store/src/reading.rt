//! Entries, read back. Each call reads the committed contents and changes nothing. Inside an open
//! transaction of the caller it reads nothing.

ghost use Rattle.std.specs.Prelude.{◌≡◌, ◌≢◌, ◌≤◌, IfErr, IfOk, IsTrue, List, filter, length, map};
ghost use Rattle.sqlite.specs.State.{HasCleanDisk};
ghost use Rattle.sqlite.specs.Held.{state};
ghost use Rattle.line_book.specs.declared.row.BookRow.{BookRow};
ghost use Rattle.line_tables.specs.Calls.{has_number, only};
ghost use Rattle.line_tables.specs.Faults.{OnlyWhere};
ghost use Rattle.line_tables.specs.Frames.{IsRefusedInside, ReadsOnly};
ghost use Rattle.line_book_store.specs.Book.{GoOn, entry_columns};
ghost use Rattle.line_book_store.specs.Reading.{HasNumbers, ReadsBook, ReadsShelf, entry_numbered, entry_row, window};

use line_book::BookRow;
use line_tables::count_of;
use line_tables::select::select;
use sqlite::types::ValueRef;
use sqlite::{Alter, Connection, Error, Row, params};
use std::alloc::Global;

const SELECT_ENTRY: &str =
    "SELECT n, after, kind, source, uid, machine, slot, board, reel, word, of, told FROM book WHERE n = ?1";

const SELECT_WINDOW: &str =
    "SELECT n, after, kind, source, uid, machine, slot, board, reel, word, of, told FROM book WHERE n > ?1 AND n <= ?2";

const SELECT_COUNT: &str = "SELECT count(*) FROM book";

/// Returns the entry with this number, if any.
pub fn entry_at<S: Alter>(conn: &mut Connection<S>, number: u32) -> Result<Option<BookRow>, Error>
    ensures found { HasCleanDisk (state S.Store conn.new)
        → IfOk result
        (λ found. ReadsBook (state S.Store conn.old)
        (λ entries. entry_row found ≡ entry_row (entry_numbered number entries))) }
    ensures reads { ReadsOnly S.Store conn.old conn.new }
    ensures inside { IsRefusedInside result conn.old conn.new }
{
    match row_at(conn, number)? {
        Some(row) => Ok(Some(entry_of(&row)?)),
        None => Ok(None),
    }
}

/// Returns the columns of the row with this number, if any, whatever their values. Two such rows are an
/// error.
pub fn row_at<S: Alter>(conn: &mut Connection<S>, number: u32) -> Result<Option<Row>, Error>
    // Whatever the values are: `check_book` must see rows that are no entries, too.
    ensures found { HasCleanDisk (state S.Store conn.new)
        → IfOk result
        (λ found. ReadsShelf (state S.Store conn.old)
        (λ rows. filter (has_number number) rows ≡ only found)) }
    ensures reads { ReadsOnly S.Store conn.old conn.new }
    ensures inside { IsRefusedInside result conn.old conn.new }
{
    let rows = select(conn, SELECT_ENTRY, params![number])?;
    at_most_one(rows)
}

fn at_most_one(rows: Vec<Row>) -> Result<Option<Row>, Error>
    ensures ok { IfOk result (λ found. rows.items ≡ only found) }
{
    let mut rows = rows;
    let last = rows.pop();
    if rows.is_empty() {
        Ok(last)
    } else {
        Err(Error::InvalidQuery)
    }
}

/// Returns the number of rows.
pub fn count_rows<S: Alter>(conn: &mut Connection<S>) -> Result<u64, Error>
    ensures counted { HasCleanDisk (state S.Store conn.new)
        → IfOk result (λ n. ReadsShelf (state S.Store conn.old) (λ rows. n ≡ length rows)) }
    ensures reads { ReadsOnly S.Store conn.old conn.new }
{
    let rows = select(conn, SELECT_COUNT, &[])?;
    count_of(rows.as_slice())
}

/// Returns at most so many entries behind the one with this number, in their order. Rows that aren't
/// entries, or that have other numbers, are an error.
pub fn entries_after<S: Alter>(
    alloc: Global,
    conn: &mut Connection<S>,
    number: u32,
    most: u32,
) -> Result<Vec<BookRow>, Error>
    ensures window { HasCleanDisk (state S.Store conn.new)
        → IfOk result
        (λ found. ReadsBook (state S.Store conn.old) (λ entries. map entry_columns found.items
        ≡ map entry_columns (window number most entries))) }
    ensures reads { ReadsOnly S.Store conn.old conn.new }
    ensures inside { IsRefusedInside result conn.old conn.new }
{
    let first = i64::from(number);
    let last = first + i64::from(most);
    let rows = select(
        conn,
        SELECT_WINDOW,
        &[ValueRef::Int(first), ValueRef::Int(last)],
    )?;
    let entries = entries_of(alloc, rows.as_slice())?;
    if go_on(number, entries.as_slice()) {
        Ok(entries)
    } else {
        Err(Error::InvalidQuery)
    }
}

fn go_on(number: u32, entries: &[BookRow]) -> bool
    ensures { IsTrue result → GoOn number entries.now }
{
    let mut last = number;
    for entry in entries {
        if last == u32::MAX || entry.number != last + 1 {
            return false;
        }
        last = entry.number;
    }
    true
}

fn entries_of(alloc: Global, rows: &[Row]) -> Result<Vec<BookRow>, Error>
    ensures { IfOk result (λ entries. rows.now ≡ map entry_columns entries.items) }
{
    let mut entries = Vec::new(alloc);
    for row in rows {
        entries.push(entry_of(row)?)?;
    }
    Ok(entries)
}

/// Returns the entry with these columns. An error other than a lack of memory means that there is none.
#[tactic(auto, using(crate::proofs::Columns::is_text))]
pub fn entry_of(row: &Row) -> Result<BookRow, Error>
    ensures ok { IfOk result (λ entry. row.now ≡ entry_columns entry) }
    // So a row that an entry has is refused only for lack of memory.
    ensures err { IfErr result (OnlyWhere ((entry : BookRow) → HasNumbers entry
        → row.now ≢ entry_columns entry)) }
{
    if row.column_count() != 12 {
        return Err(Error::InvalidColumnIndex(12));
    }
    Ok(BookRow {
        number: row.get(0)?,
        after: row.get(1)?,
        kind: row.get(2)?,
        source: row.get(3)?,
        uid: row.get(4)?,
        machine: row.get(5)?,
        slot: row.get(6)?,
        board: row.get(7)?,
        reel: row.get(8)?,
        word: row.get(9)?,
        of: row.get(10)?,
        told: row.get(11)?,
    })
}
