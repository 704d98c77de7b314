//! The book by its name, its columns and its place.

ghost use Rattle.std.specs.Prelude.{◌≡◌};
ghost use Rattle.std.specs.List.{list_all};
ghost use Rattle.sqlite.specs.Held.{state};
ghost use Rattle.sqlite_schema.specs.Names.{same_name};
ghost use Rattle.line_tables.specs.Names.{has_column};
ghost use Rattle.line_book_store.specs.Names.{has_book, is_book};

use crate::fault::BookFault;
use sqlite::{Alter, Connection};
use sqlite_schema::names::same_name;
use sqlite_schema::schema::Table;

/// The number of the desk's tables.
const DESK_TABLES: usize = 11;

const COLUMNS: [&str; 12] = [
    "n", "after", "kind", "source", "uid", "machine", "slot", "board", "reel", "word", "of", "told",
];

/// Returns whether the first table behind the desk's is the book, with its columns and no others. If it
/// is another, the file is refused.
pub fn has_book<S: Alter>(conn: &Connection<S>) -> Result<bool, BookFault>
    ensures { result ≡ has_book (state S.Store conn.now).now.schema.tables }
{
    match conn.schema().tables.as_slice().get(DESK_TABLES) {
        Some(table) => is_book(table),
        None => Ok(false),
    }
}

fn is_book(table: &Table) -> Result<bool, BookFault>
    ensures { result ≡ is_book table.now }
{
    if !same_name(table.name.as_slice(), "book".as_bytes()) {
        return Err(BookFault::OthersFirst);
    }
    if table.columns.len() != COLUMNS.len() || !has_columns(table, &COLUMNS) {
        return Err(BookFault::OtherColumns);
    }
    Ok(true)
}

fn has_columns(table: &Table, columns: &[&str]) -> bool
    ensures { result ≡ list_all (λ column. has_column table.now column.now) columns.now }
{
    columns.iter().all(|column| has_column(table, column))
}

fn has_column(table: &Table, name: &str) -> bool
    ensures { result ≡ has_column table.now name.now }
{
    table.columns.as_slice().iter().any(|column| same_name(column.name.as_slice(), name.as_bytes()))
}
