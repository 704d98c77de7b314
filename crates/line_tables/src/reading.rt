//! Reads of the accepted commands. Each call reads the committed contents and changes nothing. Inside an open
//! transaction of the caller it reads nothing.

ghost use Rattle.std.specs.Prelude.{◌≡◌, ◌≢◌, ◌<◌, ◌≤◌, ℕ, ℤ, pos, length, Option, IfOk, IfErr, [], ◌∷◌, filter};
ghost use Rattle.std.specs.List.{list_any};
ghost use Rattle.sqlite.specs.declared.types.Value.TheVariants.{Int};
ghost use Rattle.sqlite.specs.State.{HasCleanDisk};
ghost use Rattle.sqlite.specs.Held.{state};
ghost use Rattle.line_tables.specs.declared.edit.Accepted.{Accepted};
ghost use Rattle.line_tables.specs.Rows.{columns_of, accepted_in, HasNumbers};
ghost use Rattle.line_tables.specs.declared.reading.TheConstants.{MOST_COUNTED};
ghost use Rattle.line_tables.specs.Calls.{Reads, has_uid, has_number, is_before, only, row_of, number_row, IsLeast};
ghost use Rattle.line_tables.specs.Frames.{ReadsOnly, IsRefusedInside};
ghost use Rattle.line_tables.specs.Faults.{OnlyWhere};

use crate::edit::Accepted;
use crate::select::select;
use sqlite::{Alter, Connection, Error, Row, params};

const SELECT_UID: &str =
    "SELECT number, uid, source, own, effective, command, detail FROM accepted WHERE uid = ?1";

const SELECT_NUMBER: &str =
    "SELECT number, uid, source, own, effective, command, detail FROM accepted WHERE number = ?1";

const SELECT_BEFORE: &str = "SELECT number FROM accepted WHERE uid = ?1 AND number < ?2";

const SELECT_LEAST: &str = "SELECT number FROM accepted ORDER BY number LIMIT 1";

const SELECT_COUNT: &str = "SELECT count(*) FROM accepted";

/// The greatest count of SQL.
pub const MOST_COUNTED: u64 = 9_223_372_036_854_775_807;

/// Returns the row with this UniqueID, if any, by its index. Two such rows are an error, and so is a number outside
/// `u32` or a value of another type.
pub fn find<S: Alter>(conn: &mut Connection<S>, uid: &str) -> Result<Option<Accepted>, Error>
    // With two such rows there can be no `Ok`: no history has them.
    ensures found { HasCleanDisk (state S.Store conn.new)
        → IfOk result
        (λ found. Reads (state S.Store conn.old)
        (λ db. filter (has_uid uid.now) (accepted_in db) ≡ row_of found)) }
    ensures reads { ReadsOnly S.Store conn.old conn.new }
    ensures inside { IsRefusedInside result conn.old conn.new }
{
    let rows = select(conn, SELECT_UID, params![uid])?;
    match at_most_one(rows)? {
        Some(row) => Ok(Some(accepted_of(&row)?)),
        None => Ok(None),
    }
}

/// Returns the seven columns of the row with this number, if any, whatever their values. Two such rows are an error.
pub fn row_at<S: Alter>(conn: &mut Connection<S>, number: u32) -> Result<Option<Row>, Error>
    ensures found { HasCleanDisk (state S.Store conn.new)
        → IfOk result
        (λ found. Reads (state S.Store conn.old)
        (λ db. filter (has_number number) (accepted_in db) ≡ only found)) }
    ensures reads { ReadsOnly S.Store conn.old conn.new }
    ensures inside { IsRefusedInside result conn.old conn.new }
{
    let rows = select(conn, SELECT_NUMBER, params![number])?;
    at_most_one(rows)
}

/// Returns whether a row of a lower number has this UniqueID.
pub fn is_repeat<S: Alter>(conn: &mut Connection<S>, uid: &str, number: u32) -> Result<bool, Error>
    ensures found { HasCleanDisk (state S.Store conn.new)
        → IfOk result
        (λ found. Reads (state S.Store conn.old)
        (λ db. found ≡ list_any (is_before uid.now number) (accepted_in db))) }
    ensures reads { ReadsOnly S.Store conn.old conn.new }
    ensures inside { IsRefusedInside result conn.old conn.new }
{
    let rows = select(conn, SELECT_BEFORE, params![uid, number])?;
    Ok(!rows.is_empty())
}

/// Returns the least number of a row, if there is a row. A number that is no integer is an error.
pub fn least_number<S: Alter>(conn: &mut Connection<S>) -> Result<Option<i64>, Error>
    ensures least { HasCleanDisk (state S.Store conn.new)
        → IfOk result (λ least. Reads (state S.Store conn.old)
        (λ db. IsLeast (accepted_in db) least)) }
    ensures reads { ReadsOnly S.Store conn.old conn.new }
    ensures inside { IsRefusedInside result conn.old conn.new }
{
    let rows = select(conn, SELECT_LEAST, &[])?;
    least_of(rows.as_slice())
}

/// Returns the number of rows.
pub fn count<S: Alter>(conn: &mut Connection<S>) -> Result<u64, Error>
    ensures counted { HasCleanDisk (state S.Store conn.new)
        → IfOk result (λ n. Reads (state S.Store conn.old) (λ db. n ≡ length (accepted_in db))) }
    ensures reads { ReadsOnly S.Store conn.old conn.new }
    ensures inside { IsRefusedInside result conn.old conn.new }
{
    let rows = select(conn, SELECT_COUNT, &[])?;
    count_of(rows.as_slice())
}

fn at_most_one(rows: Vec<Row>) -> Result<Option<Row>, Error>
    ensures ok { IfOk result (λ found. rows.items ≡ only found) }
    ensures err { IfErr result (λ _. 2 ≤ length rows.items) }
{
    let mut rows = rows;
    let last = rows.pop();
    if rows.is_empty() {
        Ok(last)
    } else {
        Err(Error::InvalidQuery)
    }
}

#[tactic(auto, using(crate::proofs::Finds::is_text))]
fn accepted_of(row: &Row) -> Result<Accepted, Error>
    ensures ok { IfOk result (λ accepted. row.now ≡ columns_of accepted) }
    ensures err { IfErr result (OnlyWhere ((accepted : Accepted) → HasNumbers accepted
        → row.now ≢ columns_of accepted)) }
{
    if row.column_count() != 7 {
        return Err(Error::InvalidColumnIndex(7));
    }
    Ok(Accepted {
        number: row.get(0)?,
        uid: row.get(1)?,
        source: row.get(2)?,
        own: row.get(3)?,
        effective: row.get(4)?,
        command: row.get(5)?,
        detail: row.get(6)?,
    })
}

/// The number of the only row, if there is a row.
pub fn least_of(rows: &[Row]) -> Result<Option<i64>, Error>
    ensures ok { IfOk result (λ least. rows.now ≡ number_row least) }
    ensures err { IfErr result (OnlyWhere ((least : Option ℤ) → rows.now ≢ number_row least)) }
{
    match rows {
        [] => Ok(None),
        [row] => Ok(Some(number_of(row)?)),
        _ => Err(Error::InvalidColumnIndex(1)),
    }
}

pub fn number_of(row: &Row) -> Result<i64, Error>
    ensures ok { IfOk result (λ n. row.now ≡ Int n ∷ []) }
    ensures err { IfErr result (OnlyWhere ((n : ℤ) → row.now ≢ Int n ∷ [])) }
{
    if row.column_count() != 1 {
        return Err(Error::InvalidColumnIndex(1));
    }
    row.get(0)
}

/// The number, below the greatest `i64`, where SQL's count stays.
pub fn count_of(rows: &[Row]) -> Result<u64, Error>
    ensures row { IfOk result (λ n. rows.now ≡ (Int (pos n) ∷ []) ∷ []) }
    ensures below { IfOk result (λ n. n < MOST_COUNTED) }
    ensures err { IfErr result
        (OnlyWhere ((n : ℕ) → n < MOST_COUNTED → rows.now ≢ (Int (pos n) ∷ []) ∷ [])) }
{
    let [row] = rows else {
        return Err(Error::InvalidColumnIndex(1));
    };
    if row.column_count() != 1 {
        return Err(Error::InvalidColumnIndex(1));
    }
    let n: u64 = row.get(0)?;
    if n < MOST_COUNTED {
        Ok(n)
    } else {
        Err(Error::IntegralValueOutOfRange(0))
    }
}
