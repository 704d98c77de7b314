//! The ends of the table `placement`.

ghost use Rattle.std.specs.Prelude.{◌≡◌, ◌⊎◌, ℕ, pos, false, None, Some, [], ◌∷◌, map, filter, length, IsTrue, IfOk};
ghost use Rattle.sqlite.specs.State.{HasCleanDisk};
ghost use Rattle.sqlite.specs.Held.{state};
ghost use Rattle.sqlite_trees.specs.Tree.{rowid};
ghost use Rattle.line_tables.specs.Line as line;
ghost use Rattle.line_tables.specs.Calls.{Reads, IsLeast};
ghost use Rattle.line_tables.specs.StateRows.{kept_in, rows_in};
ghost use Rattle.line_tables.specs.Frames.{ReadsOnly};
ghost use Rattle.line_replay.specs.Placed.{is_from, HasBefore};

use crate::auditing::Placed;
use crate::shown::count;
use crate::table::StateTable;
use line_tables::least_of;
use line_tables::select::select;
use line_tables::values::int;
use sqlite::{Alter, Connection, Error};

/// Returns the number of placements. If the end of those that were looked up is known, it only looks
/// for other rows.
pub fn count_placements<S: Alter>(conn: &mut Connection<S>, placed: Placed) -> Result<u64, Error>
    ensures counted { HasCleanDisk (state S.Store conn.new)
        → IfOk result (λ n. Reads (state S.Store conn.old)
        (λ db. HasBefore placed.end placed.count db → n ≡ length (rows_in line.placement db))) }
    ensures reads { ReadsOnly S.Store conn.old conn.new }
{
    match placed.end {
        Some(end) => count_to(conn, placed.count, end),
        None => count(conn, StateTable::Placement),
    }
}

fn count_to<S: Alter>(conn: &mut Connection<S>, known: u64, end: u64) -> Result<u64, Error>
    ensures counted { HasCleanDisk (state S.Store conn.new)
        → IfOk result (λ n. Reads (state S.Store conn.old)
        (λ db. HasBefore (Some end) known db → n ≡ length (rows_in line.placement db))) }
    ensures reads { ReadsOnly S.Store conn.old conn.new }
{
    if are_before(conn, end)? {
        return Ok(known);
    }
    count(conn, StateTable::Placement)
}

/// Returns whether each rowid is from 0 on, and before the end.
fn are_before<S: Alter>(conn: &mut Connection<S>, end: u64) -> Result<bool, Error>
    ensures found { HasCleanDisk (state S.Store conn.new)
        → IfOk result (λ are. IsTrue are → Reads (state S.Store conn.old)
        (λ db. (count : ℕ) → HasBefore (Some end) count db
        → count ≡ length (rows_in line.placement db))) }
    ensures reads { ReadsOnly S.Store conn.old conn.new }
{
    let least = least_rowid(conn)?;
    if is_negative(least) {
        return Ok(false);
    }
    let more = has_from(conn, end)?;
    Ok(!more)
}

fn is_negative(n: Option<i64>) -> bool
    ensures { result ≡ false → (n ≡ None) ⊎ ((k : ℕ) × (n ≡ Some (pos k))) }
{
    match n {
        Some(n) => n < 0,
        None => false,
    }
}

/// Returns the least rowid, if there is a row. A rowid that is no integer is an error.
fn least_rowid<S: Alter>(conn: &mut Connection<S>) -> Result<Option<i64>, Error>
    ensures least { HasCleanDisk (state S.Store conn.new)
        → IfOk result (λ least. Reads (state S.Store conn.old)
        (λ db. IsLeast (map (λ row. rowid row ∷ []) (kept_in line.placement db)) least)) }
    ensures reads { ReadsOnly S.Store conn.old conn.new }
{
    let rows = select(
        conn,
        "SELECT rowid FROM placement ORDER BY rowid LIMIT 1",
        &[],
    )?;
    least_of(rows.as_slice())
}

/// Returns whether a row may have this rowid or a later one.
fn has_from<S: Alter>(conn: &mut Connection<S>, first: u64) -> Result<bool, Error>
    ensures none { HasCleanDisk (state S.Store conn.new)
        → IfOk result (λ has. has ≡ false → Reads (state S.Store conn.old)
        (λ db. filter (is_from first) (kept_in line.placement db) ≡ [])) }
    ensures reads { ReadsOnly S.Store conn.old conn.new }
{
    let rows = select(
        conn,
        "SELECT number FROM placement WHERE rowid >= ?1 LIMIT 1",
        &[int(first)?],
    )?;
    Ok(!rows.is_empty())
}
