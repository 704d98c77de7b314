//! Tests for distinct rowids. Each call reads the committed contents and changes nothing. Inside an open transaction of
//! the caller it reads nothing.

ghost use Rattle.std.specs.Prelude.{◌≡◌, ◌↔◌, ◌&&◌, true, IsTrue, IfOk, IfErr, take, drop};
ghost use Rattle.std.specs.List.{AllByRecursion};
ghost use Rattle.sqlite.specs.State.{HasCleanDisk};
ghost use Rattle.sqlite.specs.Held.{state};
ghost use Rattle.line_tables.specs.Calls.{Reads};
ghost use Rattle.line_tables.specs.Rowids.{AreAllApartBy, changed_tables, changed_of};
ghost use Rattle.line_tables.specs.Faults.{OnlyWhere};
ghost use Rattle.line_tables.specs.Frames.{ReadsOnly, IsRefusedInside};
ghost use Rattle.line_tables.specs.Rising.{AreApartWhere, IsFoundApartWhere, Shows, AreRising, IsPast, IsNumber};

use crate::reading::number_of;
use crate::select::select;
use desk_types::Rules;
use sqlite::{Alter, Connection, Error, Row};

/// Returns whether every row of each state table except `placement` has its own integer as rowid. SQL keeps this true
/// in every file that it writes. Rules One have no table of found pieces.
pub fn are_apart<S: Alter>(conn: &mut Connection<S>, rules: Rules) -> Result<bool, Error>
    ensures apart { HasCleanDisk (state S.Store conn.new)
        → IfOk result (λ are. Reads (state S.Store conn.old)
        (λ db. IsTrue are → AreAllApartBy rules db)) }
    ensures reads { ReadsOnly S.Store conn.old conn.new }
    ensures inside { IsRefusedInside result conn.old conn.new }
{
    if !is_setup_apart(conn)? {
        return Ok(false);
    }
    is_floor_apart(conn, rules)
}

fn is_setup_apart<S: Alter>(conn: &mut Connection<S>) -> Result<bool, Error>
    ensures found { HasCleanDisk (state S.Store conn.new)
        → IfOk result
        (λ apart. Reads (state S.Store conn.old) (AreApartWhere apart (take 4 changed_tables))) }
    ensures reads { ReadsOnly S.Store conn.old conn.new }
    ensures inside { IsRefusedInside result conn.old conn.new }
{
    let part = shows_rising(conn, "SELECT rowid FROM part ORDER BY rowid")?;
    let alternate = shows_rising(conn, "SELECT rowid FROM alternate ORDER BY rowid")?;
    let sheet_row = shows_rising(conn, "SELECT rowid FROM sheet_row ORDER BY rowid")?;
    let selected = shows_rising(conn, "SELECT rowid FROM selected ORDER BY rowid")?;
    Ok(are_true(part, alternate, sheet_row, selected))
}

fn is_floor_apart<S: Alter>(conn: &mut Connection<S>, rules: Rules) -> Result<bool, Error>
    ensures found { HasCleanDisk (state S.Store conn.new)
        → IfOk result (λ apart. Reads (state S.Store conn.old)
        (AreApartWhere apart (drop 4 (changed_of rules)))) }
    ensures reads { ReadsOnly S.Store conn.old conn.new }
    ensures inside { IsRefusedInside result conn.old conn.new }
{
    let reel = shows_rising(conn, "SELECT rowid FROM reel ORDER BY rowid")?;
    let mount = shows_rising(conn, "SELECT rowid FROM mount ORDER BY rowid")?;
    let board = shows_rising(conn, "SELECT rowid FROM board ORDER BY rowid")?;
    let found = is_found_apart(conn, rules)?;
    Ok(are_true(reel, mount, board, found))
}

fn is_found_apart<S: Alter>(conn: &mut Connection<S>, rules: Rules) -> Result<bool, Error>
    ensures found { HasCleanDisk (state S.Store conn.new)
        → IfOk result (λ apart. IsFoundApartWhere rules apart (state S.Store conn.old)) }
    ensures reads { ReadsOnly S.Store conn.old conn.new }
{
    match rules {
        Rules::One => Ok(true),
        Rules::Two => shows_rising(conn, "SELECT rowid FROM found ORDER BY rowid"),
    }
}

fn shows_rising<S: Alter>(conn: &mut Connection<S>, sql: &str) -> Result<bool, Error>
    ensures shown { HasCleanDisk (state S.Store conn.new)
        → IfOk result (Shows S.Store sql.now conn.old) }
    ensures reads { ReadsOnly S.Store conn.old conn.new }
    ensures inside { IsRefusedInside result conn.old conn.new }
{
    let rows = select(conn, sql, &[])?;
    are_rising(rows.as_slice())
}

fn are_rising(rows: &[Row]) -> Result<bool, Error>
    ensures ok { IfOk result (λ rising. IsTrue rising ↔ AreRising rows.now) }
    ensures err { IfErr result (OnlyWhere (¬ AllByRecursion IsNumber rows.now)) }
{
    let mut last: Option<i64> = None;
    for row in rows {
        let number = number_of(row)?;
        if !is_past(last, number) {
            return Ok(false);
        }
        last = Some(number);
    }
    Ok(true)
}

fn are_true(a: bool, b: bool, c: bool, d: bool) -> bool
    ensures { result ≡ (a && (b && (c && (d && true)))) }
{
    a && b && c && d
}

#[tactic(auto, using(crate::proofs::Rising::past_by, crate::proofs::Rising::less_by))]
fn is_past(last: Option<i64>, number: i64) -> bool
    ensures { IsTrue result ↔ IsPast last number }
{
    match last {
        Some(last) => last < number,
        None => true,
    }
}
