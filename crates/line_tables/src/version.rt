//! The row of `version`.

ghost use Rattle.std.specs.Prelude.{◌≡◌, ◌<◌, ℤ, pos, length, IfOk, IfSome, IfNone, [], ◌∷◌};
ghost use Rattle.sqlite.specs.declared.types.Value.TheVariants.{Int};
ghost use Rattle.sqlite_value.specs.Order.{column};
ghost use Rattle.sqlite.specs.State.{HasCleanDisk};
ghost use Rattle.sqlite.specs.Held.{state};
ghost use Rattle.line_tables.specs.Rows.{version_in as rows_of_version};
ghost use Rattle.line_tables.specs.Calls.{Reads, IsVersionOf};
ghost use Rattle.line_tables.specs.Frames.{ReadsOnly, IsRefusedInside};

use crate::select::select;
use sqlite::types::ValueRef;
use sqlite::{Alter, Connection, Error, Row};

const SELECT_VERSION: &str = "SELECT one, number, greatest FROM version";

/// The whole numbers of the row of `version`.
#[derive(Drop)]
pub struct Version {
    /// The version of the tables.
    pub number: i64,
    /// The greatest number of a command.
    pub greatest: i64,
}

/// Returns the version, if `version` has a single row of three whole numbers, the first of them 1. Inside an open
/// transaction of the caller nothing is read.
pub fn find_version<S: Alter>(conn: &mut Connection<S>) -> Result<Option<Version>, Error>
    ensures read { HasCleanDisk (state S.Store conn.new)
        → IfOk result (λ found. Reads (state S.Store conn.old)
        (λ db. IsVersionOf (rows_of_version db) found)) }
    ensures reads { ReadsOnly S.Store conn.old conn.new }
    ensures inside { IsRefusedInside result conn.old conn.new }
{
    let rows = select(conn, SELECT_VERSION, &[])?;
    Ok(version_in(rows.as_slice()))
}

fn version_in(rows: &[Row]) -> Option<Version>
    ensures { IsVersionOf rows.now result }
{
    match rows {
        [row] => version_of(row),
        _ => None,
    }
}

fn version_of(row: &Row) -> Option<Version>
    ensures { IsVersionOf (row.now ∷ []) result }
{
    if row.column_count() != 3 {
        return None;
    }
    let (Some(1), Some(number), Some(greatest)) = (int_at(row, 0), int_at(row, 1), int_at(row, 2))
    else {
        return None;
    };
    Some(Version { number, greatest })
}

fn int_at(row: &Row, at: usize) -> Option<i64>
    requires { at < length row.now }
    ensures some { IfSome result (λ n. column row.now at ≡ Int n) }
    ensures none { IfNone result ((n : ℤ) → column row.now at ≡ Int n → ⊥) }
{
    match row.get_ref(at) {
        Ok(ValueRef::Int(n)) => Some(n),
        _ => None,
    }
}
