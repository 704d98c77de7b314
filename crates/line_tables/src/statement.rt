//! One statement inside a transaction.

ghost use Rattle.std.specs.Prelude.{OnOk, IfOk};
ghost use Rattle.sqlite.specs.State.{HasCleanDisk};
ghost use Rattle.sqlite.specs.Values.{bound};
ghost use Rattle.sqlite.specs.Held.{state};
ghost use Rattle.line_tables.specs.Calls.{Runs, Changes, ChangesOrPuts};
ghost use Rattle.line_tables.specs.Frames.{InTransaction};

use sqlite::types::ValueRef;
use sqlite::{Alter, Error, Transaction};

/// Runs one statement that returns no rows.
pub fn run<S: Alter>(
    tx: &mut Transaction<'_, S>,
    sql: &str,
    values: &[ValueRef<'_>],
) -> Result<(), Error>
    ensures ran { HasCleanDisk (state S.Store tx.new.conn.now)
        → OnOk result
        (Runs sql.now (bound values.now) (state S.Store tx.old.conn.now)
        (state S.Store tx.new.conn.now)) }
    ensures within { InTransaction S.Store tx.old tx.new }
{
    match run_counted(tx, sql, values) {
        Ok(_) => Ok(()),
        Err(error) => Err(error),
    }
}

/// Runs one statement that returns no rows, and returns the number of rows it changed.
pub fn run_counted<S: Alter>(
    tx: &mut Transaction<'_, S>,
    sql: &str,
    values: &[ValueRef<'_>],
) -> Result<usize, Error>
    ensures ran { HasCleanDisk (state S.Store tx.new.conn.now)
        → IfOk result
        (λ count. Changes count sql.now (bound values.now) (state S.Store tx.old.conn.now)
        (state S.Store tx.new.conn.now)) }
    ensures within { InTransaction S.Store tx.old tx.new }
{
    tx.execute(sql, values)
}

/// Updates a row by the first statement, or inserts it by the second if there was none. Two changed rows are an error.
pub fn change_or_put<S: Alter>(
    tx: &mut Transaction<'_, S>,
    update: &str,
    insert: &str,
    values: &[ValueRef<'_>],
) -> Result<(), Error>
    ensures done { HasCleanDisk (state S.Store tx.new.conn.now)
        → OnOk result
        (ChangesOrPuts S.Store update.now insert.now (bound values.now)
        (state S.Store tx.old.conn.now)
        (state S.Store tx.new.conn.now)) }
    ensures within { InTransaction S.Store tx.old tx.new }
{
    let changed = run_counted(tx, update, values)?;
    match changed {
        0 => run(tx, insert, values),
        1 => Ok(()),
        _ => Err(Error::InvalidQuery),
    }
}
