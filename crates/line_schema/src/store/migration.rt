//! Migration of a file from version 1 to version 2.

ghost use Rattle.std.specs.Prelude.{◌≡◌, false, IsTrue, IfOk, IfErr, Err};
ghost use Rattle.sqlite.specs.State.{HasCleanDisk, KeepsCommit, Survives};
ghost use Rattle.sqlite.specs.Held.{state};
ghost use Rattle.desk_types.specs.declared.rules.Rules.TheVariants.{One};
ghost use Rattle.line_tables.specs.Calls.{LeavesMigrated};
ghost use Rattle.line_schema.specs.declared.fault.OpenFault.TheVariants as Fault;
ghost use Rattle.line_schema.specs.Opening.{IsReported};
ghost use Rattle.line_schema.specs.Versions.{Migrates};

use crate::fault::OpenFault;
use crate::opening::{Opened, read_tables};
use crate::store::LineStore;
use desk_types::Rules;
use line_tables::migrate_tables;
use sqlite::{Alter, Connection};
use state_rows::KeepsRows;
use std::alloc::Global;

impl<S: Alter, D: KeepsRows + Drop> LineStore<S, D> {
    /// Migrates the tables from version 1 to version 2, and returns the number of accepted
    /// commands. First each command is judged again by rules One, and the other tables are compared
    /// with the history's. Only the row of `version` changes, and a table of found pieces is added.
    /// After a fault the tables are unchanged; after a failed commit, a crash may still leave
    /// version 2. Inside an open transaction of the caller it is Unavailable.
    pub fn migrate(alloc: Global, conn: &mut Connection<S>) -> Result<u32, OpenFault>
        ensures migrated { IfOk result
            (Migrates (state S.Store conn.old) (state S.Store conn.new)) }
        ensures fault { IfErr result
            (IsReported One (state S.Store conn.old) (state S.Store conn.new)) }
        // On an honest disk; a crash after a failed commit may still leave version 2, as below.
        ensures unchanged { HasCleanDisk (state S.Store conn.new)
            → IfErr result (λ _. KeepsCommit (state S.Store conn.old) (state S.Store conn.new)) }
        // A crash at any moment leaves version 1 or version 2, and nothing between.
        ensures crash { Survives (state S.Store conn.old) (state S.Store conn.new)
            (LeavesMigrated (state S.Store conn.old)) }
        ensures inside { IsTrue conn.old.in_transaction
            → (result ≡ Err Fault.Unavailable) × (conn.new ≡ conn.old) }
        // No transaction of its own is left open.
        ensures mode { conn.old.in_transaction ≡ false → conn.new.in_transaction ≡ false }
    {
        if !conn.is_autocommit() {
            return Err(OpenFault::Unavailable);
        }
        let Opened {
            working: _working,
            count,
            greatest: _greatest,
        } = read_tables::<S, D>(alloc, conn, Rules::One)?;
        migrate_tables(conn)?;
        Ok(count)
    }
}
