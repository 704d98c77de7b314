//! The pieces in doubt by both lists of a connection.

ghost use Rattle.std.specs.Prelude.{IfErr, IfOk};
ghost use Rattle.sqlite.specs.Held.{state};
ghost use Rattle.feeder_state.specs.contracts.desk.StateDeskDesk.TheImpl.{ghosts as desk};
ghost use Rattle.line_file.specs.Lines.{IsListFault, ReadsFault};
ghost use Rattle.line_file.specs.Lists.{IsSound};
ghost use Rattle.line_schema.specs.Stands.{Kept, Stands, conn_of, state_of};
ghost use Rattle.line_tables.specs.Frames.{ReadsOnly};
ghost use Rattle.doubt_file.specs.Doubts.{FindsDoubts, ReadsDoubts};

use crate::doubts::doubts_of;
use feeder_state::StateDesk;
use line_doubt::Doubt;
use line_file::ListFault;
use line_schema::LineStore;
use sqlite::{Alter, Connection};
use std::alloc::Global;

/// Opens the lists in the database of a connection, and finds the pieces in doubt. Nothing changes.
pub fn read_connection<S: Alter>(
    alloc: Global,
    conn: Connection<S>,
    within: u32,
) -> (Result<Vec<Doubt>, ListFault>, Connection<S>)
    ensures ok { IfOk result.0 (λ found.
        FindsDoubts within (IsSound (state S.Store result.1)) (state S.Store conn) found.items) }
    ensures err { IsSound (state S.Store result.1)
        → IfErr result.0 (ReadsFault (state S.Store conn)) }
    ensures reads { ReadsOnly S.Store conn result.1 }
{
    match LineStore::open(alloc, conn) {
        Ok(store) => read_store(alloc, store, within),
        Err((fault, conn)) => (Err(ListFault::History(fault)), conn),
    }
}

fn read_store<S: Alter>(
    alloc: Global,
    store: LineStore<S, StateDesk>,
    within: u32,
) -> (Result<Vec<Doubt>, ListFault>, Connection<S>)
    ensures ok { (L : Kept) → Stands S.Store desk.Stands store L → IfOk result.0 (λ found.
        ReadsDoubts L within (IsSound (state S.Store result.1)) (state_of S.Store store)
        found.items) }
    ensures err { (L : Kept) → Stands S.Store desk.Stands store L
        → IsSound (state S.Store result.1)
        → IfErr result.0 (IsListFault L (state_of S.Store store)) }
    ensures reads { ReadsOnly S.Store (conn_of store) result.1 }
{
    let mut store = store;
    let found = doubts_of(alloc, &mut store, within);
    let conn = store.into_connection();
    match found {
        Ok(found) => (Ok(found), conn),
        Err(fault) => (Err(ListFault::Book(fault)), conn),
    }
}
