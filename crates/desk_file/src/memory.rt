//! A desk in memory, which ends with its program.
//!
//! Its database is the kit's store of pages over two files in memory. The kit's own store in memory moves half of an
//! index at each insert; here the cost of a row does not grow with the number of rows.

ghost use Rattle.std.specs.Prelude.{◌≡◌, ◌≤◌, [], true, false, IfOk};
ghost use Rattle.sqlite.specs.Files.{file_state, over_files};
ghost use Rattle.sqlite.specs.Steps.{IsEmpty};
ghost use Rattle.desk_types.specs.declared.limits.TheConstants.{MOST_ENTRIES};
ghost use Rattle.line_schema.specs.Stands.{Stands};

use crate::memory_file::MemoryFile;
use line_schema::{LineStore, Unavailable};
use sqlite::{Connection, Error, FileStore, Files, Options};
use state_rows::KeepsRows;
use std::alloc::Global;

/// The number that salts the log. It distinguishes the frames of a log from those of an earlier program. A log in
/// memory has no earlier frames, so any number serves.
const SEED: u64 = 0;

/// Makes the store of an empty history in memory, which never lies.
pub fn in_memory<D: KeepsRows + Drop>(
    alloc: Global,
    greatest: u32,
) -> Result<LineStore<FileStore<MemoryFile>, D>, Unavailable>
    // The command line gives both bounds: see `IsInRange` of `desk_words`.
    requires least { 1 ≤ greatest }
    requires most { greatest ≤ MOST_ENTRIES }
    ensures stands { IfOk result
        (λ store. Stands over_files D.Stands store
        (record { greatest = greatest; history = []; own = true })) }
{
    let conn = open(alloc)?;
    match LineStore::create(alloc, conn, greatest) {
        Ok(store) => Ok(store),
        Err((_fault, _conn)) => Err(Unavailable),
    }
}

/// A database with no table. An error is out of memory.
fn open(alloc: Global) -> Result<Connection<FileStore<MemoryFile>>, Error>
    ensures empty { IfOk result (λ conn. IsEmpty (file_state conn)) }
    ensures mode { IfOk result (λ conn. conn.in_transaction ≡ false) }
{
    let files = Files {
        log: MemoryFile::new(alloc),
        db: MemoryFile::new(alloc),
    };
    match Connection::open_files(alloc, files, Options::new(SEED)) {
        Ok(conn) => Ok(conn),
        Err((error, _files)) => Err(error),
    }
}
