//! The pieces in doubt by the lists in files, which are closed again.

ghost use Rattle.std.specs.Prelude.{IfErr, IfOk, IsTrue};
ghost use Rattle.sqlite.specs.Files.{image_of};
ghost use Rattle.line_file.specs.Files.{Closes, FindsFault, IsKept};
ghost use Rattle.doubt_file.specs.Files.{TellsDoubts};

use crate::store::read_connection;
use desk_file::{close_file, connect_to};
use line_doubt::Doubt;
use line_file::{ListFault, UNAVAILABLE};
use sqlite::{Connection, FileStore, Files};
use sqlite_disk::Disk;

/// Finds the pieces in doubt by both lists of files that nobody serves, with a tolerance of so many pieces at each
/// splice, and closes the files. Each command is judged again, and each entry of the book is checked. A file without a
/// book has an empty one, and gets none. If the files can't be closed, nothing is returned of them.
pub fn read_doubts<F: Disk + Drop>(
    rt: &HostRuntime,
    files: Files<F>,
    within: u32,
) -> (Result<Vec<Doubt>, ListFault>, Files<F>)
    requires log { IsTrue (F.Disk.is_usable files.log) }
    requires db { IsTrue (F.Disk.is_usable files.db) }
    ensures doubts { IfOk result.0 (λ found.
        TellsDoubts within F.Disk (image_of F.Disk files) result.1 found.items) }
    ensures fault { IfErr result.0 (FindsFault F.Disk (image_of F.Disk files) result.1) }
    // What the files held they hold.
    ensures kept { IsKept F.Disk files result.1 }
{
    match connect_to(rt, files) {
        Ok(conn) => {
            let (found, conn) = read_connection(rt.alloc(), conn, within);
            close_after(found, conn)
        }
        Err(files) => (Err(UNAVAILABLE), files),
    }
}

/// Closes the files. Returns what was found in them, if they could be closed.
fn close_after<F: Disk + Drop>(
    found: Result<Vec<Doubt>, ListFault>,
    conn: Connection<FileStore<F>>,
) -> (Result<Vec<Doubt>, ListFault>, Files<F>)
    ensures { Closes found conn result.0 result.1 }
{
    match close_file(conn) {
        Ok(files) => (found, files),
        Err((_, files)) => (Err(UNAVAILABLE), files),
    }
}
