//! The lists in files that were opened, which are closed again.

ghost use Rattle.std.specs.Prelude.{IfErr, IfOk, IsTrue};
ghost use Rattle.desk_types.specs.Desk.{HasRoom};
ghost use Rattle.sqlite.specs.Files.{image_of};
ghost use Rattle.line_file.specs.Files.{Closes, FindsFault, FindsLine, IsKept};

use crate::fault::{ListFault, UNAVAILABLE};
use crate::store::{Line, read_connection};
use desk_file::{close_file, connect_to};
use sqlite::{Connection, FileStore, Files};
use sqlite_disk::Disk;
use state_rows::KeepsRows;

/// Reads both lists of files that nobody serves, and closes the files. Each command is judged again, and each entry of
/// the book is checked. A file without a book has an empty one, and gets none. If the files can't be closed, nothing is
/// returned of them. `with_rows` asks for the rows of the book too.
pub fn read_line<F: Disk + Drop, D: KeepsRows + Drop>(
    rt: &HostRuntime,
    files: Files<F>,
    with_rows: bool,
) -> (Result<Line<D>, ListFault>, Files<F>)
    requires log { IsTrue (F.Disk.is_usable files.log) }
    requires db { IsTrue (F.Disk.is_usable files.db) }
    ensures lists { IfOk result.0
        (FindsLine D.Stands with_rows F.Disk (image_of F.Disk files) result.1) }
    ensures fault { IfErr result.0 (FindsFault F.Disk (image_of F.Disk files) result.1) }
    ensures room { IfOk result.0 (λ line. HasRoom D.Stands line.desk 0) }
    // What the files held they hold.
    ensures kept { IsKept F.Disk files result.1 }
{
    match connect_to(rt, files) {
        Ok(conn) => {
            let (line, conn) = read_connection(rt.alloc(), conn, with_rows);
            close_after(line, conn)
        }
        Err(files) => (Err(UNAVAILABLE), files),
    }
}

/// Closes the files. Returns what was read of them, if they could be closed.
fn close_after<F: Disk + Drop, D: KeepsRows + Drop>(
    line: Result<Line<D>, ListFault>,
    conn: Connection<FileStore<F>>,
) -> (Result<Line<D>, ListFault>, Files<F>)
    ensures { Closes line conn result.0 result.1 }
{
    match close_file(conn) {
        Ok(files) => (line, files),
        Err((_, files)) => (Err(UNAVAILABLE), files),
    }
}
