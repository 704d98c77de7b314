//! The desk in files that were opened.

ghost use Rattle.std.specs.Prelude.{IsTrue, IfOk, IfErr};
ghost use Rattle.sqlite.specs.Files.{image_of};
ghost use Rattle.chain_files.specs.Opened.{HoldNoDesk, OpensDesk};

use desk_file::connect_to;
use feeder_state::StateDesk;
use line_schema::{LineStore, OpenFault};
use sqlite::{Connection, FileStore, Files};
use sqlite_disk::Disk;

/// Files that hold no desk, or that can't be read.
pub enum NoDesk<D: Disk + Drop> {
    /// No database could be opened in them.
    Unread(Files<D>),
    /// The database was refused for this fault. The connection to it is open.
    Refused {
        fault: OpenFault,
        file: Connection<FileStore<D>>,
    },
}

/// Opens the desk in these files. Files that hold none are refused.
pub fn desk_in<D: Disk + Drop>(
    rt: &HostRuntime,
    files: Files<D>,
) -> Result<LineStore<FileStore<D>, StateDesk>, NoDesk<D>>
    requires log { IsTrue (D.Disk.is_usable files.log) }
    requires db { IsTrue (D.Disk.is_usable files.db) }
    ensures opens { IfOk result (OpensDesk (image_of D.Disk files)) }
    ensures refused { IfErr result (HoldNoDesk files) }
{
    let conn = match connect_to(rt, files) {
        Ok(conn) => conn,
        Err(files) => return Err(NoDesk::Unread(files)),
    };
    match LineStore::open(rt.alloc(), conn) {
        Ok(store) => Ok(store),
        Err((fault, conn)) => Err(NoDesk::Refused { fault, file: conn }),
    }
}
