//! The files that a line's server leaves open, and their close.

ghost use Rattle.std.specs.Prelude.{IfErr, IfOk};
ghost use Rattle.desk_commands.specs.Closed.{failed, whole};
ghost use Rattle.line_commands.specs.Serving.{ClosesLists, ClosesSome};

use book_store::BookStore;
use desk_file::close_file;
use feeder_state::StateDesk;
use sqlite::{Connection, FileStore, Files};
use sqlite_disk::Disk;

/// The open part of a line's file.
pub enum LineLeft<D: Disk + Drop> {
    /// Nothing was opened.
    Nothing,
    /// The files. No database could be opened in them.
    Unread(Files<D>),
    /// The database of a file that was refused.
    Refused(Connection<FileStore<D>>),
    /// Both lists.
    Lists(BookStore<FileStore<D>, StateDesk>),
}

/// Closes the open part of a line's file. All commits are then in it, without its log. The files are returned even if
/// they could not be closed.
pub fn close_line<D: Disk + Drop>(left: LineLeft<D>) -> Result<Option<Files<D>>, Option<Files<D>>>
    ensures ok { IfOk result (ClosesLists whole left) }
    ensures err { IfErr result (ClosesLists failed left) }
{
    match left {
        LineLeft::Nothing => Ok(None),
        LineLeft::Unread(files) => Ok(Some(files)),
        LineLeft::Refused(conn) => close_connection(conn),
        LineLeft::Lists(store) => close_connection(store.into_store().into_connection()),
    }
}

fn close_connection<D: Disk + Drop>(
    conn: Connection<FileStore<D>>,
) -> Result<Option<Files<D>>, Option<Files<D>>>
    ensures ok { IfOk result (ClosesSome whole conn) }
    ensures err { IfErr result (ClosesSome failed conn) }
{
    match close_file(conn) {
        Ok(files) => Ok(Some(files)),
        Err((_, files)) => Err(Some(files)),
    }
}
