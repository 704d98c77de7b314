//! The files that a command leaves open.

use desk_file::RefusedFile;
use feeder_state::StateDesk;
use line_schema::LineStore;
use sqlite::{Connection, FileStore};
use sqlite_disk::Disk;

/// The connection to close after a command.
pub enum ToClose<D: Disk + Drop> {
    /// Nothing was opened.
    Nothing,
    /// The desk of a file.
    Desk(LineStore<FileStore<D>, StateDesk>),
    /// A file that was migrated.
    Migrated(Connection<FileStore<D>>),
    /// A file that was refused.
    Refused(RefusedFile<D>),
}
