//! A desk's file that was refused.

use line_schema::OpenFault;
use sqlite::{Connection, FileStore, Files};
use sqlite_disk::Disk;

/// Why the desk's file was refused, and what of it is open, which the caller closes.
pub struct RefusedFile<D: Disk + Drop> {
    pub fault: OpenFault,
    /// The connection to its database, if there is one.
    pub file: Option<Connection<FileStore<D>>>,
    /// The files, if they were opened, but no database could be opened in them.
    pub unread: Option<Files<D>>,
}
