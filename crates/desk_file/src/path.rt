//! A connection to the files at a path.

ghost use Rattle.std.specs.Prelude.{◌≡◌, ◌||◌, false, true, is_some, IsTrue, IfOk, IfErr, IfSome, MatchResult};
ghost use Rattle.sqlite_wal.specs.Files.{image_at};
ghost use Rattle.sqlite.specs.Files.{file_state, image_of, IsOpened};
ghost use Rattle.sqlite.specs.State.{HasCleanDisk};
ghost use Rattle.desk_file.specs.Found.{FindsAs};
ghost use Rattle.desk_file.specs.Opened.{has_opened};
ghost use Rattle.desk_file.specs.Unread.{IsJustOpened, IsUnread, IsUnreadAt};

use crate::pages::open_files;
use line_schema::OpenFault;
use sqlite::{Connection, FileFrom, FileStore, Files, Options, Start};
use sqlite_disk::Disk;
use sqlite_std_file::OpenError;
use std::hash::{BuildHasher, RandomState};

/// Opens the file of a run, and its log, once. `T` is their contents then. It remembers whether it opened them: whoever
/// lets it open a file has to show what became of the file.
#[derive(Drop)]
pub struct FileOpener<T> {
    start: Option<T>,
    opened: bool,
}

impl<T: Start> FileOpener<T> {
    pub fn new(start: T) -> FileOpener<T>
        ensures { has_opened result ≡ false }
    {
        FileOpener {
            start: Some(start),
            opened: false,
        }
    }

    /// Opens the file at a path, like `open_at`. After a first call each is refused.
    fn open(&mut self, rt: &HostRuntime, path: &str) -> Result<Files<FileFrom<T>>, OpenFault>
        ensures log { IfOk result (λ files. IsTrue (⟦<FileFrom<T> as Disk>⟧.is_usable files.log)) }
        ensures db { IfOk result (λ files. IsTrue (⟦<FileFrom<T> as Disk>⟧.is_usable files.db)) }
        ensures fresh { IfOk result (IsJustOpened ⟦<FileFrom<T> as Disk>⟧ (image_at T.Start)) }
        ensures told { MatchResult result (λ _. has_opened self.new ≡ true)
            (λ _. has_opened self.new ≡ has_opened self.old) }
    {
        let Some(start) = self.start.take() else {
            return Err(OpenFault::Unavailable);
        };
        match open_at(rt, path, start) {
            Ok(files) => {
                self.opened = true;
                Ok(files)
            }
            Err(_) => Err(OpenFault::Unavailable),
        }
    }
}

/// Opens the database in the file at a path, or makes it. `T` is the contents of the file and its log. The system's
/// clock is not read, so a statement that reads the time is refused. Files that were opened are returned, if there is no
/// connection to them.
pub fn open_path<T: Start>(
    rt: &HostRuntime,
    path: &str,
    opener: &mut FileOpener<T>,
) -> Result<Connection<FileStore<FileFrom<T>>>, Option<Files<FileFrom<T>>>>
    ensures opened { IfOk result (λ conn. HasCleanDisk (file_state conn) → IsOpened conn) }
    ensures found { IfOk result (λ conn. HasCleanDisk (file_state conn)
        → FindsAs (image_at T.Start) (file_state conn)) }
    ensures mode { IfOk result (λ conn. conn.in_transaction ≡ false) }
    ensures unread { IfErr result (λ left. IfSome left
        (IsUnreadAt ⟦<FileFrom<T> as Disk>⟧ (image_at T.Start))) }
    ensures told { MatchResult result (λ _. has_opened opener.new ≡ true)
        (λ left. has_opened opener.new ≡ (is_some left || has_opened opener.old)) }
{
    match opener.open(rt, path) {
        Ok(files) => match connect_to(rt, files) {
            Ok(conn) => Ok(conn),
            Err(files) => Err(Some(files)),
        },
        Err(_) => Err(None),
    }
}

/// Opens the file at a path and its log, which are made if missing. Nothing was done to them yet.
pub fn open_at<T: Start>(
    rt: &HostRuntime,
    path: &str,
    start: T,
) -> Result<Files<FileFrom<T>>, OpenError>
    ensures log { IfOk result (λ files. IsTrue (⟦<FileFrom<T> as Disk>⟧.is_usable files.log)) }
    ensures db { IfOk result (λ files. IsTrue (⟦<FileFrom<T> as Disk>⟧.is_usable files.db)) }
    ensures fresh { IfOk result (IsJustOpened ⟦<FileFrom<T> as Disk>⟧ (image_at T.Start)) }
{
    sqlite_std_file::open(rt, path, start)
}

/// Opens the database in these files, or makes it, like `open_path`. Files without a connection are returned.
pub fn connect_to<D: Disk + Drop>(
    rt: &HostRuntime,
    files: Files<D>,
) -> Result<Connection<FileStore<D>>, Files<D>>
    requires log { IsTrue (D.Disk.is_usable files.log) }
    requires db { IsTrue (D.Disk.is_usable files.db) }
    ensures opened { IfOk result (λ conn. HasCleanDisk (file_state conn) → IsOpened conn) }
    ensures found { IfOk result (λ conn. HasCleanDisk (file_state conn)
        → FindsAs (image_of D.Disk files) (file_state conn)) }
    ensures mode { IfOk result (λ conn. conn.in_transaction ≡ false) }
    ensures unread { IfErr result (IsUnread D.Disk files) }
{
    let Ok(keys) = RandomState::new(rt) else {
        return Err(files);
    };
    open_files(rt.alloc(), files, Options::new(keys.hash_one(&0u8)))
}
