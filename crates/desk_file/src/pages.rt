//! A connection to two files of any store. New files get small pages.

ghost use Rattle.std.specs.Prelude.{◌≡◌, [], false, IsTrue, IfOk, IfErr};
ghost use Rattle.sqlite_pool.specs.Opening.{IsBlankFile};
ghost use Rattle.sqlite_store.specs.FileStore.{view};
ghost use Rattle.sqlite_store.specs.Unopened.{state_of, files_of, wanted_by};
ghost use Rattle.sqlite_wal.specs.PageSize.{bytes_of};
ghost use Rattle.sqlite.specs.Files.{file_state, image_of, IsOpened};
ghost use Rattle.sqlite.specs.State.{HasCleanDisk};
ghost use Rattle.sqlite_wal.specs.Reads.{AreClean};
ghost use Rattle.desk_file.specs.Found.{FindsAs, IsMadeOf};
ghost use Rattle.desk_file.specs.Unread.{IsUnread};

use desk_types::PAGE_SIZE;
use sqlite::{Connection, FileStore, Files, Options};
use sqlite_disk::Disk;
use sqlite_pager::Pager;
use sqlite_pool::probe_blank;
use sqlite_store::Unopened;
use sqlite_wal::PageSize;
use std::alloc::{AllocFailed, Global};

/// Opens the database in the files, or makes it, even if an earlier creation was interrupted. Files without a connection
/// are returned.
pub fn open_files<D: Disk + Drop>(
    alloc: Global,
    mut files: Files<D>,
    options: Options,
) -> Result<Connection<FileStore<D>>, Files<D>>
    // A file that was just opened is usable: `open_at` says so of both files.
    requires log { IsTrue (D.Disk.is_usable files.log) }
    requires db { IsTrue (D.Disk.is_usable files.db) }
    ensures opened { IfOk result (λ conn. HasCleanDisk (file_state conn) → IsOpened conn) }
    ensures found { IfOk result (λ conn. HasCleanDisk (file_state conn)
        → FindsAs (image_of D.Disk files) (file_state conn)) }
    ensures mode { IfOk result (λ conn. conn.in_transaction ≡ false) }
    ensures unread { IfErr result (IsUnread D.Disk files) }
{
    let size = PageSize::new(PAGE_SIZE).unwrap();
    match probe_blank(alloc, &mut files, size, false) {
        Ok(true) => {
            let store = match new_store(alloc, files, size, options) {
                Ok(store) => store,
                Err(files) => return Err(files),
            };
            match Connection::over(alloc, store) {
                Ok(conn) => Ok(conn),
                Err((_error, store)) => Err(store.close()),
            }
        }
        Ok(false) => match Connection::open_files(alloc, files, options) {
            Ok(conn) => Ok(conn),
            Err((_error, left)) => Err(left.into_files()),
        },
        Err(_) => Err(files),
    }
}

fn new_store<D: Disk + Drop>(
    alloc: Global,
    files: Files<D>,
    size: PageSize,
    options: Options,
) -> Result<FileStore<D>, Files<D>>
    requires log { IsTrue (D.Disk.is_usable files.log) }
    requires db { IsTrue (D.Disk.is_usable files.db) }
    ensures made { IfOk result (λ store. IsTrue (view store).is_clean → IsMadeOf files store) }
    ensures left { IfErr result
        (λ left. AreClean D.Disk left.log left.db → AreClean D.Disk files.log files.db) }
{
    let fresh = match unopened_files(alloc, files, size, options) {
        Ok(fresh) => fresh,
        Err(files) => return Err(files),
    };
    match fresh.create() {
        Ok(store) => Ok(store),
        Err((_error, left)) => Err(left.close()),
    }
}

fn unopened_files<D: Disk + Drop>(
    alloc: Global,
    files: Files<D>,
    size: PageSize,
    options: Options,
) -> Result<Unopened<D>, Files<D>>
    ensures files { IfOk result (λ it. files_of it ≡ (files.log, files.db)) }
    ensures none { IfOk result (λ it. wanted_by it ≡ []) }
    ensures back { IfErr result (λ left. (left.log ≡ files.log) × (left.db ≡ files.db)) }
{
    let pager = match Pager::new(alloc, files, size, options) {
        Ok(pager) => pager,
        Err(AllocFailed { value }) => return Err(value),
    };
    match Unopened::new(alloc, pager, &[]) {
        Ok(fresh) => Ok(fresh),
        Err(AllocFailed { value }) => Err(value.close()),
    }
}
