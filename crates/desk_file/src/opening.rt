//! A desk's file: making, opening, migrating and closing it.

ghost use Rattle.std.specs.Prelude.{◌≡◌, ◌≢◌, ◌≤◌, ◌==◌, ◌||◌, [], true, false, Some, None, IfOk, IfErr, IfNone, IfSome, MatchResult};
ghost use Rattle.std.specs.Fs.{IsFile, file_type, metadata_len};
ghost use Rattle.sqlite_wal.specs.Files.{image_at};
ghost use Rattle.sqlite.specs.State.{HasCleanDisk};
ghost use Rattle.sqlite.specs.Files.{file_state, over_files, IsOpened};
ghost use Rattle.desk_file.specs.Found.{FindsAs};
ghost use Rattle.desk_types.specs.declared.limits.TheConstants.{MOST_ENTRIES};
ghost use Rattle.desk_types.specs.declared.rules.Rules.TheVariants.{Two};
ghost use Rattle.desk_types.specs.History.{History};
ghost use Rattle.sqlite_trees.specs.Tree.{Trees};
ghost use Rattle.line_tables.specs.Rows.{HoldsAt, blank};
ghost use Rattle.line_schema.specs.declared.fault.OpenFault.TheVariants as Fault;
ghost use Rattle.line_schema.specs.Stands.{Kept, Stands, conn_of, state_of};
ghost use Rattle.desk_file.specs.Files.{Begins, Closes, Copies, FindsNoTable, HasOursFirst, KeepsTables, Leaves, MigratedFrom};
ghost use Rattle.desk_file.specs.Opened.{has_opened, is_open_still};
ghost use Rattle.desk_file.specs.Refused.{IsFaultFor, IsFaultIn, IsRefused, IsUnfound, LeavesMade, RefusesMigration, RefusesRun};

use crate::path::{FileOpener, open_path};
use crate::refusal::RefusedFile;
use line_schema::{LineStore, OpenFault};
use sqlite::{Connection, FileFrom, FileStore, Files, Start};
use sqlite_disk::Disk;
use state_rows::KeepsRows;
use std::fs;
use std::fs::Metadata;
use std::io::ErrorKind;

/// The store of a desk in a file. `T` is the contents of the file when it was opened.
pub type FileDesk<T, D> = LineStore<FileStore<FileFrom<T>>, D>;

/// The connection to the file of a desk.
pub type DeskFile<T> = Connection<FileStore<FileFrom<T>>>;

/// Opens the desk in the file at a path. If the file is missing or empty, a desk with an empty history is made if
/// `make` gives its greatest number, from 1 to 1,000,000,000; otherwise the fault is NotADesk. A path that is no
/// regular file, or can't be opened, is Unavailable. A refused file is returned unchanged, and so are the files in which no
/// database can be opened.
pub fn open_desk<T: Start, D: KeepsRows + Drop>(
    rt: &HostRuntime,
    path: &str,
    opener: &mut FileOpener<T>,
    make: Option<u32>,
) -> Result<FileDesk<T, D>, RefusedFile<FileFrom<T>>>
    requires range { IfSome make (λ greatest. (1 ≤ greatest) × (greatest ≤ MOST_ENTRIES)) }
    ensures stands { IfOk result
        (λ store. (L : Kept) × Stands over_files D.Stands store L) }
    ensures refused { IfErr result (RefusesRun (image_at T.Start) make) }
    // Says nothing of files with tables before the desk's, or with tables that refer to them.
    ensures begins { IfOk result
        (λ store. HasCleanDisk (state_of over_files store) → HasOursFirst (image_at T.Start)
        → (greatest : _) × (H : History) × Begins (image_at T.Start) make greatest H
        × Stands over_files D.Stands store
        (record { greatest = greatest; history = H; own = true })) }
    // Once a new desk is made, a crash leaves all of its tables, and never a file with some.
    ensures alone { IfOk result
        (λ store. HasCleanDisk (state_of over_files store) → FindsNoTable (image_at T.Start)
        → IfSome make (λ greatest. (trees : Trees) → (state_of over_files store).may_leave trees
        → HoldsAt (blank greatest) trees)) }
    // Files that were opened come back, in the store or in the refusal, so they can be closed.
    ensures told { MatchResult result (λ _. has_opened opener.new ≡ true)
        (λ r. has_opened opener.new ≡ (is_open_still r || has_opened opener.old)) }
{
    let is_blank = is_blank::<T>(rt, path)?;
    match make {
        Some(greatest) if is_blank => new_desk(rt, path, opener, greatest),
        None if is_blank => Err(RefusedFile {
            fault: OpenFault::NotADesk,
            file: None,
            unread: None,
        }),
        _ => kept_desk(rt, path, opener),
    }
}

/// Migrates the desk's file at a path from version 1 to version 2. First each command is judged again by rules One, and
/// the tables are compared. A missing or empty file is NotADesk, and none is made. A refused file is returned
/// unchanged. After Unavailable a crash may leave it in version 2.
pub fn migrate_desk<T: Start, D: KeepsRows + Drop>(
    rt: &HostRuntime,
    path: &str,
    opener: &mut FileOpener<T>,
) -> Result<DeskFile<T>, RefusedFile<FileFrom<T>>>
    ensures migrated { IfOk result
        (λ conn. HasCleanDisk (file_state conn) → HasOursFirst (image_at T.Start)
        → MigratedFrom (image_at T.Start) conn) }
    ensures refused { IfErr result (RefusesMigration (image_at T.Start)) }
    ensures told { MatchResult result (λ _. has_opened opener.new ≡ true)
        (λ r. has_opened opener.new ≡ (is_open_still r || has_opened opener.old)) }
{
    if is_blank::<T>(rt, path)? {
        return Err(RefusedFile {
            fault: OpenFault::NotADesk,
            file: None,
            unread: None,
        });
    }
    let mut conn = connect(rt, path, opener)?;
    match LineStore::<FileStore<FileFrom<T>>, D>::migrate(rt.alloc(), &mut conn) {
        Ok(_) => Ok(conn),
        Err(fault) => Err(RefusedFile {
            fault,
            file: Some(conn),
            unread: None,
        }),
    }
}

/// Closes a desk's file. All commits are then in it, without its log. The files are returned even if they could not be
/// closed; the caller drops them.
pub fn close_desk<T: Start, D: KeepsRows + Drop>(
    desk: FileDesk<T, D>,
) -> Result<Files<FileFrom<T>>, (OpenFault, Files<FileFrom<T>>)>
    ensures whole { IfOk result (Closes D.Stands desk) }
    ensures copied { IfOk result (Copies (conn_of desk)) }
    ensures err { IfErr result (λ e. e.0 ≡ Fault.Unavailable) }
    // After a failed close the file holds what a crash could have left before it, and no more.
    ensures left { IfErr result (λ e. Leaves (conn_of desk) e.1) }
{
    let conn = desk.into_connection();
    close_file(conn)
}

/// Closes a desk's file by its connection, like `close_desk`.
pub fn close_file<D: Disk + Drop>(
    conn: Connection<FileStore<D>>,
) -> Result<Files<D>, (OpenFault, Files<D>)>
    ensures whole { IfOk result (KeepsTables conn) }
    ensures copied { IfOk result (Copies conn) }
    ensures err { IfErr result (λ e. e.0 ≡ Fault.Unavailable) }
    ensures left { IfErr result (λ e. Leaves conn e.1) }
{
    let _obeyed = conn.schema();
    match conn.close_files() {
        Ok(files) => Ok(files),
        Err((_, store)) => Err((OpenFault::Unavailable, store.close())),
    }
}

/// Returns whether the path has no file, or an empty one.
fn is_blank<T: Start>(rt: &HostRuntime, path: &str) -> Result<bool, RefusedFile<FileFrom<T>>>
    ensures { IfErr result
        (λ r. r ≡ record { fault = Fault.Unavailable; file = None; unread = None }) }
{
    match is_empty_at(rt, path) {
        Ok(empty) => Ok(empty),
        Err(_) => Err(not_looked_at()),
    }
}

/// Returns whether the path has no file, or an empty one. A path that is no regular file is Unavailable.
pub fn is_empty_at(rt: &HostRuntime, path: &str) -> Result<bool, OpenFault>
    ensures { IfErr result (λ fault. fault ≡ Fault.Unavailable) }
{
    match fs::metadata(rt, path) {
        Ok(found) => match has_no_byte(&found) {
            Some(empty) => Ok(empty),
            None => Err(OpenFault::Unavailable),
        },
        Err(error) if error.kind() == ErrorKind::NotFound => Ok(true),
        _ => Err(OpenFault::Unavailable),
    }
}

/// Returns whether a file is empty. A path that is no regular file is not.
fn has_no_byte(found: &Metadata) -> Option<bool>
    ensures none { IfNone result (¬ IsFile (file_type found.now)) }
    ensures some { IfSome result
        (λ blank. IsFile (file_type found.now) × (blank ≡ (metadata_len found.now == 0))) }
{
    if found.is_file() {
        Some(found.len() == 0)
    } else {
        None
    }
}

fn not_looked_at<T: Start>() -> RefusedFile<FileFrom<T>>
    ensures { result ≡ record { fault = Fault.Unavailable; file = None; unread = None } }
{
    RefusedFile {
        fault: OpenFault::Unavailable,
        file: None,
        unread: None,
    }
}

/// Makes a desk with an empty history in the file, which is made if missing.
fn new_desk<T: Start, D: KeepsRows + Drop>(
    rt: &HostRuntime,
    path: &str,
    opener: &mut FileOpener<T>,
    greatest: u32,
) -> Result<FileDesk<T, D>, RefusedFile<FileFrom<T>>>
    requires range { (1 ≤ greatest) × (greatest ≤ MOST_ENTRIES) }
    ensures refused { IfErr result (RefusesRun (image_at T.Start) (Some greatest)) }
    ensures stands { IfOk result
        (λ store. (L : Kept) × Stands over_files D.Stands store L) }
    ensures begins { IfOk result
        (λ store. HasCleanDisk (state_of over_files store) → HasOursFirst (image_at T.Start)
        → Begins (image_at T.Start) (Some greatest) greatest []
        × Stands over_files D.Stands store
        (record { greatest = greatest; history = []; own = true })) }
    ensures alone { IfOk result
        (λ store. HasCleanDisk (state_of over_files store) → FindsNoTable (image_at T.Start)
        → (trees : Trees) → (state_of over_files store).may_leave trees
        → HoldsAt (blank greatest) trees) }
    ensures told { MatchResult result (λ _. has_opened opener.new ≡ true)
        (λ r. has_opened opener.new ≡ (is_open_still r || has_opened opener.old)) }
{
    let conn = connect(rt, path, opener)?;
    match LineStore::create(rt.alloc(), conn, greatest) {
        Ok(store) => Ok(store),
        Err((fault, conn)) => Err(RefusedFile {
            fault,
            file: Some(conn),
            unread: None,
        }),
    }
}

fn kept_desk<T: Start, D: KeepsRows + Drop>(
    rt: &HostRuntime,
    path: &str,
    opener: &mut FileOpener<T>,
) -> Result<FileDesk<T, D>, RefusedFile<FileFrom<T>>>
    ensures stands { IfOk result
        (λ store. (L : Kept) × Stands over_files D.Stands store L) }
    ensures begins { IfOk result
        (λ store. HasCleanDisk (state_of over_files store) → HasOursFirst (image_at T.Start)
        → (greatest : _) × (H : History) × Begins (image_at T.Start) None greatest H
        × Stands over_files D.Stands store
        (record { greatest = greatest; history = H; own = true })) }
    ensures refused { IfErr result
        (IsRefused (image_at T.Start) (IsFaultIn (image_at T.Start) Two) (λ _ _. ⊥) ⊥) }
    ensures never { IfErr result (λ r. r.fault ≢ Fault.NotBlank) }
    ensures told { MatchResult result (λ _. has_opened opener.new ≡ true)
        (λ r. has_opened opener.new ≡ (is_open_still r || has_opened opener.old)) }
{
    let conn = connect(rt, path, opener)?;
    match LineStore::open(rt.alloc(), conn) {
        Ok(store) => Ok(store),
        Err((fault, conn)) => Err(RefusedFile {
            fault,
            file: Some(conn),
            unread: None,
        }),
    }
}

/// Connects to the file, which is made if missing.
fn connect<T: Start>(
    rt: &HostRuntime,
    path: &str,
    opener: &mut FileOpener<T>,
) -> Result<DeskFile<T>, RefusedFile<FileFrom<T>>>
    ensures opened { IfOk result (λ conn. HasCleanDisk (file_state conn) → IsOpened conn) }
    ensures found { IfOk result (λ conn. HasCleanDisk (file_state conn)
        → FindsAs (image_at T.Start) (file_state conn)) }
    ensures mode { IfOk result (λ conn. conn.in_transaction ≡ false) }
    ensures err { IfErr result (IsUnfound (image_at T.Start)) }
    ensures told { MatchResult result (λ _. has_opened opener.new ≡ true)
        (λ r. has_opened opener.new ≡ (is_open_still r || has_opened opener.old)) }
{
    match open_path(rt, path, opener) {
        Ok(conn) => Ok(conn),
        Err(unread) => Err(RefusedFile {
            fault: OpenFault::Unavailable,
            file: None,
            unread,
        }),
    }
}
