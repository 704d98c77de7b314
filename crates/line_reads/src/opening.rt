//! The lists in the file at a path, which is closed again.

ghost use Rattle.std.specs.Prelude.{◌≡◌, ◌⊎◌, IfErr, IfOk, IsTrue};
ghost use Rattle.sqlite_wal.specs.Files.{image_at};
ghost use Rattle.desk_file.specs.Unread.{IsJustOpened};
ghost use Rattle.desk_types.specs.Desk.{HasRoom};
ghost use Rattle.feeder_state.specs.State.{Represents};
ghost use Rattle.line_schema.specs.declared.fault.OpenFault.TheVariants as Fault;
ghost use Rattle.line_reads.specs.Doubts.{HasDoubts};
ghost use Rattle.line_reads.specs.Reading.{HasFault, HasLine, KeepsFile};

use desk_file::{is_empty_at, open_at};
use doubt_file::read_doubts;
use feeder_state::StateDesk;
use line_doubt::Doubt;
use line_file::{Line, ListFault, read_line};
use line_schema::OpenFault;
use sqlite::{FileFrom, Files, Start};
use sqlite_disk::Disk;

/// Reads both lists of the file at a path, and closes it. None is made. `T` is its contents when it is opened, and
/// `with_rows` asks for the rows of the book too.
pub fn read_file<T: Start>(
    rt: &HostRuntime,
    path: &str,
    start: T,
    with_rows: bool,
) -> (
    Result<Line<StateDesk>, ListFault>,
    Option<Files<FileFrom<T>>>,
)
    ensures lists { IfOk result.0
        (HasLine with_rows ⟦<FileFrom<T> as Disk>⟧ (image_at T.Start) result.1) }
    ensures fault { IfErr result.0
        (HasFault ⟦<FileFrom<T> as Disk>⟧ (image_at T.Start) result.1) }
    ensures room { IfOk result.0 (λ line. HasRoom Represents line.desk 0) }
    ensures kept { KeepsFile ⟦<FileFrom<T> as Disk>⟧ (image_at T.Start) result.1 }
{
    match open_file(rt, path, start) {
        Ok(files) => {
            let (line, files) = read_line(rt, files, with_rows);
            (line, Some(files))
        }
        Err(fault) => (Err(ListFault::History(fault)), None),
    }
}

/// Finds the pieces in doubt by both lists of the file at a path, with a tolerance of so many pieces at each splice, and
/// closes it. `T` is its contents when it is opened.
pub fn find_doubts<T: Start>(
    rt: &HostRuntime,
    path: &str,
    start: T,
    within: u32,
) -> (Result<Vec<Doubt>, ListFault>, Option<Files<FileFrom<T>>>)
    ensures doubts { IfOk result.0 (λ found.
        HasDoubts within ⟦<FileFrom<T> as Disk>⟧ (image_at T.Start) result.1 found.items) }
    ensures fault { IfErr result.0
        (HasFault ⟦<FileFrom<T> as Disk>⟧ (image_at T.Start) result.1) }
    ensures kept { KeepsFile ⟦<FileFrom<T> as Disk>⟧ (image_at T.Start) result.1 }
{
    match open_file(rt, path, start) {
        Ok(files) => {
            let (found, files) = read_doubts(rt, files, within);
            (found, Some(files))
        }
        Err(fault) => (Err(ListFault::History(fault)), None),
    }
}

fn open_file<T: Start>(
    rt: &HostRuntime,
    path: &str,
    start: T,
) -> Result<Files<FileFrom<T>>, OpenFault>
    ensures log { IfOk result (λ files. IsTrue (⟦<FileFrom<T> as Disk>⟧.is_usable files.log)) }
    ensures db { IfOk result (λ files. IsTrue (⟦<FileFrom<T> as Disk>⟧.is_usable files.db)) }
    ensures fresh { IfOk result (IsJustOpened ⟦<FileFrom<T> as Disk>⟧ (image_at T.Start)) }
    ensures err { IfErr result (λ fault. (fault ≡ Fault.Unavailable) ⊎ (fault ≡ Fault.NotADesk)) }
{
    if is_empty_at(rt, path)? {
        return Err(OpenFault::NotADesk);
    }
    match open_at(rt, path, start) {
        Ok(files) => Ok(files),
        Err(_) => Err(OpenFault::Unavailable),
    }
}
