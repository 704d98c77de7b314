//! The files of a run, which are opened one after the other.

ghost use Rattle.std.specs.Prelude.{◌≡◌, ◌⊎◌, ◌++◌, [], ℕ, List, None, IsTrue, IfOk, IfErr, is_ok};
ghost use Rattle.sqlite_wal.specs.Recovery.{Image};
ghost use Rattle.line_schema.specs.declared.fault.OpenFault.TheVariants as Fault;
ghost use Rattle.desk_file.specs.Unread.{IsJustOpened};
ghost use Rattle.chain_files.specs.Opened.{if_opened};

use desk_feed::{Folder, UnreadFile, read_file};
use desk_file::{is_empty_at, open_at};
use http_server::Log;
use line_schema::OpenFault;
use sqlite::{FileFrom, Files, Start, Unknown};
use sqlite_disk::Disk;
use std::alloc::Global;
use std::fs::File;

/// Opens the files of a run, one after the other. They have one type, and contents of their own: `image` is what the file
/// with a path held when it was opened at each place of the command line, from 0. `opened` has the paths of the files that
/// were opened, in their order. Only clauses read it: whoever opens a file has to show what became of it.
pub trait Opener<'a> {
    type File: Disk + Drop;

    ghost image: { Self → List ℕ → ℕ → Image };

    ghost opened: { Self → List (List ℕ) };

    /// Opens the file at a path, and its log. None is made. Nothing was done to them yet.
    fn open(
        &mut self,
        rt: &HostRuntime,
        place: u64,
        path: &'a str,
    ) -> Result<Files<Self::File>, OpenFault>
        ensures log { IfOk result
            (λ files. IsTrue (⟦<Self::File as Disk>⟧.is_usable files.log)) }
        ensures db { IfOk result
            (λ files. IsTrue (⟦<Self::File as Disk>⟧.is_usable files.db)) }
        ensures fresh { IfOk result
            (IsJustOpened ⟦<Self::File as Disk>⟧ (image self.old path.now place)) }
        ensures err { IfErr result
            (λ fault. (fault ≡ Fault.Unavailable) ⊎ (fault ≡ Fault.NotADesk)) }
        ensures told { opened self.new ≡ opened self.old ++ if_opened (is_ok result) path.now }
        ensures same { image self.new ≡ image self.old };
}

/// The files of the system. Nothing is known of their contents, and each may fail.
#[derive(Drop)]
pub struct SystemFiles<'a> {
    rt: &'a HostRuntime,
    opened: Log<&'a str, ()>,
}

impl<'a> SystemFiles<'a> {
    pub fn new(rt: &'a HostRuntime) -> SystemFiles<'a> {
        SystemFiles {
            rt,
            opened: Log::new(),
        }
    }
}

impl<'a> Opener<'a> for SystemFiles<'a> {
    ghost use Rattle.std.specs.Prelude.{map};
    ghost use Rattle.sqlite_wal.specs.Files.{image_at};

    type File = FileFrom<Unknown>;

    ghost image = { λ _ _ _. image_at ⟦<Unknown as Start>⟧ };

    ghost opened = { λ files. map (λ (path, _). path.now) files.opened.items };

    fn open(
        &mut self,
        rt: &HostRuntime,
        _place: u64,
        path: &'a str,
    ) -> Result<Files<FileFrom<Unknown>>, OpenFault> {
        if is_empty_at(rt, path)? {
            return Err(OpenFault::NotADesk);
        }
        match open_at(rt, path, Unknown) {
            Ok(files) => {
                self.opened = self.opened.and(&path, &());
                Ok(files)
            }
            Err(_) => Err(OpenFault::Unavailable),
        }
    }
}

impl Folder for SystemFiles<'_> {
    ghost use Rattle.std.specs.Prelude.{None, ⊤};

    ghost holds = { λ _ _. None };

    ghost may_fail = { λ _ _. ⊤ };

    fn read(&self, alloc: Global, path: &str) -> Result<Vec<u8>, UnreadFile> {
        read_file(alloc, File::open(self.rt, path)?)
    }
}
