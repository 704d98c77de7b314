//! Reading the file of an import.

ghost use Rattle.std.specs.Prelude.{IfOk};
ghost use Rattle.desk_feed.specs.Folder.{IsRead};

use desk_types::LONGEST_INPUT;
use std::alloc::Global;
use std::io;
use std::io::{ErrorKind, Read};

/// The most bytes read from a file: one more than the limit.
const MOST_READ: u64 = LONGEST_INPUT as u64 + 1;

/// A folder of files.
pub trait Folder {
    ghost use Rattle.std.specs.Prelude.{◌≡◌, ℕ, List, Option, IfOk, IfErr};
    ghost use Rattle.desk_feed.specs.Folder.{IsRead};
    ghost use Rattle.desk_feed.specs.declared.reading.UnreadFile.TheVariants.{Failed};

    /// The content of the file at a path, if known.
    ghost holds: { Self → List ℕ → Option (List ℕ) };

    /// Whether opening or reading the file at a path may fail.
    ghost may_fail: { Self → List ℕ → Type 0 };

    /// Reads the file at a path, up to one byte over the limit.
    fn read(&self, alloc: Global, path: &str) -> Result<Vec<u8>, UnreadFile>
        // One byte over the limit is enough to answer that the file is too long.
        ensures bytes { IfOk result (λ bytes. IsRead (holds self.now path.now) bytes.items) }
        // A file that can always be read is never reported as `Failed`.
        ensures failed { IfErr result (λ unread. unread ≡ Failed → may_fail self.now path.now) };
}

/// Why a file can't be read.
#[derive(Clone, Copy, PartialEq, Eq)]
pub enum UnreadFile {
    /// Opening or reading failed.
    Failed,
    /// There was too little memory.
    NoMemory,
}

impl From<io::Error> for UnreadFile {
    ghost use Rattle.std.specs.Prelude.{◌≡◌};
    ghost use Rattle.std.specs.IoError.{error_kind};
    ghost use Rattle.desk_feed.specs.Folder.{unread_by};

    ghost from_gives = { λ error unread. unread ≡ unread_by (error_kind error) };

    fn from(error: io::Error) -> UnreadFile {
        if error.kind() == ErrorKind::OutOfMemory {
            UnreadFile::NoMemory
        } else {
            UnreadFile::Failed
        }
    }
}

/// Reads an open file, up to one byte over the limit.
pub fn read_file<R: Read + Drop>(alloc: Global, file: R) -> Result<Vec<u8>, UnreadFile>
    ensures { IfOk result (λ bytes. IsRead (R.remaining file) bytes.items) }
{
    let mut bytes = Vec::new(alloc);
    file.take(MOST_READ).read_to_end(&mut bytes)?;
    Ok(bytes)
}
