//! The files that a run closed.

ghost use Rattle.std.specs.Prelude.{◌≡◌, [], ◌∷◌, ◌++◌};
ghost use Rattle.chain_files.specs.Files.{files_in};

use http_server::Log;
use sqlite::Files;
use sqlite_disk::Disk;

/// Files that were closed, the oldest of the chain first. Only clauses read them: nothing is kept when it runs, so one file
/// is open at a time.
#[derive(Drop)]
pub struct ClosedChain<D: Disk + Drop> {
    files: Log<Files<D>, ()>,
}

impl<D: Disk + Drop> ClosedChain<D> {
    /// None yet.
    pub fn new() -> ClosedChain<D>
        ensures { files_in result ≡ [] }
    {
        ClosedChain { files: Log::new() }
    }
}

/// Adds the files of one place, and lets them go.
pub fn add_closed<D: Disk + Drop>(closed: &mut ClosedChain<D>, files: Files<D>)
    ensures { files_in closed.new ≡ files_in closed.old ++ files ∷ [] }
{
    closed.files = closed.files.and(&files, &());
}
