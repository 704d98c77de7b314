//! The command of an import.

ghost use Rattle.imports.specs.Fault.{IsSaid};
ghost use Rattle.imports.specs.Import.{command_said};

use crate::fault::ImportFault;
use crate::file::{read_counts, read_setup};
use desk_types::{Id, Minute, Stamped};
use std::alloc::Global;

/// The kind of rows in a file.
#[derive(Clone, Copy, PartialEq, Eq)]
pub enum Content {
    /// A product's sheet on a machine.
    Sheet { product: Id, machine: Id },
    /// A count of reels.
    Counts,
}

/// A command except for its rows, which come from the file. The rest is in the envelope of a
/// message, and in the options or parameters of an import.
#[derive(Clone, Copy, PartialEq, Eq)]
pub struct Import {
    pub uid: Id,
    pub source: Id,
    /// The minute of the sender's clock.
    pub minute: Minute,
    pub content: Content,
}

impl Import {
    /// Returns the command with the rows in the file's bytes.
    #[tactic(auto, unfolding(crate::specs::Import::command_said))]
    pub fn command(&self, alloc: Global, bytes: &[u8]) -> Result<Stamped, ImportFault>
        // The UniqueID, the source and the minute come from the import, never from the file.
        ensures { IsSaid (command_said self.now bytes.now) result }
    {
        let command = match self.content {
            Content::Sheet { product, machine } => read_setup(alloc, bytes, product, machine)?,
            Content::Counts => read_counts(alloc, bytes)?,
        };
        Ok(Stamped {
            uid: self.uid,
            source: self.source,
            minute: self.minute,
            command,
        })
    }
}
