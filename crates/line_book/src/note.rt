//! Entries of the book.

use desk_types::{Id, Text};
use std::alloc::AllocError;

/// What a hold or a release names.
#[derive(Clone, Copy, PartialEq, Eq)]
pub enum Stock {
    Reel(Id),
    Lot(Id),
}

/// What an entry of the book says. `word` is the refusal or the fault.
#[derive(Clone, Copy, PartialEq, Eq)]
pub enum Matter {
    /// A load, a splice or an unload of the slot was refused. An unload names no reel.
    Handling {
        machine: Id,
        slot: Id,
        reel: Option<Id>,
        word: Id,
    },
    /// The same, of a slot that the selected sheet didn't have.
    Stray {
        machine: Id,
        slot: Id,
        reel: Option<Id>,
        word: Id,
    },
    /// A start, a completion, an install or a scrap was refused. The slot is the one that the
    /// refusal names; a scrap names no board.
    Work {
        machine: Id,
        slot: Option<Id>,
        board: Option<Id>,
        word: Id,
    },
    /// A message was faulty: one that would have been one of those seven, or that can't be read.
    Unread {
        word: Id,
    },
    /// For a piece of the accepted install, the machine named another reel than the desk did.
    Differs {
        machine: Id,
        slot: Id,
        board: Id,
        reel: Id,
        desk_reel: Id,
    },
    /// The same, and the machine's reel is the desk's neighbor on the same tape.
    Boundary {
        machine: Id,
        slot: Id,
        board: Id,
        reel: Id,
        desk_reel: Id,
    },
    /// The machine named the reels of an accepted install in a form that can't be compared.
    Uncompared {
        machine: Id,
        board: Id,
    },
    /// The receipt of the reel has the attribute with this name.
    Attribute {
        reel: Id,
        name: Id,
    },
    /// Somebody decided about the entry with this number.
    Decision {
        about: u32,
    },
    /// Somebody holds the reel or the lot.
    Hold {
        stock: Stock,
    },
    /// Somebody releases the reel or the lot.
    Release {
        stock: Stock,
    },
    /// The file was made for a line.
    Made,
    /// The file was begun from a sealed file.
    Begun,
    /// The file was put back from a copy.
    Restored,
}

/// An entry of the book.
#[derive(PartialEq, Eq, Drop)]
pub struct Note {
    /// From 1, without gaps.
    pub number: u32,
    /// The number of accepted commands before it. An entry about an install has the number of
    /// commands before that install.
    pub after: u32,
    /// The number of the entry of the sealed file that it carries on, or 0.
    pub carries: u32,
    pub matter: Matter,
    /// The stored text of a refused command, or a whole faulty message; nothing in other entries.
    pub text: Text,
}

impl Clone for Note {
    ghost use Rattle.std.specs.Prelude.{◌≡◌};

    ghost is_clone = { λ x y. y ≡ x };

    fn clone(&self) -> Result<Note, AllocError> {
        Ok(Note {
            number: self.number,
            after: self.after,
            carries: self.carries,
            matter: self.matter,
            text: self.text.clone()?,
        })
    }
}
