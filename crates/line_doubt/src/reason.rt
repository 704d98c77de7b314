//! Pieces in doubt, and why.

use desk_types::Placement;

/// Why a placed piece is in doubt.
#[derive(Clone, Copy, PartialEq, Eq)]
pub enum Reason {
    /// The entry of the book with this number is a refused handling of the slot or a difference
    /// there.
    Entry { number: u64 },
    /// The entry of the book with this number says that the machine took a piece of this install,
    /// slot and reel from the neighbor on the tape.
    Boundary { number: u64 },
    /// The command of the history with this number is a load, a splice or an unload of the slot. It
    /// and the install came in another order than by their own minutes.
    Late { number: u64 },
    /// The piece is near a splice.
    Splice,
}

/// A placed piece in doubt, with the first reason.
#[derive(Clone, Copy, PartialEq, Eq)]
pub struct Doubt {
    pub piece: Placement,
    pub reason: Reason,
}
