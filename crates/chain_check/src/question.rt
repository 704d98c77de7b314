//! What is asked of the files of a chain.

use desk_types::{Id, IdList};

/// Whose pieces are looked for.
#[derive(Drop)]
pub enum Subject {
    /// A lot, or its pieces of one part.
    Lot { lot: Id, part: Option<Id> },
    Board(Id),
    /// Any of these reels.
    Reels(IdList),
}

/// What is asked.
#[derive(Drop)]
pub enum Question {
    /// Whether the files are a chain: a row for each file.
    Chain,
    /// The boards with a piece of a lot or of one of the reels, or the lots with a piece on a board.
    Names(Subject),
    /// Each piece, with all that is known of it.
    Pieces(Subject),
}
