//! The differences between an old desk and a new one.

use desk_types::{Id, Left, Minute};

/// A difference that keeps a new desk from carrying on the old one.
#[derive(Clone, Copy)]
pub enum Difference {
    /// The desk minutes.
    Minute {
        old: Option<Minute>,
        new: Option<Minute>,
    },
    /// One desk has the part, and the other doesn't.
    Part {
        part: Id,
    },
    /// One desk has the alternate, and the other doesn't.
    Alternate {
        part: Id,
        alternate: Id,
    },
    /// The sheets of the product on the machine.
    Sheet {
        product: Id,
        machine: Id,
    },
    /// The products selected on the machine.
    Selection {
        machine: Id,
    },
    /// The board is in work on the old desk.
    OldWork {
        board: Id,
    },
    /// The board is in work on the new desk.
    NewWork {
        board: Id,
    },
    /// Only the new desk has started the board.
    Board {
        board: Id,
    },
    /// Only the new desk has received the reel.
    Reel {
        reel: Id,
    },
    /// The pieces left on the reel.
    Remaining {
        reel: Id,
        old: u64,
        new: u64,
    },
    /// The pieces left on the reel on the old desk, and those of its receipt on the new one.
    Received {
        reel: Id,
        old: u64,
        new: u64,
    },
    /// The part of the reel.
    ReelPart {
        reel: Id,
        old: Id,
        new: Id,
    },
    /// The lot of the reel.
    Lot {
        reel: Id,
        old: Id,
        new: Id,
    },
    /// The moisture level of the reel, or the minutes on its label.
    Level {
        reel: Id,
    },
    /// Whether the reel is out of its bag.
    Open {
        reel: Id,
        old: bool,
        new: bool,
    },
    /// The reel's remaining floor life at the desk minute.
    Life {
        reel: Id,
        old: Left,
        new: Left,
    },
    /// The live reels of the slot.
    Slot {
        machine: Id,
        slot: Id,
    },
}
