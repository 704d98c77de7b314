//! Why a machine may not work.

use crate::note::Note;
use desk_types::{Id, Refusal};

/// A reason why a machine may not work. Something closes each.
#[derive(PartialEq, Eq, Drop)]
pub enum Cause {
    /// No board is in work on the machine.
    NoWork,
    /// The entry of the book is open.
    Open(Note),
    /// No product with a sheet is selected.
    NoSheet,
    /// A start of work would refuse the slot: `SlotEmpty`, `WrongPart`, `NotBaked` or `Expired`.
    AtSlot {
        slot: Id,
        reel: Option<Id>,
        refusal: Refusal,
    },
    /// The front reel of the slot or its lot is held, by the entry with this number.
    Held {
        slot: Id,
        reel: Id,
        number: u32,
    },
}
