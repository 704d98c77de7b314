//! The messages that machines send.

use crate::count::Counts;
use crate::id::Id;
use crate::level::Moisture;
use crate::number::{Minute, Quantity};
use crate::sheet::{Designators, SheetRows};
use std::alloc::AllocError;

/// The request in a message. The message kinds are this project's own profile; the envelope follows
/// IPC-CFX.
#[derive(PartialEq, Eq, Drop)]
pub enum Command {
    /// Defines a part, so that it can be received and appear on sheets.
    PartDefined {
        part: Id,
    },
    /// Allows the alternate in place of the part, in this direction only and without chaining.
    AlternateAllowed {
        part: Id,
        alternate: Id,
    },
    /// Defines or replaces a product's sheet on a machine.
    SheetDefined {
        product: Id,
        machine: Id,
        rows: SheetRows,
    },
    /// Selects the product that the machine makes from now on.
    ProductSelected {
        machine: Id,
        product: Id,
    },
    /// Receives a sealed reel.
    ReelReceived {
        reel: Id,
        part: Id,
        lot: Id,
        moisture: Moisture,
        quantity: Quantity,
    },
    /// Takes the reel out of its bag.
    ReelOpened {
        reel: Id,
    },
    /// Seals the reel in its bag, which stops its exposure.
    ReelSealed {
        reel: Id,
    },
    /// Records that the reel was baked and sealed, which resets its exposure to 0.
    ReelBaked {
        reel: Id,
    },
    /// Starts a new tape on the slot. The reel is out of its bag until it is sealed or baked.
    MaterialsLoaded {
        machine: Id,
        slot: Id,
        reel: Id,
    },
    /// Joins the reel to the end of the slot's tape. The reel is out of its bag until it is sealed
    /// or baked.
    MaterialsSpliced {
        machine: Id,
        slot: Id,
        reel: Id,
    },
    /// Removes the slot's tape.
    MaterialsUnloaded {
        machine: Id,
        slot: Id,
    },
    /// Starts work on the board.
    WorkStarted {
        machine: Id,
        board: Id,
    },
    /// Completes work on the board.
    WorkCompleted {
        machine: Id,
        board: Id,
    },
    /// Places one piece at each designator, in this order.
    MaterialsInstalled {
        machine: Id,
        board: Id,
        designators: Designators,
    },
    /// Scraps pieces at the slot.
    MaterialsScrapped {
        machine: Id,
        slot: Id,
        quantity: Quantity,
    },
    /// Records the counted pieces of these reels.
    CountsTaken {
        counts: Counts,
    },
    /// Advances the desk's clock.
    ClockSet,
}

impl Clone for Command {
    ghost use Rattle.std.specs.Prelude.{◌≡◌};

    ghost is_clone = { λ x y. y ≡ x };

    fn clone(&self) -> Result<Command, AllocError> {
        match self {
            Command::PartDefined { part } => Ok(Command::PartDefined { part: *part }),
            Command::AlternateAllowed { part, alternate } => Ok(Command::AlternateAllowed {
                part: *part,
                alternate: *alternate,
            }),
            Command::SheetDefined {
                product,
                machine,
                rows,
            } => Ok(Command::SheetDefined {
                product: *product,
                machine: *machine,
                rows: rows.clone()?,
            }),
            Command::ProductSelected { machine, product } => Ok(Command::ProductSelected {
                machine: *machine,
                product: *product,
            }),
            Command::ReelReceived {
                reel,
                part,
                lot,
                moisture,
                quantity,
            } => Ok(Command::ReelReceived {
                reel: *reel,
                part: *part,
                lot: *lot,
                moisture: *moisture,
                quantity: *quantity,
            }),
            Command::ReelOpened { reel } => Ok(Command::ReelOpened { reel: *reel }),
            Command::ReelSealed { reel } => Ok(Command::ReelSealed { reel: *reel }),
            Command::ReelBaked { reel } => Ok(Command::ReelBaked { reel: *reel }),
            Command::MaterialsLoaded {
                machine,
                slot,
                reel,
            } => Ok(Command::MaterialsLoaded {
                machine: *machine,
                slot: *slot,
                reel: *reel,
            }),
            Command::MaterialsSpliced {
                machine,
                slot,
                reel,
            } => Ok(Command::MaterialsSpliced {
                machine: *machine,
                slot: *slot,
                reel: *reel,
            }),
            Command::MaterialsUnloaded { machine, slot } => Ok(Command::MaterialsUnloaded {
                machine: *machine,
                slot: *slot,
            }),
            Command::WorkStarted { machine, board } => Ok(Command::WorkStarted {
                machine: *machine,
                board: *board,
            }),
            Command::WorkCompleted { machine, board } => Ok(Command::WorkCompleted {
                machine: *machine,
                board: *board,
            }),
            Command::MaterialsInstalled {
                machine,
                board,
                designators,
            } => Ok(Command::MaterialsInstalled {
                machine: *machine,
                board: *board,
                designators: designators.clone()?,
            }),
            Command::MaterialsScrapped {
                machine,
                slot,
                quantity,
            } => Ok(Command::MaterialsScrapped {
                machine: *machine,
                slot: *slot,
                quantity: *quantity,
            }),
            Command::CountsTaken { counts } => Ok(Command::CountsTaken {
                counts: counts.clone()?,
            }),
            Command::ClockSet => Ok(Command::ClockSet),
        }
    }
}

/// A command with its message: the source, the UniqueID and the minute of the source's clock.
#[derive(PartialEq, Eq, Drop)]
pub struct Stamped {
    pub uid: Id,
    pub source: Id,
    pub minute: Minute,
    pub command: Command,
}

impl Clone for Stamped {
    ghost use Rattle.std.specs.Prelude.{◌≡◌};

    ghost is_clone = { λ x y. y ≡ x };

    fn clone(&self) -> Result<Stamped, AllocError> {
        Ok(Stamped {
            uid: self.uid,
            source: self.source,
            minute: self.minute,
            command: self.command.clone()?,
        })
    }
}

/// An accepted command, with its number in the history (from 1) and its effective minute.
#[derive(PartialEq, Eq, Drop)]
pub struct Entry {
    pub number: u64,
    pub stamped: Stamped,
    pub effective: Minute,
}

/// A reel's receipt and the minute at which it took effect.
#[derive(Clone, Copy, PartialEq, Eq)]
pub struct Receipt {
    pub part: Id,
    pub lot: Id,
    pub moisture: Moisture,
    pub quantity: Quantity,
    pub effective: Minute,
}
