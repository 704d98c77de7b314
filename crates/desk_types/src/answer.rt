//! Replies to commands.

use crate::id::Id;
use crate::list::{IdList, Listing};
use std::alloc::AllocError;

/// Why a command is refused, with the name at fault: a part, reel, product, machine, slot, board or
/// designator.
#[derive(Clone, Copy, PartialEq, Eq)]
pub enum Refusal {
    /// The command's minute is more than 20,160 minutes after the desk minute.
    TooFarAhead,
    /// The part is already defined.
    PartExists(Id),
    /// No such part is defined.
    UnknownPart(Id),
    /// The reel was already received.
    ReelExists(Id),
    /// No such reel was received.
    UnknownReel(Id),
    /// The product has no sheet on the machine.
    UnknownSheet(Id),
    /// A board is in work on the machine.
    MachineBusy(Id),
    /// An earlier row of the sheet has the slot.
    SlotTwice(Id),
    /// The designator appears earlier in the sheet or in the message.
    DesignatorTwice(Id),
    /// No product is selected on the machine.
    NoProduct(Id),
    /// The selected product's sheet has no such slot.
    SlotNotOnSheet(Id),
    /// The slot has a live reel.
    SlotTaken(Id),
    /// The slot has no live reel.
    SlotEmpty(Id),
    /// The reel is live on some slot.
    ReelMounted(Id),
    /// The reel has no pieces left.
    ReelEmpty(Id),
    /// The reel's part is not allowed there. Names the reel or, at a start of work, the slot.
    WrongPart(Id),
    /// The reel waits for its bake. Names the reel or, at a start of work, the slot.
    NotBaked(Id),
    /// The reel's floor life has expired. Names the reel or, at a start of work, the slot.
    Expired(Id),
    /// The board is in work on another machine.
    BoardBusy(Id),
    /// The board was started as another product.
    OtherProduct(Id),
    /// The board is not the one in work on the machine.
    NotInWork(Id),
    /// No row of the sheet has the designator.
    DesignatorNotOnSheet(Id),
    /// An earlier command placed this designator of the board.
    AlreadyPlaced(Id),
    /// Too few pieces are left. Names the designator or, at a scrap, the slot.
    ReelShort(Id),
    /// An earlier row of the count has the reel.
    ReelTwice(Id),
    /// The count is too high: see [`Rules`](crate::Rules).
    CountAbove(Id),
}

/// The details in the reply to an accepted command.
#[derive(PartialEq, Eq, Drop)]
pub enum Detail {
    /// No details.
    Plain,
    /// The reel's remaining minutes of floor life after a load or splice, or none without a limit.
    MinutesLeft(Option<u64>),
    /// The reel of each installed designator, in message order.
    Reels(IdList),
    /// The pieces that a scrap or count took. Pieces that a count finds don't lower it.
    Taken(u64),
}

impl Clone for Detail {
    ghost use Rattle.std.specs.Prelude.{◌≡◌};

    ghost is_clone = { λ x y. y ≡ x };

    fn clone(&self) -> Result<Detail, AllocError> {
        match self {
            Detail::Plain => Ok(Detail::Plain),
            Detail::MinutesLeft(minutes) => Ok(Detail::MinutesLeft(*minutes)),
            Detail::Reels(reels) => Ok(Detail::Reels(reels.clone()?)),
            Detail::Taken(pieces) => Ok(Detail::Taken(*pieces)),
        }
    }
}

/// The reply to one command.
#[derive(PartialEq, Eq, Drop)]
pub enum Reply {
    Accepted(Detail),
    Refused(Refusal),
}

/// Replies in the order of their commands.
pub type Replies = Listing<Reply>;
