//! The findings in an accepted message.

ghost use Rattle.std.specs.Prelude.{◌≡◌, IfOk};
ghost use Rattle.line_book.specs.Guard.{tape_at};
ghost use Rattle.line_members.specs.Accepted.{accepted, compared, uncompared};

use crate::comparison::{differences, pieces};
use crate::finding::Finding;
use crate::named_reels::{MachineReels, machine_reels};
use crate::receipt::attributes;
use desk_types::{Change, Command, Id, Listing, Take};
use line_book::{Guard, Matter};
use std::alloc::{AllocError, Global};

/// Returns the findings in an accepted message whose command makes this change: the attributes of a
/// received reel, and where the machine of an install names other reels than the desk.
///
/// The guard has the tapes before the command.
pub fn accepted(
    alloc: Global,
    told: &[u8],
    guard: &Guard,
    change: &Change,
) -> Result<Vec<Finding>, AllocError>
    // Only a receipt and an install have findings, whatever members other messages have.
    ensures { IfOk result (λ found. found.items
        ≡ accepted told.now (tape_at guard.now.tapes) change.now) }
{
    match &change.stamped().command {
        Command::ReelReceived { reel, .. } => attributes(alloc, told, reel),
        Command::MaterialsInstalled { machine, board, .. } => {
            let takes = change.takes();
            let reels = machine_reels(alloc, told, takes.len())?;
            compared(alloc, told, machine, board, guard, takes, &reels)
        }
        _ => Ok(Vec::new(alloc)),
    }
}

fn compared(
    alloc: Global,
    told: &[u8],
    machine: &Id,
    board: &Id,
    guard: &Guard,
    takes: &[Take],
    reels: &MachineReels,
) -> Result<Vec<Finding>, AllocError>
    ensures { IfOk result (λ found. found.items
        ≡ compared told.now machine.now board.now (tape_at guard.now.tapes) takes.now reels.now) }
{
    match reels {
        MachineReels::Absent => Ok(Vec::new(alloc)),
        MachineReels::Uncompared => uncompared(alloc, told, machine, board),
        MachineReels::Named(reels) => {
            let pieces = pieces(alloc, takes, reels.as_slice())?;
            differences(alloc, machine, board, guard, pieces.as_slice())
        }
    }
}

fn uncompared(
    alloc: Global,
    told: &[u8],
    machine: &Id,
    board: &Id,
) -> Result<Vec<Finding>, AllocError>
    ensures { IfOk result (λ found. found.items ≡ uncompared told.now machine.now board.now) }
{
    let mut found = Vec::new(alloc);
    found.push(Finding {
        matter: Matter::Uncompared {
            machine: *machine,
            board: *board,
        },
        told: Listing::new(told.to_vec(alloc)?),
    })?;
    Ok(found)
}
