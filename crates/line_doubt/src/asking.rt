//! What is asked about pieces.

ghost use Rattle.std.specs.Prelude.{◌≡◌, map, IfOk};
ghost use Rattle.line_doubt.specs.Sources.{ask_of};

use crate::mark::Ask;
use desk_types::Placement;
use std::alloc::{AllocError, Global};

/// Returns a question for each piece.
pub fn asks_of(alloc: Global, placed: &[Placement]) -> Result<Vec<Ask>, AllocError>
    ensures { IfOk result (λ asks. asks.items ≡ map ask_of placed.now) }
{
    let mut asks = Vec::new(alloc);
    for piece in placed {
        asks.push(Ask {
            at: piece.number,
            machine: piece.machine,
            slot: piece.slot,
        })?;
    }
    Ok(asks)
}
