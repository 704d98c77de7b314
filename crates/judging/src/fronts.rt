//! The front reels of a machine's slots, as verification uses them.

ghost use Rattle.std.specs.Prelude.{◌≡◌, ◌≤◌, IfOk};
ghost use Rattle.std.specs.Option.{option_map};
ghost use Rattle.desk_types.specs.History.{History, now_of};
ghost use Rattle.desk_types.specs.Pieces.{front_of};
ghost use Rattle.desk_types.specs.Front.{front_reel, fronts_of};

use crate::facts::Facts;
use crate::lives::life;
use crate::placing::next_reel;
use crate::setup::sheet_on;
use desk_types::{Front, FrontReel, Fronts, Id, Listing, Minute};
use std::alloc::{AllocError, Global};

/// Returns the slot's first live reel.
pub fn front<F: Facts>(facts: &F, machine: &Id, slot: &Id) -> Option<Id>
    ensures { (H : History) → F.Stands facts.now H → result ≡ front_of H machine.now slot.now }
{
    let feed = next_reel(facts, machine, slot, 0)?;
    Some(feed.reel)
}

fn front_at<F: Facts>(facts: &F, minute: Minute, machine: &Id, slot: &Id) -> Option<FrontReel>
    ensures { (H : History) → F.Stands facts.now H → now_of H ≤ minute
        → result ≡ option_map (front_reel H minute) (front_of H machine.now slot.now) }
{
    let name = front(facts, machine, slot)?;
    let row = facts.reel_row(&name)?;
    Some(FrontReel {
        reel: name,
        part: row.part,
        life: life(&row, minute),
    })
}

/// Returns the slots of the selected product's sheet in order, each with its front reel at the desk
/// minute.
pub fn fronts<F: Facts>(alloc: Global, facts: &F, machine: &Id) -> Result<Fronts, AllocError>
    ensures { (H : History) → F.Stands facts.now H
        → IfOk result (λ fronts. fronts ≡ fronts_of H machine.now) }
{
    let mut fronts = Vec::new(alloc);
    let Some(minute) = facts.minute() else {
        return Ok(Listing::new(fronts));
    };
    let Some(rows) = sheet_on(facts, machine) else {
        return Ok(Listing::new(fronts));
    };
    for row in rows.as_slice() {
        let reel = front_at(facts, minute, machine, &row.slot);
        fronts.push(Front {
            slot: row.slot,
            reel,
        })?;
    }
    Ok(Listing::new(fronts))
}
