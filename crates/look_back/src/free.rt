//! Searches for the free reels of a part. Entries and takes come oldest first.

ghost use Rattle.std.specs.Prelude.{◌≡◌, ◌≤◌, nat_lt, not, ◌&&◌, Some, length, map, reverse, IfOk};
ghost use Rattle.std.specs.List.{filter};
ghost use Rattle.desk_types.specs.declared.limits.TheConstants.{MOST_ENTRIES};
ghost use Rattle.desk_types.specs.declared.rules.Rules.TheVariants.{Two};
ghost use Rattle.desk_types.specs.Id.{Name};
ghost use Rattle.desk_types.specs.History.{History, now_of};
ghost use Rattle.desk_types.specs.Pieces.{left_of, is_mounted};
ghost use Rattle.desk_types.specs.FloorLife.{is_unbaked, is_expired};
ghost use Rattle.desk_types.specs.Judged.{IsJudged};
ghost use Rattle.desk_types.specs.View.{reel_view};
ghost use Rattle.desk_types.specs.Free.{received_by, reels_received, is_free, by_turn, in_order, free_reels};
ghost use Rattle.look_back.specs.Kept.{AreTakes};
ghost use Rattle.judging.specs.Turns.{turn_of, turn_by};

use crate::setup::{is_allowed, receipt};
use crate::views::reel_view;
use desk_types::{Command, Entry, Id, Left, Listing, ReelView, ReelViews, Takes};
use judging::lives::is_usable;
use judging::sets::{insert_if, push_if};
use std::alloc::{AllocError, Global};
use std::collections::BTreeSet;

fn received_by(command: &Command) -> Option<Id>
    ensures { result ≡ received_by command.now }
{
    match command {
        Command::ReelReceived { reel, .. } => Some(*reel),
        _ => None,
    }
}

/// Returns whether a reel of an allowed part can be loaded: it is not mounted, not empty, neither
/// unbaked nor expired.
fn is_ready(view: &ReelView) -> bool
    ensures { (H : History) (reel : Name) → reel_view H reel ≡ Some view.now
        → result ≡ (not (is_mounted H reel) && nat_lt 0 (left_of H reel)
        && not (is_unbaked H reel)
        && not (is_expired H reel (now_of H))) }
{
    !view.mounted && view.remaining > 0 && is_usable(view.left)
}

fn turn_by(entries: &[Entry], takes: &[Takes], part: &Id, command: &Command) -> Option<(Left, Id)>
    requires most { length entries.now ≤ MOST_ENTRIES }
    requires judged { IsJudged Two (reverse entries.now) }
    requires takes { AreTakes (reverse entries.now) (reverse takes.now) }
    ensures { result ≡ turn_by (reverse entries.now) part.now command.now }
{
    let reel = received_by(command)?;
    let said = receipt(entries, &reel)?;
    if !is_allowed(entries, part, &said.part) {
        return None;
    }
    let view = reel_view(entries, takes, &reel)?;
    if !is_ready(&view) {
        return None;
    }
    Some((view.left, reel))
}

fn turns(
    alloc: Global,
    entries: &[Entry],
    takes: &[Takes],
    part: &Id,
) -> Result<Vec<(Left, Id)>, AllocError>
    requires most { length entries.now ≤ MOST_ENTRIES }
    requires judged { IsJudged Two (reverse entries.now) }
    requires takes { AreTakes (reverse entries.now) (reverse takes.now) }
    ensures { IfOk result (λ turns. turns.items ≡ map (turn_of (reverse entries.now))
        (in_order (by_turn (reverse entries.now))
        (filter (is_free (reverse entries.now) part.now) (reels_received (reverse entries.now))))) }
{
    let mut turns = BTreeSet::new(alloc);
    for entry in entries {
        insert_if(
            &mut turns,
            turn_by(entries, takes, part, &entry.stamped.command),
        )?;
    }
    turns.into_iter().collect(alloc)
}

/// Returns the reels that can be loaded for the part at the desk minute, in order of use.
pub fn free_reels(
    alloc: Global,
    entries: &[Entry],
    takes: &[Takes],
    part: &Id,
) -> Result<ReelViews, AllocError>
    // So a count of entries fits 32 bits, as in all searches here.
    requires most { length entries.now ≤ MOST_ENTRIES }
    requires judged { IsJudged Two (reverse entries.now) }
    // The takes are kept beside the entries, since to make them again is a search for each.
    requires takes { AreTakes (reverse entries.now) (reverse takes.now) }
    ensures { IfOk result (λ reels. reels ≡ free_reels (reverse entries.now) part.now) }
{
    let mut views = Vec::new(alloc);
    for turn in turns(alloc, entries, takes, part)?.as_slice() {
        push_if(&mut views, reel_view(entries, takes, &turn.1))?;
    }
    Ok(Listing::new(views))
}
