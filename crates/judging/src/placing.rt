//! The pieces that an install takes: one for each designator, from the front of its slot's reels.

ghost use Rattle.std.specs.Prelude.{◌≡◌, ◌<◌, ◌≤◌, ◌-◌, nat_lt, Bool, List, [], ◌∷◌, ◌++◌, drop, filter, if◌then◌else◌, IsSome, IfSome, IfOk, OnOk};
ghost use Rattle.std.specs.List.{find};
ghost use Rattle.std.specs.Option.{option_map, option_map_or, option_copied};
ghost use Rattle.desk_types.specs.declared.take.Pick.{Pick as Picking};
ghost use Rattle.desk_types.specs.Id.{Name, same};
ghost use Rattle.desk_types.specs.History.{History};
ghost use Rattle.desk_types.specs.Setup.{sheet_on, slot_on};
ghost use Rattle.desk_types.specs.Tape.{tape_of};
ghost use Rattle.desk_types.specs.Pieces.{left_of, live_on, pieces_picked, bench_of, install_picks};
ghost use Rattle.desk_types.specs.Refusals.{designators_refusal};
ghost use Rattle.desk_types.specs.Work.{is_placed_on};
ghost use Rattle.setup_sheets.specs.Names.{HasSeen};
ghost use Rattle.judging.specs.declared.placing.Feed.{Feed as Feeding};
ghost use Rattle.judging.specs.Facts.{ArePlacedOn};
ghost use Rattle.judging.specs.Placing.{IsPicked, Before, IsPlacing, IsFeeding, IsOnePiece, feed_at, one_less, given_by, live_past};

use crate::facts::Facts;
use crate::scraps::put_off;
use crate::sets::is_added;
use desk_types::{Designator, Id, JudgeFault, Listing, Pick, Purpose, Refusal};
use setup_sheets::Sheet;
use std::alloc::{AllocError, Global};
use std::collections::{BTreeMap, BTreeSet};

/// A slot's current reel before or during a message, the pieces left on it, and how many of the slot's reels
/// come up to and including it.
#[derive(Clone, Copy, PartialEq, Eq)]
pub struct Feed {
    pub reel: Id,
    pub pieces: u64,
    pub passed: usize,
}

/// A piece from the current reel or, without one, the number of the slot's reels already passed.
#[derive(Clone, Copy, PartialEq, Eq)]
enum Given {
    Reel(Id),
    Nothing(usize),
}

fn take_in_hand(feeds: &mut BTreeMap<Id, Feed>, slot: &Id) -> Given
    ensures given { result ≡ given_by (feed_at feeds.old slot.now) }
    ensures lowered { (s : Name)
        → feed_at feeds.new s ≡ (if same slot.now s then option_map one_less
        (feed_at feeds.old s) else feed_at feeds.old s) }
{
    let Some(feed) = feeds.get_mut(slot) else {
        return Given::Nothing(0);
    };
    if feed.pieces == 0 {
        return Given::Nothing(feed.passed);
    }
    feed.pieces -= 1;
    Given::Reel(feed.reel)
}

/// Returns the first reel with pieces left after the first `past` reels, testing each.
fn later_reel<F: Facts>(facts: &F, machine: &Id, slot: &Id, past: usize) -> Option<Feed>
    ensures live { (H : History) → F.Stands facts.now H
        → live_past (left_of H) (F.reels_on facts.now machine.now slot.now) past
        ≡ option_map_or
        (λ (feed : Feeding). feed.reel ∷ live_past (left_of H)
        (F.reels_on facts.now machine.now slot.now) feed.passed) result [] }
    ensures pieces { (H : History) → F.Stands facts.now H
        → IfSome result (λ feed. feed.pieces ≡ left_of H feed.reel) }
    ensures some { IfSome result (λ feed. 0 < feed.pieces) }
{
    for place in past..facts.reel_count(machine, slot) {
        if let Some(reel) = facts.reel_at(machine, slot, place) {
            let pieces = facts.left_of(&reel);
            if pieces > 0 {
                let passed = place + 1;
                return Some(Feed {
                    reel,
                    pieces,
                    passed,
                });
            }
        }
    }
    None
}

/// Returns the first reel with pieces left after the first `past` reels. That is mostly the next
/// one, so the reels are counted only if it is spent.
pub fn next_reel<F: Facts>(facts: &F, machine: &Id, slot: &Id, past: usize) -> Option<Feed>
    // Spent reels are passed over, and what follows the one found is the rest of the tape.
    ensures live { (H : History) → F.Stands facts.now H
        → live_past (left_of H) (F.reels_on facts.now machine.now slot.now) past
        ≡ option_map_or
        (λ (feed : Feeding). feed.reel ∷ live_past (left_of H)
        (F.reels_on facts.now machine.now slot.now) feed.passed) result [] }
    ensures pieces { (H : History) → F.Stands facts.now H
        → IfSome result (λ feed. feed.pieces ≡ left_of H feed.reel) }
    // So a caller that takes what is there goes on by a piece at least.
    ensures some { IfSome result (λ feed. 0 < feed.pieces) }
{
    if past == usize::MAX {
        return later_reel(facts, machine, slot, past);
    }
    let reel = facts.reel_at(machine, slot, past)?;
    let pieces = facts.left_of(&reel);
    if pieces == 0 {
        return later_reel(facts, machine, slot, past);
    }
    let passed = past + 1;
    Some(Feed {
        reel,
        pieces,
        passed,
    })
}

fn take_piece<F: Facts>(
    facts: &F,
    feeds: &mut BTreeMap<Id, Feed>,
    machine: &Id,
    slot: &Id,
) -> Result<Option<Id>, AllocError>
    ensures front { (H : History) (picks : List Picking) → F.Stands facts.now H
        → IsFeeding (live_on H machine.now) (left_of H)
        (F.reels_on facts.now machine.now) picks feeds.old
        → IfOk result
        (λ reel. reel ≡ find (λ r. nat_lt (pieces_picked picks r) (left_of H r))
        (tape_of H machine.now slot.now)) }
    ensures feeds { (H : History) (picks : List Picking) (p : Picking) → F.Stands facts.now H
        → IsFeeding (live_on H machine.now) (left_of H)
        (F.reels_on facts.now machine.now) picks feeds.old
        → IfOk result (λ reel. IsOnePiece reel p
        → IsFeeding (live_on H machine.now) (left_of H) (F.reels_on facts.now machine.now)
        (picks ++ p ∷ []) feeds.new) }
{
    let past = match take_in_hand(feeds, slot) {
        Given::Reel(reel) => return Ok(Some(reel)),
        Given::Nothing(past) => past,
    };
    let Some(next) = next_reel(facts, machine, slot, past) else {
        return Ok(None);
    };
    let pieces = next.pieces - 1;
    feeds.insert(
        *slot,
        Feed {
            reel: next.reel,
            pieces,
            passed: next.passed,
        },
    )?;
    Ok(Some(next.reel))
}

fn slot_for<F: Facts>(
    facts: &F,
    sheet: Option<&Sheet>,
    machine: &Id,
    designator: &Designator,
) -> Option<Id>
    requires { (H : History) → F.Stands facts.now H → IsSome sheet
        → option_copied sheet ≡ sheet_on H machine.now }
    ensures { (H : History) → F.Stands facts.now H → result ≡ slot_on H machine.now designator.now }
{
    match sheet {
        Some(sheet) => sheet.slot(designator),
        None => facts.slot_on(machine, designator),
    }
}

fn has_placed<F: Facts>(
    facts: &F,
    placed: Option<&[Designator]>,
    board: &Id,
    designator: &Designator,
) -> bool
    requires { (H : History) → F.Stands facts.now H
        → IfSome placed (λ names. ArePlacedOn H board.now names.now) }
    ensures { (H : History) → F.Stands facts.now H
        → result ≡ is_placed_on H board.now designator.now }
{
    match placed {
        Some(names) => names.binary_search(designator).is_ok(),
        None => facts.is_placed_on(board, designator),
    }
}

/// A slot and the reel that its piece comes from.
#[derive(Clone, Copy, PartialEq, Eq)]
struct Feeder {
    slot: Id,
    reel: Id,
}

fn place<F: Facts>(
    facts: &F,
    sheet: Option<&Sheet>,
    placed: Option<&[Designator]>,
    feeds: &mut BTreeMap<Id, Feed>,
    seen: &mut BTreeSet<Designator>,
    machine: &Id,
    board: &Id,
    designator: &Designator,
) -> Result<Feeder, JudgeFault>
    requires look_ups { (H : History) → F.Stands facts.now H → IsSome sheet
        → option_copied sheet ≡ sheet_on H machine.now }
    requires names { (H : History) → F.Stands facts.now H
        → IfSome placed (λ names. ArePlacedOn H board.now names.now) }
    ensures { (H : History) (before : Before) → F.Stands facts.now H
        → IsFeeding (live_on H machine.now) (left_of H)
        (F.reels_on facts.now machine.now) before.picks feeds.old
        → HasSeen seen.old before.designators
        → IsPlacing (F.reels_on facts.now machine.now) H (bench_of H machine.now board.now)
        before designator.now result feeds.new seen.new }
{
    let Some(slot) = slot_for(facts, sheet, machine, designator) else {
        return Err(JudgeFault::Refused(Refusal::DesignatorNotOnSheet(Id::from(*designator))));
    };
    if !is_added(seen, *designator)? {
        return Err(JudgeFault::Refused(Refusal::DesignatorTwice(Id::from(*designator))));
    }
    if has_placed(facts, placed, board, designator) {
        return Err(JudgeFault::Refused(Refusal::AlreadyPlaced(Id::from(*designator))));
    }
    let Some(reel) = take_piece(facts, feeds, machine, &slot)? else {
        return Err(JudgeFault::Refused(Refusal::ReelShort(Id::from(*designator))));
    };
    Ok(Feeder { slot, reel })
}

/// Takes one piece for each designator in order, or returns the fault of the first faulty one.
pub fn place_all<F: Facts>(
    alloc: Global,
    facts: &F,
    machine: &Id,
    board: &Id,
    designators: &[Designator],
) -> Result<Listing<Pick>, JudgeFault>
    ensures { (H : History) → F.Stands facts.now H
        → IsPicked
        (designators_refusal (bench_of H machine.now board.now)
        (is_placed_on H board.now) [] [] designators.now)
        (install_picks (bench_of H machine.now board.now) [] designators.now) result }
{
    let sheet = facts.look_ups_on(machine);
    let placed = facts.placed_on(board);
    let mut feeds = BTreeMap::new(alloc);
    let mut seen = BTreeSet::new(alloc);
    let mut picks = Vec::with_capacity(alloc, designators.len())?;
    for designator in designators {
        let piece = place(
            facts, sheet, placed, &mut feeds, &mut seen, machine, board, designator,
        )?;
        let purpose = Purpose::Placed {
            board: *board,
            designator: *designator,
            machine: *machine,
            slot: piece.slot,
        };
        put_off(&mut picks, piece.reel, 1, purpose)?;
    }
    Ok(Listing::new(picks))
}
