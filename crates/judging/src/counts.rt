//! Counts: their refusals and takes.

ghost use Rattle.std.specs.Prelude.{◌≡◌, List, []};
ghost use Rattle.desk_types.specs.Id.{Name};
ghost use Rattle.desk_types.specs.History.{History};
ghost use Rattle.desk_types.specs.Pieces.{left_of, count_picks};
ghost use Rattle.desk_types.specs.Refusals.{is_above, counts_refusal};
ghost use Rattle.setup_sheets.specs.Names.{HasSeen};
ghost use Rattle.judging.specs.Placing.{IsPicked};
ghost use Rattle.judging.specs.Counting.{IsCounted};

use crate::facts::Facts;
use crate::scraps::put_off;
use crate::sets::is_added;
use desk_types::{CountRow, Id, JudgeFault, Listing, Pick, Purpose, Refusal, Rules};
use std::alloc::Global;
use std::collections::BTreeSet;

fn is_above(rules: Rules, left: u64, counted: u64) -> bool
    ensures { result ≡ is_above rules left counted }
{
    match rules {
        Rules::One => left < counted,
        Rules::Two => left == 0 && counted > 0,
    }
}

fn pieces_above<F: Facts>(
    rules: Rules,
    facts: &F,
    seen: &mut BTreeSet<Id>,
    row: &CountRow,
) -> Result<u64, JudgeFault>
    ensures { (H : History) (before : List Name) → F.Stands facts.now H → HasSeen seen.old before
        → IsCounted rules H before row.now result seen.new }
{
    let reel = row.reel;
    let Some(_) = facts.reel_row(&reel) else {
        return Err(JudgeFault::Refused(Refusal::UnknownReel(reel)));
    };
    if !is_added(seen, reel)? {
        return Err(JudgeFault::Refused(Refusal::ReelTwice(reel)));
    }
    if facts.is_mounted(&reel) {
        return Err(JudgeFault::Refused(Refusal::ReelMounted(reel)));
    }
    let left = facts.left_of(&reel);
    let counted = row.quantity.get();
    if is_above(rules, left, counted) {
        return Err(JudgeFault::Refused(Refusal::CountAbove(reel)));
    }
    Ok(left.saturating_sub(counted))
}

/// Returns the missing pieces of each counted reel, or the fault of the first faulty row. Found
/// pieces are not picks.
pub fn picks_of_counts<F: Facts>(
    alloc: Global,
    rules: Rules,
    facts: &F,
    rows: &[CountRow],
) -> Result<Listing<Pick>, JudgeFault>
    ensures { (H : History) → F.Stands facts.now H
        → IsPicked (counts_refusal rules H [] rows.now) (count_picks (left_of H) rows.now) result }
{
    let mut seen = BTreeSet::new(alloc);
    let mut picks = Vec::new(alloc);
    for row in rows {
        let pieces = pieces_above(rules, facts, &mut seen, row)?;
        put_off(&mut picks, row.reel, pieces, Purpose::Counted)?;
    }
    Ok(Listing::new(picks))
}
