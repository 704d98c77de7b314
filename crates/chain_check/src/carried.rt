//! The reels of two desks.

ghost use Rattle.std.specs.Prelude.{◌≡◌, true, is_some, IfNone, IfSome};
ghost use Rattle.desk_types.specs.Id.{Name};
ghost use Rattle.desk_types.specs.History.{Basis};
ghost use Rattle.desk_types.specs.Tables.{tables_of};
ghost use Rattle.desk_types.specs.View.{reel_view};
ghost use Rattle.state_rows.specs.Kept.{tables_in, unnumbered};
ghost use Rattle.chain_check.specs.Difference.{IsReelDifference};
ghost use Rattle.chain_check.specs.Views.{IsCarried};

use crate::difference::Difference;
use crate::views::reel_difference;
use desk_types::Desk;
use state_rows::RowSet;

/// Returns the first difference between the desks in one of these reels.
fn reel_in<D: Desk>(reels: &RowSet, old: &D, new: &D) -> Option<Difference>
    ensures same { (B B' : Basis) → D.Stands old.now B → D.Stands new.now B' → (reel : Name)
        → IfNone result (is_some ((tables_in reels.now).reels reel) ≡ true
        → IsCarried (reel_view B.history reel) (reel_view B'.history reel)) }
    ensures differs { (B B' : Basis) → D.Stands old.now B → D.Stands new.now B'
        → IfSome result (IsReelDifference B.history B'.history) }
{
    for (reel, _) in reels.reels() {
        let of_old = old.reel(reel);
        let of_new = new.reel(reel);
        if let Some(found) = reel_difference(*reel, &of_old, &of_new) {
            return Some(found);
        }
    }
    None
}

/// Returns the first difference between the desks in a reel. The rows are those of the desks.
pub fn first_reel<D: Desk>(
    old_rows: &RowSet,
    new_rows: &RowSet,
    old: &D,
    new: &D,
) -> Option<Difference>
    // A reel may be on one desk alone, so the rows of both desks say which reels to compare.
    ensures same { (B B' : Basis)
        → unnumbered (tables_in old_rows.now) ≡ unnumbered (tables_of B.history)
        → unnumbered (tables_in new_rows.now) ≡ unnumbered (tables_of B'.history)
        → D.Stands old.now B → D.Stands new.now B'
        → (reel : Name)
        → IfNone result (IsCarried (reel_view B.history reel) (reel_view B'.history reel)) }
    ensures differs { (B B' : Basis) → D.Stands old.now B → D.Stands new.now B'
        → IfSome result (IsReelDifference B.history B'.history) }
{
    if let Some(found) = reel_in(old_rows, old, new) {
        return Some(found);
    }
    reel_in(new_rows, old, new)
}
