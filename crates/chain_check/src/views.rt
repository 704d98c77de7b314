//! Differences between the views of a reel.

ghost use Rattle.std.specs.Prelude.{◌≡◌, ◌<◌, Some, IfNone, IfSome};
ghost use Rattle.chain_check.specs.declared.difference.Difference.TheVariants.{Remaining};
ghost use Rattle.chain_check.specs.Difference.{IsViewDifference, AreViewsDifferent};
ghost use Rattle.chain_check.specs.Views.{IsSameView, IsCarried};

use crate::difference::Difference;
use desk_types::{Id, ReelView};

/// Returns the first difference between the views of a reel that has pieces left on both desks.
fn view_difference(reel: Id, old: &ReelView, new: &ReelView) -> Option<Difference>
    ensures same { IfNone result (IsSameView old.now new.now) }
    // A spent reel may differ in all of these: the caller asks only if pieces are left.
    ensures differs { 0 < old.now.remaining
        → IfSome result (IsViewDifference reel old.now new.now) }
{
    if old.part != new.part {
        return Some(Difference::ReelPart {
            reel,
            old: old.part,
            new: new.part,
        });
    }
    if old.lot != new.lot {
        return Some(Difference::Lot {
            reel,
            old: old.lot,
            new: new.lot,
        });
    }
    if old.level != new.level || old.label != new.label {
        return Some(Difference::Level { reel });
    }
    if old.is_open != new.is_open {
        return Some(Difference::Open {
            reel,
            old: old.is_open,
            new: new.is_open,
        });
    }
    if old.left != new.left {
        return Some(Difference::Life {
            reel,
            old: old.left,
            new: new.left,
        });
    }
    None
}

/// Returns the first difference between the views of a reel that both desks received.
fn received_difference(reel: Id, old: &ReelView, new: &ReelView) -> Option<Difference>
    ensures same { IfNone result (IsCarried (Some old.now) (Some new.now)) }
    ensures differs { IfSome result (IsViewDifference reel old.now new.now) }
{
    if old.remaining != new.remaining {
        return Some(Difference::Remaining {
            reel,
            old: old.remaining,
            new: new.remaining,
        });
    }
    let received = new.received.saturating_sub(new.found);
    if received != old.remaining {
        return Some(Difference::Received {
            reel,
            old: old.remaining,
            new: received,
        });
    }
    if old.remaining == 0 {
        return None;
    }
    view_difference(reel, old, new)
}

/// Returns the difference of a reel that only the old desk received.
fn lost_difference(reel: Id, old: &ReelView) -> Option<Difference>
    ensures same { IfNone result (old.now.remaining ≡ 0) }
    ensures differs { IfSome result
        (λ d. (0 < old.now.remaining) × (d ≡ Remaining reel old.now.remaining 0)) }
{
    if old.remaining == 0 {
        return None;
    }
    Some(Difference::Remaining {
        reel,
        old: old.remaining,
        new: 0,
    })
}

/// Returns the first difference between the views of a reel.
pub fn reel_difference(
    reel: Id,
    old: &Option<ReelView>,
    new: &Option<ReelView>,
) -> Option<Difference>
    ensures same { IfNone result (IsCarried old.now new.now) }
    ensures differs { IfSome result (AreViewsDifferent reel old.now new.now) }
{
    match (old, new) {
        (None, None) => None,
        (None, Some(_)) => Some(Difference::Reel { reel }),
        (Some(old), None) => lost_difference(reel, old),
        (Some(old), Some(new)) => received_difference(reel, old, new),
    }
}
