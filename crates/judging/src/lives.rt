//! The floor life that a reel has left.

ghost use Rattle.std.specs.Prelude.{◌≡◌, ◌≤◌, not, ◌&&◌};
ghost use Rattle.desk_types.specs.Id.{Name};
ghost use Rattle.desk_types.specs.History.{History, now_of};
ghost use Rattle.desk_types.specs.FloorLife.{is_unbaked, is_expired};
ghost use Rattle.desk_types.specs.Front.{life_of};
ghost use Rattle.desk_types.specs.View.{life_left};
ghost use Rattle.desk_types.specs.Row.{IsRowOf};

use desk_types::{Left, Life, Minute, ReelRow};

/// Returns how long a reel that stays out of its bag may still feed a slot.
pub fn life(row: &ReelRow, minute: Minute) -> Life
    ensures { (H : History) (name : Name) → IsRowOf H name row.now → now_of H ≤ minute
        → result ≡ life_of H minute name }
{
    if row.is_unbaked() {
        return Life::Unbaked;
    }
    match row.minutes_left(minute) {
        Some(left) => Life::Until(minute.get().saturating_add(left)),
        None => Life::Unlimited,
    }
}

/// Returns the reel's remaining floor life at the desk minute.
pub fn life_left(row: &ReelRow, minute: Minute) -> Left
    ensures { (H : History) (name : Name) → IsRowOf H name row.now → now_of H ≡ minute
        → result ≡ life_left H name }
{
    if row.is_unbaked() {
        return Left::Unbaked;
    }
    match row.minutes_left(minute) {
        Some(minutes) => Left::Minutes(minutes),
        None => Left::Unlimited,
    }
}

/// Returns whether a reel with this floor life left is neither unbaked nor expired.
pub fn is_usable(left: Left) -> bool
    ensures { (H : History) (reel : Name) → left ≡ life_left H reel
        → result ≡ (not (is_unbaked H reel) && not (is_expired H reel (now_of H))) }
{
    match left {
        Left::Minutes(minutes) => minutes > 0,
        Left::Unlimited => true,
        Left::Unbaked => false,
    }
}
