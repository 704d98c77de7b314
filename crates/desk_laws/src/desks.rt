//! The headline guarantee for every desk.

ghost use Rattle.std.specs.Prelude.{◌≡◌, ◌+◌, ◌↔◌, All, Contains};
ghost use Rattle.std.specs.List.{IsDistinct};
ghost use Rattle.desk_types.specs.Id.{Name, same};
ghost use Rattle.desk_types.specs.History.{Basis};
ghost use Rattle.desk_types.specs.Pieces.{left_of, received_of, placed_of, scrapped_of, live_on};
ghost use Rattle.desk_types.specs.Placements.{placements_of, lots_of, boards_of};
ghost use Rattle.desk_laws.specs.Verified.{IsRightlyPlaced};

use desk_types::Desk;

/// Every history that a desk represents is consistent. See `IsConsistent`.
pub fn desk_is_consistent<D: Desk>(desk: &D)
    // No piece is made or lost: what came is placed, scrapped or left.
    ensures balance { (B : Basis) (reel : Name) → D.Stands desk.now B
        → received_of B.history reel ≡ placed_of B.history reel + scrapped_of B.history reel
        + left_of B.history reel }
    // A piece comes from one slot, so a trace has one reel for it.
    ensures one_place { (B : Basis) (m s machine slot reel : Name) → D.Stands desk.now B
        → Contains (live_on B.history m s) reel
        → Contains (live_on B.history machine slot) reel → (m ≡ machine) × (s ≡ slot) }
    // A reel that stood twice on a tape would be counted twice.
    ensures once { (B : Basis) (machine slot : Name) → D.Stands desk.now B
        → IsDistinct same (live_on B.history machine slot) }
    // Each piece tells the reel that its slot fed at that time, with this reel's part and lot.
    ensures rightly_placed { (B : Basis) → D.Stands desk.now B
        → All (IsRightlyPlaced B.history) (placements_of B.history) }
    // A recall by lot misses no board whose own trace names the lot.
    ensures traces { (B : Basis) (board lot : Name) → D.Stands desk.now B
        → Contains (lots_of B.history board) lot ↔ Contains (boards_of B.history lot) board }
{}
