//! Laws of slots.

ghost use Rattle.std.specs.Prelude.{◌≡◌, false, List, ◌++◌, All, Contains};
ghost use Rattle.std.specs.List.{IsDistinct};
ghost use Rattle.desk_types.specs.declared.command.Entry.{Entry};
ghost use Rattle.desk_types.specs.declared.rules.Rules.{Rules};
ghost use Rattle.desk_types.specs.Id.{Name, same};
ghost use Rattle.desk_types.specs.History.{History};
ghost use Rattle.desk_types.specs.Tape.{tape_of};
ghost use Rattle.desk_types.specs.Pieces.{live_on};
ghost use Rattle.desk_types.specs.Judged.{IsJudged};
ghost use Rattle.desk_laws.specs.TapeOrder.{restarts};

/// A reel is live on at most one slot, and only once there.
pub fn one_place()
    // Of any two slots on which it is live, one is the other.
    ensures one_slot { (rules : Rules) (H : History)
        (m s machine slot reel : Name) → IsJudged rules H
        → Contains (live_on H m s) reel
        → Contains (live_on H machine slot) reel → (m ≡ machine) × (s ≡ slot) }
    // And it stands on the tape of that slot a single time.
    ensures once { (rules : Rules) (H : History) (machine slot : Name) → IsJudged rules H
        → IsDistinct same (live_on H machine slot) }
{}

/// A tape keeps its reels in order until its slot is loaded or unloaded; splices only add to its
/// end. Holds for any history.
pub fn tapes_keep_their_order()
    ensures { (G : History) (more : List Entry) (machine slot : Name)
        → All (λ (e : Entry). restarts machine slot e.stamped.command ≡ false) more
        → (joined : List Name)
        × (tape_of (more ++ G) machine slot ≡ tape_of G machine slot ++ joined) }
{}
