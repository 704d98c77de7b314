//! Laws of placements.

ghost use Rattle.std.specs.Prelude.{◌≡◌, None, List, ◌++◌, map, All};
ghost use Rattle.std.specs.List.{IsDistinct};
ghost use Rattle.desk_types.specs.declared.answer.Detail.TheVariants.{Reels};
ghost use Rattle.desk_types.specs.declared.answer.Reply.TheVariants.{Accepted};
ghost use Rattle.desk_types.specs.declared.command.Command.TheVariants.{MaterialsInstalled};
ghost use Rattle.desk_types.specs.declared.command.Stamped.{Stamped};
ghost use Rattle.desk_types.specs.declared.placement.Placement.{Placement};
ghost use Rattle.desk_types.specs.declared.rules.Rules.{Rules};
ghost use Rattle.desk_types.specs.Id.{Name, same};
ghost use Rattle.desk_types.specs.Pair.{same_pair};
ghost use Rattle.desk_types.specs.History.{History, IsPrefix, accept};
ghost use Rattle.desk_types.specs.Judged.{IsJudged};
ghost use Rattle.desk_types.specs.Refusals.{refusal_of};
ghost use Rattle.desk_types.specs.Outcome.{reply_to};
ghost use Rattle.desk_types.specs.Placements.{placements_of};
ghost use Rattle.desk_laws.specs.Verified.{IsRightlyPlaced};
ghost use Rattle.desk_laws.specs.Whole.{spot_of, spots_named};

/// Placements are final: no later command changes one. Holds for any history.
pub fn placements_are_final()
    ensures { (G H : History) → IsPrefix G H
        → (later : List Placement) × (placements_of H ≡ placements_of G ++ later) }
{}

/// No designator of a board is placed twice.
pub fn no_designator_twice()
    // A spot of a board holds one piece, so a trace has one lot for it.
    ensures { (rules : Rules) (H : History) → IsJudged rules H
        → IsDistinct same_pair
        (map (λ (p : Placement). (p.board, p.designator)) (placements_of H)) }
{}

/// An accepted install places one piece for each designator of its message, in order, and its reply
/// names their reels. No designator appears twice. Holds for any history.
pub fn installs_are_whole()
    // No part of a message is placed without the rest.
    ensures spots { (rules : Rules) (H : History) (s : Stamped) (machine board : Name)
        (designators : List Name)
        → refusal_of rules H s ≡ None
        → s.command ≡ MaterialsInstalled machine board designators
        → (more : List Placement) × (placements_of (accept H s) ≡ placements_of H ++ more)
        × (map spot_of more ≡ spots_named machine board designators) }
    // The reply is what was placed, so a sender can keep it as a record.
    ensures told { (rules : Rules) (H : History) (s : Stamped) (machine board : Name)
        (designators : List Name)
        (more : List Placement)
        → refusal_of rules H s ≡ None → s.command ≡ MaterialsInstalled machine board designators
        → placements_of (accept H s) ≡ placements_of H ++ more
        → reply_to rules H s ≡ Accepted (Reels (map (λ (p : Placement). p.reel) more)) }
    // A message that names a spot twice is refused, not shortened.
    ensures once { (rules : Rules) (H : History) (s : Stamped) (machine board : Name)
        (designators : List Name)
        → refusal_of rules H s ≡ None
        → s.command ≡ MaterialsInstalled machine board designators → IsDistinct same designators }
{}

/// Every placed piece came from a verified reel. The install with the placement's number took the
/// piece from the first reel with a piece left on its designator's slot. When that reel was last
/// loaded or spliced there, the sheet then selected allowed its part, it was baked if its level
/// requires it, and it was not expired. The placement is overdue exactly if the reel had expired by
/// its minute.
///
/// A sheet selected later may not allow the part: a start of work verifies the front reel of each
/// slot, but not the reels spliced behind it.
pub fn only_verified_reels_are_placed()
    ensures { (rules : Rules) (H : History) → IsJudged rules H
        → All (IsRightlyPlaced H) (placements_of H) }
{}
