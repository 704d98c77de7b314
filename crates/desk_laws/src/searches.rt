//! Laws of searches in a history.

ghost use Rattle.std.specs.Prelude.{◌≡◌, ◌≢◌, ◌↔◌, true, Some, [], Any, Contains};
ghost use Rattle.desk_types.specs.declared.placement.Placement.{Placement};
ghost use Rattle.desk_types.specs.declared.rules.Rules.{Rules};
ghost use Rattle.desk_types.specs.Id.{Name};
ghost use Rattle.desk_types.specs.History.{History};
ghost use Rattle.desk_types.specs.Tape.{tape_of};
ghost use Rattle.desk_types.specs.Pieces.{live_on, is_mounted};
ghost use Rattle.desk_types.specs.Work.{in_work_on, is_in_work, is_placed_on};
ghost use Rattle.desk_types.specs.Judged.{IsJudged};
ghost use Rattle.desk_types.specs.Placements.{placements_of};
ghost use Rattle.desk_types.specs.View.{loaded_slots};

/// Four definitions only search the commands that can matter, and find the same as the plain rule.
/// A reel is mounted exactly if it is live on some slot. A designator is placed exactly if the
/// placements contain it. A board is in work exactly if some machine has it in work. Each slot with
/// a tape is among its machine's loaded slots. The second law holds for accepted histories, the
/// others for any history.
pub fn searches_say_the_rule()
    ensures mounted { (H : History) (reel : Name)
        → (is_mounted H reel ≡ true)
        ↔ ((machine : Name) × (slot : Name) × Contains (live_on H machine slot) reel) }
    ensures placed { (rules : Rules) (H : History) (board designator : Name) → IsJudged rules H
        → (is_placed_on H board designator ≡ true) ↔ Any (λ (p : Placement). (p.board ≡ board)
        × (p.designator ≡ designator)) (placements_of H) }
    ensures in_work { (H : History) (board : Name)
        → (is_in_work H board ≡ true) ↔ ((machine : Name) × (in_work_on H machine ≡ Some board)) }
    ensures loaded { (H : History) (machine slot : Name) → tape_of H machine slot ≢ []
        → Contains (loaded_slots H machine) slot }
{}
