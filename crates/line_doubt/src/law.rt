//! A law of pieces in doubt.

ghost use Rattle.std.specs.Prelude.{◌≡◌, [], All, false};
ghost use Rattle.desk_types.specs.declared.placement.Placement.{Placement};
ghost use Rattle.desk_types.specs.History.{History};
ghost use Rattle.desk_types.specs.Placements.{placements_of};
ghost use Rattle.line_book.specs.Doubt.{doubts, is_late};

/// A law, for proofs: with an empty book, no late message and no tolerance, no piece is in doubt.
pub fn nothing_is_doubted()
    ensures { (H : History)
        → All (λ (p : Placement). is_late H p ≡ false) (placements_of H) → doubts H [] 0 ≡ [] }
{}
