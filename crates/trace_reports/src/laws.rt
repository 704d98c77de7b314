//! A law of the reports. It serves proofs and does nothing when it runs.

ghost use Rattle.std.specs.Prelude.{◌≡◌, ◌↔◌, ◌∷◌, [], Contains, Some, List, ℕ};
ghost use Rattle.desk_types.specs.Id.{Name};
ghost use Rattle.desk_types.specs.History.{History};
ghost use Rattle.desk_types.specs.declared.trace_detail.TraceDetail.TheVariants.{One, Two, Three};
ghost use Rattle.trace_reports.specs.Reports.{board_trace, lot_trace, rows_below};

/// The printed traces of one history agree in both directions, for a board and a lot that are
/// found. Holds for every history.
pub fn reports_are_converse()
    // Details 2 and 1 are the lowest that show a board's lots and a lot's boards.
    ensures lots { (H : History) (board lot : Name) (on of : List ℕ)
        → board_trace Two H board ≡ Some on → lot_trace One H lot ≡ Some of
        → ((part : Name) × Contains (rows_below on) (part ∷ lot ∷ []))
        ↔ Contains (rows_below of) (board ∷ []) }
    ensures reels { (H : History) (board part lot reel : Name) (on of : List ℕ)
        → board_trace Three H board ≡ Some on → lot_trace Three H lot ≡ Some of
        → Contains (rows_below on) (part ∷ lot ∷ reel ∷ [])
        ↔ Contains (rows_below of) (board ∷ part ∷ reel ∷ []) }
{
    crate::text_laws::reports_read_back();
    crate::text_laws::traces_are_converse();
}
