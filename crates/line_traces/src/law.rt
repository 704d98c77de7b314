//! A law of the traces. It serves proofs and does nothing when it runs.

ghost use Rattle.std.specs.Prelude.{◌≡◌, ◌↔◌, Contains, Some, List, map};
ghost use Rattle.desk_types.specs.declared.placement.Placement.{Placement};
ghost use Rattle.desk_types.specs.declared.rules.Rules.TheVariants.{Two};
ghost use Rattle.desk_types.specs.Id.{Name};
ghost use Rattle.desk_types.specs.History.{History};
ghost use Rattle.desk_types.specs.Judged.{IsJudged};
ghost use Rattle.line_traces.specs.Pieces.{board_trace, lot_board_names, AreConverse};

/// If `board_rows` and `lot_boards` report the same history, a lot is among the lots of a board's pieces exactly when
/// the board is among the boards of the lot. This holds for every history. For a judged one it also covers unknown
/// boards and lots.
pub fn rows_are_converse()
    ensures every { (H : History) (board lot : Name) (pieces : List Placement) (boards : List Name)
        → board_trace H board ≡ Some pieces → lot_board_names H lot ≡ Some boards
        → Contains (map (λ (p : Placement). p.lot) pieces) lot ↔ Contains boards board }
    ensures judged { (H : History) (board lot : Name) → IsJudged Two H
        → AreConverse board (board_trace H board) lot (lot_board_names H lot) }
{}
