//! Laws of board and lot traces.

ghost use Rattle.std.specs.Prelude.{◌↔◌, Contains};
ghost use Rattle.desk_types.specs.Id.{Name};
ghost use Rattle.desk_types.specs.History.{History};
ghost use Rattle.desk_types.specs.Placements.{lots_of, boards_of};

/// A board's trace has a lot exactly if the lot's trace has the board. Holds for any history.
pub fn traces_are_converse()
    ensures { (H : History) (board lot : Name)
        → Contains (lots_of H board) lot ↔ Contains (boards_of H lot) board }
{}
