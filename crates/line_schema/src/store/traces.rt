//! All pieces, and those of a board, of a lot, and of overdue reels, from a store's tables. The trace
//! indexes locate those of a trace if the working state is loaded; a trace does not load it.

ghost use Rattle.std.specs.Prelude.{◌≡◌, IfOk};
ghost use Rattle.desk_types.specs.Id.{Name};
ghost use Rattle.desk_types.specs.Placements.{overdue_of, placements_of};
ghost use Rattle.line_traces.specs.Pieces.{board_trace, lot_trace, lot_board_names, AreConverse};
ghost use Rattle.line_schema.specs.Stands.{ForKept};
ghost use Rattle.line_schema.specs.Frames.{ReadsStore};

use crate::store::LineStore;
use crate::unavailable::Unavailable;
use desk_types::{Id, IdList};
use line_traces::PlacedRows;
use sqlite::Alter;
use state_rows::KeepsRows;

impl<S: Alter, D: KeepsRows + Drop> LineStore<S, D> {
    /// Returns the pieces on a board by number, then place, or `None` if no accepted command
    /// started the board.
    pub fn board_rows(&mut self, board: &Id) -> Result<Option<PlacedRows>, Unavailable>
        ensures trace { ForKept S.Store D.Stands self.old self.new
            (λ L. IfOk result (λ pieces. pieces ≡ board_trace L.history board.now)) }
        // The two traces are each other's converse, so neither can miss what the other has.
        ensures converse { ForKept S.Store D.Stands self.old self.new
            (λ L. IfOk result
            (λ pieces. (lot : Name) → AreConverse board.now pieces lot
            (lot_board_names L.history lot))) }
        ensures reads { ReadsStore S.Store D.Stands self.old self.new }
    {
        let working = self.working.as_ref();
        Ok(line_traces::board_rows(self.alloc, &mut self.conn, working, board)?)
    }

    /// Returns the pieces of a lot by number, then place, or `None` if no accepted command received
    /// a reel of the lot.
    pub fn lot_rows(&mut self, lot: &Id) -> Result<Option<PlacedRows>, Unavailable>
        ensures trace { ForKept S.Store D.Stands self.old self.new
            (λ L. IfOk result (λ pieces. pieces ≡ lot_trace L.history lot.now)) }
        ensures reads { ReadsStore S.Store D.Stands self.old self.new }
    {
        let working = self.working.as_ref();
        Ok(line_traces::lot_rows(self.alloc, &mut self.conn, working, lot)?)
    }

    /// Returns the boards that hold a piece of a lot, each once and in byte order, or `None` if no
    /// accepted command received a reel of the lot.
    pub fn lot_boards(&mut self, lot: &Id) -> Result<Option<IdList>, Unavailable>
        ensures boards { ForKept S.Store D.Stands self.old self.new
            (λ L. IfOk result (λ boards. boards ≡ lot_board_names L.history lot.now)) }
        ensures converse { ForKept S.Store D.Stands self.old self.new
            (λ L. IfOk result
            (λ boards. (board : Name) → AreConverse board
            (board_trace L.history board) lot.now boards)) }
        ensures reads { ReadsStore S.Store D.Stands self.old self.new }
    {
        let working = self.working.as_ref();
        Ok(line_traces::lot_boards(self.alloc, &mut self.conn, working, lot)?)
    }

    /// Returns all pieces by number, then place.
    pub fn placed_rows(&mut self) -> Result<PlacedRows, Unavailable>
        ensures rows { ForKept S.Store D.Stands self.old self.new
            (λ L. IfOk result (λ pieces. pieces ≡ placements_of L.history)) }
        ensures reads { ReadsStore S.Store D.Stands self.old self.new }
    {
        Ok(line_traces::placed_rows(self.alloc, &mut self.conn)?)
    }

    /// Returns the pieces of reels whose floor life was used up, by number, then place.
    pub fn overdue_rows(&mut self) -> Result<PlacedRows, Unavailable>
        ensures rows { ForKept S.Store D.Stands self.old self.new
            (λ L. IfOk result (λ pieces. pieces ≡ overdue_of L.history)) }
        ensures reads { ReadsStore S.Store D.Stands self.old self.new }
    {
        let working = self.working.as_ref();
        Ok(line_traces::overdue_rows(self.alloc, &mut self.conn, working)?)
    }
}
