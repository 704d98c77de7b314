//! The placed pieces of a file, with their parts, lots and minutes: all of them, those of a board, of a lot, and of
//! reels whose floor life was used up. Each call reads the committed contents and changes nothing. Inside an open
//! transaction of the caller it reads nothing.
#![tactic(auto)]

mod by_lists;
mod decode;
mod law;
mod looked;
mod pieces;
mod row;
mod traces;
mod working;

pub use law::rows_are_converse;
pub use pieces::placed_rows;
pub use row::PlacedRows;
pub use traces::{board_rows, lot_boards, lot_rows, overdue_rows};
pub use working::Working;
