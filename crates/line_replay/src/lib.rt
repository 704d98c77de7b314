//! The history from its table: a command written as a row, a row read as a command, and a replay in
//! which a desk judges each row again. A replay keeps the rows that the other tables should have, and
//! looks up their placements on the way; `audit` compares the state tables with those rows.
#![tactic(auto)]

mod auditing;
mod compared;
mod edits;
mod ends;
mod expected;
mod fault;
mod floor;
mod judging;
mod kept;
mod pieces;
mod placed;
mod placed_pieces;
mod placements;
mod reading;
mod repeated;
mod replaying;
mod row_fault;
mod setup;
mod sheets;
mod shown;
mod table;
mod taking;

pub use auditing::{Placed, audit};
pub use edits::{Acceptance, prepare};
pub use fault::ReplayFault;
pub use judging::{Taken, accept_row};
pub use kept::{row_of, rows_tell_lists_apart};
pub use placements::{FoundRows, has_placements};
pub use reading::stamped_of;
pub use repeated::answer_under;
pub use replaying::{Replayed, rebuild, replay};
pub use row_fault::{NoRow, RowFault};
pub use table::StateTable;
