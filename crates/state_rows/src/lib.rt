//! The edits that each accepted command makes in the state tables, and sets of their rows.
//!
//! `TraceLists` has the trace indexes of a history: the placed pieces of each lot, the installs on each
//! board, the overdue pieces, and the effective minute of each entry. They only locate rows; readers
//! check each row of the table.
#![tactic(auto)]

mod counted;
mod keeping;
mod kept;
mod lists;
mod mounts;
mod noting;
mod reels;
mod rows;
mod set;
mod sheets;
mod slot_rows;
mod takes;
mod views;

pub use desk_types::{BoardRow, MountRow, PlacementRow, ReelRow, RowEdit, RowEdits};
pub use keeping::KeepsRows;
pub use lists::{Install, PieceKey, TraceLists};
pub use rows::{edits_for, rows_of};
pub use set::RowSet;
pub use views::Views;
