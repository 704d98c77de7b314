//! The tables of a line and their SQL: creating them, writing them in one transaction, reading them. This crate knows
//! nothing of the desk: a row's texts are just texts.
#![tactic(auto)]

mod edit;
mod floor;
mod making;
mod migrating;
mod naming;
mod pieces;
mod reading;
pub mod row_values;
mod rowids;
mod rows;
pub mod select;
mod setup;
mod shown;
mod statement;
pub mod values;
mod version;
mod writing;

pub use edit::Accepted;
pub use making::{make, make_all};
pub use migrating::migrate_tables;
pub use naming::{has_accepted, has_our_name, has_state, has_version};
pub use reading::{MOST_COUNTED, count, count_of, find, is_repeat, least_number, least_of, row_at};
pub use rowids::are_apart;
pub use shown::placements_between;
pub use statement::run;
pub use version::{Version, find_version};
pub use writing::{append, put_all};
