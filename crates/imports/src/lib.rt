//! Reading a setup file or a count file (CSV) as one command.
//!
//! A setup file is a sheet, and a count file is a count of reels. `specs/File.antt` defines the
//! content of a file from the records that `csv` reads.
#![tactic(auto)]

mod answer;
mod fault;
mod fields;
mod file;
mod import;
mod law;
mod records;
mod rows;

pub use fault::ImportFault;
pub use file::{read_counts, read_setup};
pub use import::{Content, Import};
pub use law::{commands_are_said, first_records_decide, rows_have_their_lines};
