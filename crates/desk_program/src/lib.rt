//! A whole run of the program: its arguments ask for a command on a desk in memory or in a file.
#![tactic(auto)]

mod run;
mod system;
mod whole;

pub use run::{ClosedFiles, program, wordless, words};
pub use system::SystemClients;
pub use whole::whole_run;
