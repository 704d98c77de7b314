//! The commands of the program, each on a desk in memory or in a file.
//!
//! `specs/Runs.antt` relates a run to its initial history, and `specs/Closed.antt` does so once the files are closed.
//! `specs/OpenRuns.antt` defines the work of a command at the open desk, however that is stored.
#![tactic(auto)]

mod clients;
mod exchange;
mod exit;
mod gateway;
mod import;
mod left;
mod lines;
mod looks;
mod port;
mod refusal;
mod serving;
mod texts;

pub use clients::{Clients, NoClient};
pub use exchange::{feed_in_file, feed_in_memory, import_in_file};
pub use exit::{Exit, bad_option, tell, tell_failure, tell_line, unavailable};
pub use gateway::{report_in_file, serve_in_file};
pub use import::import_rows;
pub use left::ToClose;
pub use lines::feed_lines;
pub use looks::{audit_file, migrate_file};
pub use port::{serve_owner, serve_port, tell_report};
pub use serving::serve_listener;
pub use texts::{send_text, tell_lawful};
