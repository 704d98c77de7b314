//! A desk in a file, or in memory.
#![tactic(auto)]

mod law;
mod memory;
mod memory_file;
mod opening;
mod pages;
mod path;
mod refusal;

pub use law::next_run_goes_on;
pub use memory::in_memory;
pub use memory_file::MemoryFile;
pub use opening::{
    DeskFile, FileDesk, close_desk, close_file, is_empty_at, migrate_desk, open_desk,
};
pub use path::{FileOpener, connect_to, open_at};
pub use refusal::RefusedFile;
