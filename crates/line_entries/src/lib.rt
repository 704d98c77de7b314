//! The entries of a line's book: which entry a message makes, and the row that it is stored as.
//!
//! A server calls it for each message that the desk refused or couldn't read. The entry goes to the
//! guard, and its row into the file, before the answer goes out.
#![tactic(auto)]

mod columns;
mod entry;
mod law;
mod refusal;
mod row;
mod told;
mod unread;

pub use columns::kind_text;
pub use entry::{Place, fault_note, plain_note, refusal_note};
pub use law::{a_text_tells_each_byte, only_a_live_reel_verifies};
pub use refusal::{refusal_word, refused};
pub use row::{Sender, row_of};
pub use told::told_text;
pub use unread::faulty;
