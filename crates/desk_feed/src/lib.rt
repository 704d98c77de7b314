//! Answering lines of input and imports, for any reader, writer and owner of a history, such as a
//! store in memory or in a file.
//!
//! `feed` takes lines by `take_line`, asks the owner by `answer_message`, and writes answers by
//! `send_line`. An import is one command, from options and a file, with one answer: `setup_import` and
//! `counts_import` read the options, `read_file` the bytes, and `serve_import` answers. `specs/` defines
//! the answers.
#![tactic(auto)]

mod answering;
mod feeding;
mod law;
mod line;
mod message;
mod options;
mod reading;
mod taking;

pub use answering::{answer_import, serve_import};
pub use feeding::feed;
pub use law::repeats_act_once;
pub use line::LineAnswer;
pub use message::{AnswerText, Verdict, answer_command, answer_message, message_verdict};
pub use options::{BadOption, counts_import, setup_import};
pub use reading::{Folder, UnreadFile, read_file};
