//! The answer to one line.

ghost use Rattle.std.specs.Prelude.{◌≡◌, ◌∷◌, [], ℕ, List, MatchOption};
ghost use Rattle.desk_answers.specs.Ledger.{ForLists};
ghost use Rattle.desk_feed.specs.Taking.{HoldsLine};
ghost use Rattle.desk_feed.specs.LineAnswers.{line_told, AnswersRaw};
ghost use Rattle.desk_feed.specs.Lines.{lines_in, without_return};
ghost use Rattle.desk_feed.specs.Stream.{too_long_text};
ghost use Rattle.desk_feed.specs.Verdicts.{is_refused};

use crate::message::{AnswerText, answer_message};
use crate::taking::{RawLine, without_return};
use cfx_profile::unavailable_text;
use desk_answers::Owner;
use desk_types::LONGEST_INPUT;
use std::alloc::Global;

/// The answer to one line.
#[derive(Drop)]
pub enum LineAnswer {
    /// The answer to the line's message.
    Made(AnswerText),
    /// The line is over the limit.
    TooLong,
    /// Out of memory.
    Unavailable,
}

impl LineAnswer {
    /// Returns the text of the answer. Takes no memory.
    pub fn text(&self) -> &[u8]
        ensures { result.now ≡ (line_told self.now).text }
    {
        match self {
            LineAnswer::Made(told) => told.text.as_slice(),
            LineAnswer::TooLong => too_long_text().as_bytes(),
            LineAnswer::Unavailable => unavailable_text().as_bytes(),
        }
    }

    /// Returns whether the answer counts as refused.
    pub fn is_refused(&self) -> bool
        ensures { result ≡ is_refused (line_told self.now) }
    {
        match self {
            LineAnswer::Made(told) => told.is_refused(),
            LineAnswer::TooLong | LineAnswer::Unavailable => true,
        }
    }
}

fn too_long_text() -> &'static str
    ensures { result.now ≡ too_long_text }
{
    "{\"Answer\":\"Faulty\",\"Fault\":\"LineTooLong\"}"
}

/// Answers a line, or returns none if it is empty.
pub fn answer_line<L: Owner>(alloc: Global, owner: &mut L, raw: RawLine) -> Option<LineAnswer>
    requires ready { L.Ready owner.old }
    ensures ready { L.Ready owner.new }
    ensures trusts { L.Trusts owner.new → L.Trusts owner.old }
    ensures answer { (bytes : List ℕ) → HoldsLine raw bytes
        → ForLists L.Stands L.Trusts owner.old owner.new
        (λ G. AnswersRaw G.rules G.greatest G.history bytes result) }
    // Holds for storage that lies too: the bytes alone decide whether there is an answer.
    ensures empty { (bytes : List ℕ) → HoldsLine raw bytes
        → MatchOption result (lines_in bytes ≡ [])
        (λ answer. lines_in bytes ≡ without_return bytes ∷ []) }
{
    match raw {
        RawLine::NoMemoryReturn => None,
        RawLine::NoMemory => Some(LineAnswer::Unavailable),
        RawLine::Over => Some(LineAnswer::TooLong),
        RawLine::Whole(bytes) => {
            let bytes = without_return(&bytes);
            let too_long = bytes.len() > LONGEST_INPUT;
            if bytes.is_empty() {
                None
            } else if too_long {
                Some(LineAnswer::TooLong)
            } else {
                match answer_message(alloc, owner, bytes) {
                    Ok(told) => Some(LineAnswer::Made(told)),
                    Err(_) => Some(LineAnswer::Unavailable),
                }
            }
        }
    }
}
