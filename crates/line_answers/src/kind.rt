//! What a route didn't find.

ghost use Rattle.std.specs.Prelude.{◌≡◌, false, IfOk};
ghost use Rattle.serde_json.specs.View.{view};
ghost use Rattle.serde_json.specs.Written.{has_float};
ghost use Rattle.cfx_profile.specs.Answer.{not_found};
ghost use Rattle.line_answers.specs.NotFound.{kind_word, not_found_text};

use desk_types::{Listing, Text};
use serde_json::{Value, json};
use std::alloc::{AllocError, Global};

/// The subject of a request.
#[derive(Clone, Copy, PartialEq, Eq)]
pub enum Kind {
    /// A machine that no sheet names.
    Machine,
    /// An entry that the book doesn't have.
    Entry,
}

impl Kind {
    /// Returns the kind's name, such as `Machine`.
    pub fn as_str(self) -> &'static str
        ensures { result.now ≡ kind_word self }
    {
        match self {
            Kind::Machine => "Machine",
            Kind::Entry => "Entry",
        }
    }
}

/// Returns the text of the answer when none of this kind is found, such as
/// `{"Answer":"NotFound","Kind":"Entry"}`.
#[tactic(auto, unfolding(crate::specs::NotFound::not_found_text))]
pub fn not_found_text(alloc: Global, kind: Kind) -> Result<Text, AllocError>
    ensures { IfOk result (λ text. text ≡ not_found_text kind) }
{
    let answer = not_found(alloc, kind.as_str())?;
    Ok(Listing::new(answer.to_string(alloc)?.into_bytes()))
}

pub fn not_found(alloc: Global, kind: &str) -> Result<Value, AllocError>
    ensures value { IfOk result (λ answer. view answer ≡ not_found kind.now) }
    ensures whole { IfOk result (λ answer. has_float (view answer) ≡ false) }
{
    json!(in alloc; {"Answer": "NotFound", "Kind": kind})
}
