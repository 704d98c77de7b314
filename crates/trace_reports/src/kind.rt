//! The subjects of reports.

ghost use Rattle.std.specs.Prelude.{◌≡◌, false, IfOk};
ghost use Rattle.serde_json.specs.View.{view};
ghost use Rattle.serde_json.specs.Written.{has_float};
ghost use Rattle.cfx_profile.specs.Answer.{not_found};
ghost use Rattle.trace_reports.specs.NotFound.{kind_word, not_found_text};

use desk_types::{Listing, Text};
use serde_json::{Value, json};
use std::alloc::{AllocError, Global};

/// The subject of a report.
#[derive(Clone, Copy, PartialEq, Eq)]
pub enum Kind {
    Board,
    Lot,
    Reel,
    Machine,
    Sheet,
}

impl Kind {
    /// Returns the kind's name, such as `Lot`.
    pub fn as_str(self) -> &'static str
        ensures { result.now ≡ kind_word self }
    {
        match self {
            Kind::Board => "Board",
            Kind::Lot => "Lot",
            Kind::Reel => "Reel",
            Kind::Machine => "Machine",
            Kind::Sheet => "Sheet",
        }
    }
}

/// Returns the text of the answer when none of this kind is found, such as
/// `{"Answer":"NotFound","Kind":"Lot"}`.
#[tactic(auto, unfolding(crate::specs::NotFound::not_found_text))]
pub fn not_found_text(alloc: Global, kind: Kind) -> Result<Text, AllocError>
    ensures { IfOk result (λ text. text ≡ not_found_text kind) }
{
    let answer = not_found(alloc, kind.as_str())?;
    Ok(Listing::new(answer.to_string(alloc)?.into_bytes()))
}

fn not_found(alloc: Global, kind: &str) -> Result<Value, AllocError>
    ensures value { IfOk result (λ answer. view answer ≡ not_found kind.now) }
    ensures whole { IfOk result (λ answer. has_float (view answer) ≡ false) }
{
    json!(in alloc; {"Answer": "NotFound", "Kind": kind})
}
