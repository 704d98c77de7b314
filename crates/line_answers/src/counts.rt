//! The counts of both lists.

ghost use Rattle.std.specs.Prelude.{◌≡◌, false, IfOk};
ghost use Rattle.serde_json.specs.View.{view};
ghost use Rattle.serde_json.specs.Written.{has_float};
ghost use Rattle.line_answers.specs.Counts.{counts_object, counts_text};

use desk_types::{Listing, Text};
use serde_json::{Value, json};
use std::alloc::{AllocError, Global};

/// How many commands were accepted, and how many entries there are: all, the open ones, and those that
/// wait for a decision.
#[derive(Clone, Copy, PartialEq, Eq)]
pub struct Counts {
    pub commands: u32,
    pub entries: u32,
    pub open_entries: usize,
    pub undecided: usize,
}

/// Returns the text of the answer, such as
/// `{"Answer":"Counts","Commands":6,"Entries":3,"Open":1,"Undecided":2}`.
#[tactic(auto, unfolding(crate::specs::Counts::counts_text))]
pub fn counts_text(alloc: Global, counts: Counts) -> Result<Text, AllocError>
    ensures { IfOk result (λ text. text ≡ counts_text counts) }
{
    let answer = counts_object(alloc, counts)?;
    Ok(Listing::new(answer.to_string(alloc)?.into_bytes()))
}

fn counts_object(alloc: Global, counts: Counts) -> Result<Value, AllocError>
    ensures value { IfOk result (λ answer. view answer ≡ counts_object counts) }
    ensures whole { IfOk result (λ answer. has_float (view answer) ≡ false) }
{
    let commands = counts.commands;
    let entries = counts.entries;
    let open = counts.open_entries;
    let undecided = counts.undecided;
    json!(in alloc; {"Answer": "Counts", "Commands": commands, "Entries": entries, "Open": open, "Undecided": undecided})
}
