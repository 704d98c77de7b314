//! The answers to what people decide and hold.

ghost use Rattle.std.specs.Prelude.{◌≡◌, false, IfOk};
ghost use Rattle.serde_json.specs.View.{view};
ghost use Rattle.serde_json.specs.Written.{has_float};
ghost use Rattle.line_answers.specs.Noted.{noted_object, noted_text, noted_word};

use desk_types::{Listing, Text};
use serde_json::{Value, json};
use std::alloc::{AllocError, Global};

/// What was noted in the book.
#[derive(Clone, Copy, PartialEq, Eq)]
pub enum Noted {
    Decided,
    Held,
    Released,
}

/// Returns the text of the answer, such as `{"Answer":"Decided","Entry":13}`. `number` is that of the
/// new entry.
#[tactic(auto, unfolding(crate::specs::Noted::noted_text))]
pub fn noted_text(alloc: Global, noted: Noted, number: u32) -> Result<Text, AllocError>
    ensures { IfOk result (λ text. text ≡ noted_text noted number) }
{
    let answer = noted_object(alloc, noted_word(noted), number)?;
    Ok(Listing::new(answer.to_string(alloc)?.into_bytes()))
}

fn noted_object(alloc: Global, word: &str, number: u32) -> Result<Value, AllocError>
    ensures value { IfOk result (λ answer. view answer ≡ noted_object word.now number) }
    ensures whole { IfOk result (λ answer. has_float (view answer) ≡ false) }
{
    json!(in alloc; {"Answer": word, "Entry": number})
}

fn noted_word(noted: Noted) -> &'static str
    ensures { result.now ≡ noted_word noted }
{
    match noted {
        Noted::Decided => "Decided",
        Noted::Held => "Held",
        Noted::Released => "Released",
    }
}
