//! What the answer says of a cause.

ghost use Rattle.std.specs.Prelude.{◌≡◌, false, IfOk};
ghost use Rattle.serde_json.specs.View.{view};
ghost use Rattle.serde_json.specs.Written.{has_float};
ghost use Rattle.desk_answers.specs.Texts.{refusal_word};
ghost use Rattle.line_answers.specs.State.{cause_object, entry_object, held_object, name_or_null, plain_object, reel_in, refusal_in, slot_in, slot_object};

use desk_types::{Id, Refusal};
use line_book::{Cause, Matter};
use line_entries::{kind_text, refusal_word};
use serde_json::{Value, json};
use std::alloc::{AllocError, Global};

/// Returns the name, or null without one.
pub fn name_or_null(alloc: Global, name: &Option<Id>) -> Result<Value, AllocError>
    ensures value { IfOk result (λ value. view value ≡ name_or_null name.now) }
    ensures whole { IfOk result (λ value. has_float (view value) ≡ false) }
{
    match name {
        Some(name) => Ok(Value::from(String::from_str(alloc, name.as_str())?)),
        None => Ok(Value::Null),
    }
}

/// Returns the object of the cause.
pub fn cause_object(alloc: Global, cause: &Cause) -> Result<Value, AllocError>
    ensures value { IfOk result (λ value. view value ≡ cause_object cause.now) }
    ensures whole { IfOk result (λ value. has_float (view value) ≡ false) }
{
    match cause {
        Cause::NoWork => plain_object(alloc, "NoWork"),
        Cause::Open(note) => entry_object(alloc, note.number, &note.matter),
        Cause::NoSheet => plain_object(alloc, "NoSheet"),
        Cause::AtSlot {
            slot,
            reel,
            refusal,
        } => slot_object(alloc, slot, reel, refusal),
        Cause::Held { slot, reel, number } => held_object(alloc, slot, reel, *number),
    }
}

fn plain_object(alloc: Global, cause: &str) -> Result<Value, AllocError>
    ensures value { IfOk result (λ value. view value ≡ plain_object cause.now) }
    ensures whole { IfOk result (λ value. has_float (view value) ≡ false) }
{
    json!(in alloc; {"Cause": cause})
}

fn entry_object(alloc: Global, number: u32, matter: &Matter) -> Result<Value, AllocError>
    ensures value { IfOk result (λ value. view value ≡ entry_object number matter.now) }
    ensures whole { IfOk result (λ value. has_float (view value) ≡ false) }
{
    let kind = kind_text(matter);
    let reel = name_or_null(alloc, &reel_in(matter))?;
    let refusal = name_or_null(alloc, &refusal_in(matter))?;
    let slot = name_or_null(alloc, &slot_in(matter))?;
    json!(in alloc; {"Cause": "Open", "Entry": number, "Kind": kind, "Reel": reel, "Refusal": refusal, "Slot": slot})
}

fn slot_object(
    alloc: Global,
    slot: &Id,
    reel: &Option<Id>,
    refusal: &Refusal,
) -> Result<Value, AllocError>
    ensures value { IfOk result
        (λ value. view value ≡ slot_object slot.now reel.now (refusal_word refusal.now)) }
    ensures whole { IfOk result (λ value. has_float (view value) ≡ false) }
{
    let reel = name_or_null(alloc, reel)?;
    let refusal = refusal_word(refusal);
    let slot = slot.as_str();
    json!(in alloc; {"Cause": "AtSlot", "Reel": reel, "Refusal": refusal, "Slot": slot})
}

fn held_object(alloc: Global, slot: &Id, reel: &Id, number: u32) -> Result<Value, AllocError>
    ensures value { IfOk result (λ value. view value ≡ held_object slot.now reel.now number) }
    ensures whole { IfOk result (λ value. has_float (view value) ≡ false) }
{
    let reel = reel.as_str();
    let slot = slot.as_str();
    json!(in alloc; {"Cause": "Held", "Entry": number, "Reel": reel, "Slot": slot})
}

fn slot_in(matter: &Matter) -> Option<Id>
    ensures { result ≡ slot_in matter.now }
{
    match matter {
        Matter::Handling { slot, .. } => Some(*slot),
        Matter::Stray { slot, .. } => Some(*slot),
        Matter::Work { slot, .. } => *slot,
        Matter::Differs { slot, .. } => Some(*slot),
        _ => None,
    }
}

fn reel_in(matter: &Matter) -> Option<Id>
    ensures { result ≡ reel_in matter.now }
{
    match matter {
        Matter::Handling { reel, .. } => *reel,
        Matter::Stray { reel, .. } => *reel,
        Matter::Differs { reel, .. } => Some(*reel),
        _ => None,
    }
}

fn refusal_in(matter: &Matter) -> Option<Id>
    ensures { result ≡ refusal_in matter.now }
{
    match matter {
        Matter::Handling { word, .. } => Some(*word),
        Matter::Stray { word, .. } => Some(*word),
        Matter::Work { word, .. } => Some(*word),
        _ => None,
    }
}
