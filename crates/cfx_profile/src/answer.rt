//! Answers to messages that aren't commands.

ghost use Rattle.std.specs.Prelude.{◌≡◌, IsUtf8, IfOk, codes, false};
ghost use Rattle.std.specs.Str.Lossy.{utf8_lossy};
ghost use Rattle.serde_json.specs.View.{view};
ghost use Rattle.serde_json.specs.Written.{compact_text, has_float};
ghost use Rattle.cfx_profile.specs.Answer.{faulty, faulty_at, ignored_object, fault_answer, fault_text, ignored_text, unavailable_text};
ghost use Rattle.cfx_profile.specs.Member.{member_text};

use crate::fault::MessageFault;
use crate::member::Member;
use desk_types::{Listing, Text};
use serde_json::{Value, json};
use std::alloc::{AllocError, Global};

impl MessageFault {
    /// Returns the text of the answer to the fault, such as
    /// `{"Answer":"Faulty","Fault":"NotJson"}`.
    #[tactic(auto, unfolding(crate::specs::Answer::fault_text))]
    pub fn write_text(&self, alloc: Global) -> Result<Text, AllocError>
        ensures { IfOk result (λ text. text ≡ fault_text self.now) }
    {
        let answer = self.answer(alloc)?;
        compact(alloc, &answer)
    }

    fn answer(&self, alloc: Global) -> Result<Value, AllocError>
        ensures value { IfOk result (λ answer. view answer ≡ fault_answer self.now) }
        // `compact` gives the defined text only for a value without floats.
        ensures whole { IfOk result (λ answer. has_float (view answer) ≡ false) }
    {
        match self {
            MessageFault::NotJson => faulty(alloc, "NotJson"),
            MessageFault::NotObject => faulty(alloc, "NotObject"),
            MessageFault::EnvelopeMember(member) => faulty_at(alloc, "EnvelopeMember", *member),
            MessageFault::BadTime => faulty(alloc, "BadTime"),
            MessageFault::BodyMember(member) => faulty_at(alloc, "BodyMember", *member),
            MessageFault::OverLimit(member) => faulty_at(alloc, "OverLimit", *member),
            MessageFault::NoMemory => json!(in alloc; {"Answer": "Unavailable"}),
        }
    }
}

/// Returns the text of the answer to a message with another name.
///
/// Names from `read_message` are UTF-8. In any other bytes, U+FFFD replaces each part that is not.
#[tactic(auto, unfolding(crate::specs::Answer::ignored_text))]
pub fn ignored_text(alloc: Global, name: &Text) -> Result<Text, AllocError>
    ensures text { IfOk result (λ text. IsUtf8 name.now → text ≡ ignored_text name.now) }
    ensures lossy { IfOk result (λ text. text ≡ ignored_text (utf8_lossy name.now)) }
{
    let name = String::from_utf8_lossy(alloc, name.as_slice())?;
    let answer = ignored_object(alloc, name.as_str())?;
    compact(alloc, &answer)
}

/// Returns the text of the answer when out of memory, `{"Answer":"Unavailable"}`. Takes no memory.
pub fn unavailable_text() -> &'static str
    ensures { result.now ≡ unavailable_text }
{
    "{\"Answer\":\"Unavailable\"}"
}

fn compact(alloc: Global, answer: &Value) -> Result<Text, AllocError>
    ensures { IfOk result (λ text. has_float (view answer.now) ≡ false
        → text ≡ compact_text (view answer.now)) }
{
    Ok(Listing::new(answer.to_string(alloc)?.into_bytes()))
}

fn ignored_object(alloc: Global, name: &str) -> Result<Value, AllocError>
    ensures { IfOk result (λ answer. view answer ≡ ignored_object name.now) }
{
    json!(in alloc; {"Answer": "Ignored", "MessageName": name})
}

fn faulty(alloc: Global, fault: &str) -> Result<Value, AllocError>
    ensures { IfOk result (λ answer. view answer ≡ faulty fault.now) }
{
    json!(in alloc; {"Answer": "Faulty", "Fault": fault})
}

fn faulty_at(alloc: Global, fault: &str, member: Member) -> Result<Value, AllocError>
    ensures { IfOk result (λ answer. view answer ≡ faulty_at fault.now (member_text member)) }
{
    json!(in alloc; {"Answer": "Faulty", "Fault": fault, "Member": member.as_str()})
}
