//! Messages and their envelopes.

ghost use Rattle.std.specs.Prelude.{◌≡◌, ◌≢◌, Some, None, Ok, Err, IfOk, IfErr};
ghost use Rattle.serde_json.specs.View.{view};
ghost use Rattle.cfx_profile.specs.Answer.{IsNamedByText};
ghost use Rattle.cfx_profile.specs.Fault.{IsSaid};
ghost use Rattle.cfx_profile.specs.Message.{value_of, envelope_text, envelope_id, envelope_object, minute_in, stamped_in, said_in};

use crate::bodies::command_in;
use crate::fault::MessageFault;
use crate::forms::{id_at, text_at};
use crate::member::Member;
use crate::minute::read_minute;
use crate::word::word_of;
use desk_types::{Id, Listing, Minute, Stamped, Text, Word};
use serde_json::Value;
use serde_json::error::Category;
use std::alloc::Global;

/// The content of a message.
#[derive(PartialEq, Eq, Drop)]
pub enum Said {
    /// A message with another name. Nothing else is read in it.
    Ignored(Text),
    /// A command, with its UniqueID, source and minute.
    Asked(Stamped),
}

/// Reads a message from its bytes, a JSON object (RFC 8259) in UTF-8.
///
/// The envelope's members are read in the order `MessageName`, `UniqueID`, `Source`, `TimeStamp`,
/// `MessageBody`, then the time, then the body's members; the first bad one decides. If a key is
/// repeated, its last value counts. Every other member is skipped.
#[tactic(auto, unfolding(crate::specs::Message::said_in))]
pub fn read_message(alloc: Global, bytes: &[u8]) -> Result<Said, MessageFault>
    ensures said { IsSaid (said_in bytes.now) result }
    // So `ignored_text` can repeat the name byte for byte.
    ensures text { IfOk result IsNamedByText }
{
    let value = value_of(alloc, bytes)?;
    if !value.is_object() {
        return Err(MessageFault::NotObject);
    }
    let name = envelope_text(&value, Member::MessageName)?;
    match word_of(name) {
        None => Ok(Said::Ignored(Listing::new(name.as_bytes().to_vec(alloc)?))),
        Some(word) => Ok(Said::Asked(stamped_in(alloc, word, &value)?)),
    }
}

#[tactic(auto, unfolding(crate::specs::Message::value_of))]
fn value_of(alloc: Global, bytes: &[u8]) -> Result<Value, MessageFault>
    ensures ok { IfOk result (λ value. value_of bytes.now ≡ Some (view value)) }
    // Bytes that aren't UTF-8 have the same fault as a text that isn't JSON.
    ensures kind { IfErr result
        (λ fault. fault ≢ MessageFault.NoMemory → fault ≡ MessageFault.NotJson) }
    // Bytes that have a JSON value are refused only for lack of memory.
    ensures bad { IfErr result
        (λ fault. fault ≢ MessageFault.NoMemory → value_of bytes.now ≡ None) }
{
    match Value::from_slice(alloc, bytes) {
        Ok(value) => Ok(value),
        Err(e) if e.classify() == Category::Memory => Err(MessageFault::NoMemory),
        Err(_) => Err(MessageFault::NotJson),
    }
}

#[tactic(auto, unfolding(crate::specs::Message::stamped_in))]
fn stamped_in(alloc: Global, word: Word, envelope: &Value) -> Result<Stamped, MessageFault>
    ensures { IsSaid (stamped_in word (view envelope.now)) result }
{
    let uid = envelope_id(envelope, Member::UniqueId)?;
    let source = envelope_id(envelope, Member::Source)?;
    let time = envelope_text(envelope, Member::TimeStamp)?;
    let body = envelope_object(envelope, Member::MessageBody)?;
    let minute = minute_in(time)?;
    let command = command_in(alloc, word, body)?;
    Ok(Stamped {
        uid,
        source,
        minute,
        command,
    })
}

#[tactic(auto, unfolding(crate::specs::Message::envelope_text))]
fn envelope_text(envelope: &Value, member: Member) -> Result<&str, MessageFault>
    ensures ok { IfOk result (λ text. envelope_text member (view envelope.now) ≡ Ok text.now) }
    ensures err { IfErr result (λ fault. envelope_text member (view envelope.now) ≡ Err fault) }
{
    text_at(envelope, member).ok_or(MessageFault::EnvelopeMember(member))
}

#[tactic(auto, unfolding(crate::specs::Message::envelope_id))]
fn envelope_id(envelope: &Value, member: Member) -> Result<Id, MessageFault>
    ensures { result ≡ envelope_id member (view envelope.now) }
{
    id_at(envelope, member).ok_or(MessageFault::EnvelopeMember(member))
}

#[tactic(auto, unfolding(crate::specs::Message::envelope_object))]
fn envelope_object(envelope: &Value, member: Member) -> Result<&Value, MessageFault>
    ensures ok { IfOk result
        (λ object. envelope_object member (view envelope.now) ≡ Ok (view object.now)) }
    ensures err { IfErr result (λ fault. envelope_object member (view envelope.now) ≡ Err fault) }
{
    match envelope.get(member.as_str()) {
        Some(object) if object.is_object() => Ok(object),
        _ => Err(MessageFault::EnvelopeMember(member)),
    }
}

#[tactic(auto, unfolding(crate::specs::Message::minute_in, crate::specs::Minute::minute_said))]
fn minute_in(time: &str) -> Result<Minute, MessageFault>
    ensures { result ≡ minute_in time.now }
{
    read_minute(time).map_err(|_| MessageFault::BadTime)
}
