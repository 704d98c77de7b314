//! The entry that a faulty message makes.

ghost use Rattle.std.specs.Prelude.{◌≡◌, option_map, IfOk};
ghost use Rattle.std.specs.List.{list_any};
ghost use Rattle.serde_json.specs.View.{view};
ghost use Rattle.desk_types.specs.Id.{same};
ghost use Rattle.cfx_profile.specs.declared.member.Member.TheVariants.{MessageName};
ghost use Rattle.cfx_profile.specs.Forms.{text_at};
ghost use Rattle.cfx_profile.specs.Word.{message_name};
ghost use Rattle.line_entries.specs.Unread.{fault_word, faulty, may_be_done, name_in};

use cfx_profile::{Member, MessageFault};
use desk_types::{Id, Word};
use line_book::Matter;
use serde_json::Value;
use serde_json::error::Category;
use std::alloc::{AllocError, Global};

/// The kinds of messages that say what was done at a machine.
const MACHINE_WORDS: [Word; 7] = [
    Word::MaterialsLoaded,
    Word::MaterialsSpliced,
    Word::MaterialsUnloaded,
    Word::WorkStarted,
    Word::WorkCompleted,
    Word::MaterialsInstalled,
    Word::MaterialsScrapped,
];

/// Returns the entry that the message with this fault makes, if any. Only a message without a name
/// that can be read, or with the name of a load, splice, unload, start, completion, install or scrap,
/// makes one.
pub fn faulty(
    alloc: Global,
    told: &[u8],
    fault: &MessageFault,
) -> Result<Option<Matter>, AllocError>
    ensures { IfOk result (λ matter. matter ≡ faulty told.now fault.now) }
{
    if !may_be_done(alloc, told)? {
        return Ok(None);
    }
    match fault_word(fault) {
        Some(word) => Ok(Some(Matter::Unread { word })),
        None => Ok(None),
    }
}

fn may_be_done(alloc: Global, told: &[u8]) -> Result<bool, AllocError>
    ensures { IfOk result (λ may. may ≡ may_be_done (name_in told.now)) }
{
    match Value::from_slice(alloc, told) {
        Ok(value) => Ok(may_be_under(&value)),
        Err(e) if e.classify() == Category::Memory => Err(AllocError),
        Err(_) => Ok(true),
    }
}

fn name_of(value: &Value) -> Option<&str>
    ensures { option_map (λ name. name.now) result ≡ text_at MessageName (view value.now) }
{
    value
        .get(Member::MessageName.as_str())
        .and_then(Value::as_str)
}

fn may_be_under(value: &Value) -> bool
    ensures { result ≡ may_be_done (text_at MessageName (view value.now)) }
{
    match name_of(value) {
        Some(name) => is_named_among(&MACHINE_WORDS, name),
        None => true,
    }
}

fn is_named_among(words: &[Word], name: &str) -> bool
    ensures { result ≡ list_any (λ w. same (message_name w) name.now) words.now }
{
    words.iter().any(|word| is_named(*word, name))
}

fn is_named(word: Word, name: &str) -> bool
    ensures { result ≡ same (message_name word) name.now }
{
    match name.as_bytes().strip_prefix(b"TraceDesk.") {
        Some(rest) => word.as_str().as_bytes() == rest,
        None => false,
    }
}

fn fault_word(fault: &MessageFault) -> Option<Id>
    ensures { result ≡ fault_word fault.now }
{
    match fault {
        MessageFault::NotJson => Id::read(b"NotJson"),
        MessageFault::NotObject => Id::read(b"NotObject"),
        MessageFault::EnvelopeMember(_) => Id::read(b"EnvelopeMember"),
        MessageFault::BadTime => Id::read(b"BadTime"),
        MessageFault::BodyMember(_) => Id::read(b"BodyMember"),
        MessageFault::OverLimit(_) => Id::read(b"OverLimit"),
        MessageFault::NoMemory => None,
    }
}
