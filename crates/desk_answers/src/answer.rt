//! Answers to commands.

ghost use Rattle.std.specs.Prelude.{◌≡◌, ℕ, false, List, map, Ok, IfOk};
ghost use Rattle.serde_json.specs.Data.{array, string};
ghost use Rattle.serde_json.specs.View.{view, items_of};
ghost use Rattle.serde_json.specs.Written.{compact_text, has_float};
ghost use Rattle.desk_answers.specs.declared.answer.Answer.TheVariants as Answer;
ghost use Rattle.desk_answers.specs.Commands.{answer_text, is_refused};
ghost use Rattle.desk_answers.specs.Texts.{minutes, accepted_object, accepted_text, refusal_word, place_of, refused_object, refused_text, id_reused_object, id_reused_text, desk_full_object, desk_full_text};

use cfx_profile::unavailable_text;
use desk_types::{Detail, Id, Listing, Refusal, Text};
use serde_json::{Value, json};
use std::alloc::{AllocError, Global};

/// The answer to a command.
#[derive(PartialEq, Eq, Drop)]
pub enum Answer {
    /// Accepted, now or earlier, with its number and the text of its first answer.
    Accepted(u64, Text),
    /// Refused; the message can be sent again.
    Refused(Refusal),
    /// Another message has the same UniqueID; its command has this number.
    IdReused(u64),
    /// The desk has no number left.
    DeskFull,
    /// Out of memory, or the storage failed. The history is unchanged, and the message can be sent
    /// again.
    Unavailable,
}

impl Answer {
    /// Returns the text of the answer to the message with this UniqueID. Takes no memory for
    /// `Accepted`.
    pub fn into_text(self, alloc: Global, uid: &Id) -> Result<Text, AllocError>
        ensures accepted { (number : ℕ) (text : List ℕ)
            → self ≡ Answer.Accepted number text → result ≡ Ok text }
        ensures text { IfOk result (λ text. text ≡ answer_text uid.now self) }
    {
        match self {
            Answer::Accepted(_, text) => Ok(text),
            Answer::Refused(refusal) => refused_text(alloc, &refusal, uid),
            Answer::IdReused(number) => id_reused_text(alloc, number, uid),
            Answer::DeskFull => desk_full_text(alloc, uid),
            Answer::Unavailable => {
                Ok(Listing::new(unavailable_text().as_bytes().to_vec(alloc)?))
            }
        }
    }

    /// Returns whether the answer counts as refused: all except `Accepted` do.
    pub fn is_refused(&self) -> bool
        ensures { result ≡ is_refused self.now }
    {
        !matches!(self, Answer::Accepted(..))
    }
}

/// Returns the text of the answer to an accepted command with this number.
#[tactic(auto, unfolding(crate::specs::Texts::accepted_text))]
pub fn accepted_text(
    alloc: Global,
    number: u64,
    uid: &Id,
    detail: &Detail,
) -> Result<Text, AllocError>
    ensures { IfOk result (λ text. text ≡ accepted_text number uid.now detail.now) }
{
    let answer = accepted_object(alloc, number, uid.as_str(), detail)?;
    compact(alloc, &answer)
}

fn accepted_object(
    alloc: Global,
    number: u64,
    uid: &str,
    detail: &Detail,
) -> Result<Value, AllocError>
    ensures value { IfOk result
        (λ answer. view answer ≡ accepted_object number uid.now detail.now) }
    ensures whole { IfOk result (λ answer. has_float (view answer) ≡ false) }
{
    match detail {
        Detail::Plain => json!(in alloc; {"Answer": "Accepted", "Number": number, "UniqueID": uid}),
        Detail::MinutesLeft(left) => {
            let left = minutes(*left);
            json!(in alloc; {"Answer": "Accepted", "MinutesLeft": left, "Number": number, "UniqueID": uid})
        }
        Detail::Reels(reels) => {
            let reels = strings(alloc, reels.as_slice())?;
            json!(in alloc; {"Answer": "Accepted", "Number": number, "Reels": reels, "UniqueID": uid})
        }
        Detail::Taken(pieces) => {
            json!(in alloc; {"Answer": "Accepted", "Number": number, "Taken": *pieces, "UniqueID": uid})
        }
    }
}

fn minutes(left: Option<u64>) -> Value
    ensures { view result ≡ minutes left }
{
    match left {
        Some(minutes) => Value::from(minutes),
        None => Value::Null,
    }
}

fn strings(alloc: Global, names: &[Id]) -> Result<Value, AllocError>
    ensures value { IfOk result (λ value. view value ≡ array (items_of (map string names.now))) }
    ensures whole { IfOk result (λ value. has_float (view value) ≡ false) }
{
    let mut values = Vec::new(alloc);
    for name in names {
        values.push(Value::from(String::from_str(alloc, name.as_str())?))?;
    }
    Ok(Value::Array(values))
}

#[tactic(auto, unfolding(crate::specs::Texts::refused_text))]
fn refused_text(alloc: Global, refusal: &Refusal, uid: &Id) -> Result<Text, AllocError>
    ensures { IfOk result (λ text. text ≡ refused_text refusal.now uid.now) }
{
    let answer = refused_object(alloc, word(refusal), place(refusal), uid.as_str())?;
    compact(alloc, &answer)
}

#[tactic(auto, unfolding(crate::specs::Texts::id_reused_text))]
fn id_reused_text(alloc: Global, number: u64, uid: &Id) -> Result<Text, AllocError>
    ensures { IfOk result (λ text. text ≡ id_reused_text number uid.now) }
{
    let answer = id_reused_object(alloc, number, uid.as_str())?;
    compact(alloc, &answer)
}

#[tactic(auto, unfolding(crate::specs::Texts::desk_full_text))]
fn desk_full_text(alloc: Global, uid: &Id) -> Result<Text, AllocError>
    ensures { IfOk result (λ text. text ≡ desk_full_text uid.now) }
{
    let answer = refused_object(alloc, "DeskFull", None, uid.as_str())?;
    compact(alloc, &answer)
}

fn compact(alloc: Global, answer: &Value) -> Result<Text, AllocError>
    ensures { IfOk result (λ text. has_float (view answer.now) ≡ false
        → text ≡ compact_text (view answer.now)) }
{
    Ok(Listing::new(answer.to_string(alloc)?.into_bytes()))
}

fn refused_object(
    alloc: Global,
    word: &str,
    place: Option<Id>,
    uid: &str,
) -> Result<Value, AllocError>
    ensures value { IfOk result (λ answer. view answer ≡ refused_object word.now place uid.now) }
    ensures whole { IfOk result (λ answer. has_float (view answer) ≡ false) }
{
    match place {
        None => json!(in alloc; {"Answer": "Refused", "Refusal": word, "UniqueID": uid}),
        Some(place) => {
            let at = place.as_str();
            json!(in alloc; {"Answer": "Refused", "At": at, "Refusal": word, "UniqueID": uid})
        }
    }
}

fn id_reused_object(alloc: Global, number: u64, uid: &str) -> Result<Value, AllocError>
    ensures { IfOk result (λ answer. view answer ≡ id_reused_object number uid.now) }
{
    json!(in alloc; {"Answer": "Refused", "Number": number, "Refusal": "IdReused", "UniqueID": uid})
}

fn word(refusal: &Refusal) -> &'static str
    ensures { result.now ≡ refusal_word refusal.now }
{
    match refusal {
        Refusal::TooFarAhead => "TooFarAhead",
        Refusal::PartExists(_) => "PartExists",
        Refusal::UnknownPart(_) => "UnknownPart",
        Refusal::ReelExists(_) => "ReelExists",
        Refusal::UnknownReel(_) => "UnknownReel",
        Refusal::UnknownSheet(_) => "UnknownSheet",
        Refusal::MachineBusy(_) => "MachineBusy",
        Refusal::SlotTwice(_) => "SlotTwice",
        Refusal::DesignatorTwice(_) => "DesignatorTwice",
        Refusal::NoProduct(_) => "NoProduct",
        Refusal::SlotNotOnSheet(_) => "SlotNotOnSheet",
        Refusal::SlotTaken(_) => "SlotTaken",
        Refusal::SlotEmpty(_) => "SlotEmpty",
        Refusal::ReelMounted(_) => "ReelMounted",
        Refusal::ReelEmpty(_) => "ReelEmpty",
        Refusal::WrongPart(_) => "WrongPart",
        Refusal::NotBaked(_) => "NotBaked",
        Refusal::Expired(_) => "Expired",
        Refusal::BoardBusy(_) => "BoardBusy",
        Refusal::OtherProduct(_) => "OtherProduct",
        Refusal::NotInWork(_) => "NotInWork",
        Refusal::DesignatorNotOnSheet(_) => "DesignatorNotOnSheet",
        Refusal::AlreadyPlaced(_) => "AlreadyPlaced",
        Refusal::ReelShort(_) => "ReelShort",
        Refusal::ReelTwice(_) => "ReelTwice",
        Refusal::CountAbove(_) => "CountAbove",
    }
}

fn place(refusal: &Refusal) -> Option<Id>
    ensures { result ≡ place_of refusal.now }
{
    match refusal {
        Refusal::TooFarAhead => None,
        Refusal::PartExists(name)
        | Refusal::UnknownPart(name)
        | Refusal::ReelExists(name)
        | Refusal::UnknownReel(name)
        | Refusal::UnknownSheet(name)
        | Refusal::MachineBusy(name)
        | Refusal::SlotTwice(name)
        | Refusal::DesignatorTwice(name)
        | Refusal::NoProduct(name)
        | Refusal::SlotNotOnSheet(name)
        | Refusal::SlotTaken(name)
        | Refusal::SlotEmpty(name)
        | Refusal::ReelMounted(name)
        | Refusal::ReelEmpty(name)
        | Refusal::WrongPart(name)
        | Refusal::NotBaked(name)
        | Refusal::Expired(name)
        | Refusal::BoardBusy(name)
        | Refusal::OtherProduct(name)
        | Refusal::NotInWork(name)
        | Refusal::DesignatorNotOnSheet(name)
        | Refusal::AlreadyPlaced(name)
        | Refusal::ReelShort(name)
        | Refusal::ReelTwice(name)
        | Refusal::CountAbove(name) => Some(*name),
    }
}
