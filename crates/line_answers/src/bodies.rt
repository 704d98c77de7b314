//! The bodies that the line's own routes read. Members are read in order, and the first bad one
//! decides. If a key is repeated, its last value counts, and every other member is skipped.

ghost use Rattle.std.specs.Prelude.{◌≡◌, option_map};
ghost use Rattle.std.specs.List.{list_all};
ghost use Rattle.serde_json.specs.View.{view};
ghost use Rattle.cfx_profile.specs.Fault.{IsSaidBut};
ghost use Rattle.line_answers.specs.Bodies.{decision_about, decision_in, decision_said, has_saying, hold_said, is_length, is_lot_in, is_lot_of, is_plain, is_saying, name_in, number_in, release_said, saying_in, stock_in, stock_of, text_at};
ghost use Rattle.line_answers.specs.declared.fault.LineFault.TheVariants as LineFault;

use crate::fault::LineFault;
use crate::kind::Kind;
use crate::limits::LONGEST_SAYING;
use crate::member::Member;
use crate::object::{id_of, object_in};
use desk_types::Id;
use line_book::{Matter, Stock};
use serde_json::Value;
use std::alloc::Global;

/// Reads a decision, such as `{"Of":12,"Became":"scrapped","By":"A. Person","Reason":"cracked"}`, in a
/// book of so many entries.
#[tactic(auto, unfolding(crate::specs::Bodies::decision_said))]
pub fn read_decision(alloc: Global, entries: u32, bytes: &[u8]) -> Result<Matter, LineFault>
    ensures { IsSaidBut LineFault.NoMemory (decision_said entries bytes.now) result }
{
    let body = object_in(alloc, bytes)?;
    decision_in(entries, &body)
}

#[tactic(auto, unfolding(crate::specs::Bodies::decision_in))]
fn decision_in(entries: u32, body: &Value) -> Result<Matter, LineFault>
    ensures { result ≡ decision_in entries (view body.now) }
{
    let about = number_in(body, Member::Of)?;
    saying_in(body, Member::Became)?;
    saying_in(body, Member::By)?;
    saying_in(body, Member::Reason)?;
    decision_about(entries, about)
}

fn decision_about(entries: u32, about: u64) -> Result<Matter, LineFault>
    ensures { result ≡ decision_about entries about }
{
    if 0 < about && about <= u64::from(entries) {
        Ok(Matter::Decision {
            about: about as u32,
        })
    } else {
        Err(LineFault::NotFound(Kind::Entry))
    }
}

/// Reads a hold, such as `{"Hold":"lot","Name":"L1","By":"A. Person","Reason":"wrong label"}`.
#[tactic(auto, unfolding(crate::specs::Bodies::hold_said))]
pub fn read_hold(alloc: Global, bytes: &[u8]) -> Result<Matter, LineFault>
    ensures { IsSaidBut LineFault.NoMemory (hold_said bytes.now) result }
{
    let body = object_in(alloc, bytes)?;
    let stock = stock_in(&body, Member::Hold)?;
    Ok(Matter::Hold { stock })
}

/// Reads a release, such as `{"Release":"reel","Name":"R1","By":"A. Person","Reason":"measured"}`.
#[tactic(auto, unfolding(crate::specs::Bodies::release_said))]
pub fn read_release(alloc: Global, bytes: &[u8]) -> Result<Matter, LineFault>
    ensures { IsSaidBut LineFault.NoMemory (release_said bytes.now) result }
{
    let body = object_in(alloc, bytes)?;
    let stock = stock_in(&body, Member::Release)?;
    Ok(Matter::Release { stock })
}

#[tactic(auto, unfolding(crate::specs::Bodies::stock_in))]
fn stock_in(body: &Value, member: Member) -> Result<Stock, LineFault>
    ensures { result ≡ stock_in member (view body.now) }
{
    let is_lot = is_lot_in(body, member)?;
    let name = name_in(body, Member::Name)?;
    saying_in(body, Member::By)?;
    saying_in(body, Member::Reason)?;
    Ok(stock_of(is_lot, name))
}

fn stock_of(is_lot: bool, name: Id) -> Stock
    ensures { result ≡ stock_of is_lot name }
{
    if is_lot {
        Stock::Lot(name)
    } else {
        Stock::Reel(name)
    }
}

#[tactic(auto, unfolding(crate::specs::Bodies::is_lot_in))]
fn is_lot_in(body: &Value, member: Member) -> Result<bool, LineFault>
    ensures { result ≡ is_lot_in member (view body.now) }
{
    text_at(body, member)
        .and_then(is_lot_of)
        .ok_or(LineFault::BodyMember(member))
}

fn is_lot_of(text: &str) -> Option<bool>
    ensures { result ≡ is_lot_of text.now }
{
    if text.as_bytes() == "lot".as_bytes() {
        Some(true)
    } else if text.as_bytes() == "reel".as_bytes() {
        Some(false)
    } else {
        None
    }
}

fn text_at(body: &Value, member: Member) -> Option<&str>
    ensures { option_map (λ s. s.now) result ≡ text_at member (view body.now) }
{
    body.get(member.as_str()).and_then(Value::as_str)
}

#[tactic(auto, unfolding(crate::specs::Bodies::name_in))]
fn name_in(body: &Value, member: Member) -> Result<Id, LineFault>
    ensures { result ≡ name_in member (view body.now) }
{
    text_at(body, member)
        .and_then(id_of)
        .ok_or(LineFault::BodyMember(member))
}

#[tactic(auto, unfolding(crate::specs::Bodies::number_in))]
fn number_in(body: &Value, member: Member) -> Result<u64, LineFault>
    ensures { result ≡ number_in member (view body.now) }
{
    body.get(member.as_str())
        .and_then(Value::as_u64)
        .ok_or(LineFault::BodyMember(member))
}

#[tactic(auto, unfolding(crate::specs::Bodies::saying_in))]
fn saying_in(body: &Value, member: Member) -> Result<(), LineFault>
    ensures { result ≡ saying_in member (view body.now) }
{
    if has_saying(body, member) {
        Ok(())
    } else {
        Err(LineFault::BodyMember(member))
    }
}

fn has_saying(body: &Value, member: Member) -> bool
    ensures { result ≡ has_saying member (view body.now) }
{
    match text_at(body, member) {
        Some(text) => is_saying(text),
        None => false,
    }
}

fn is_saying(text: &str) -> bool
    ensures { result ≡ is_saying text.now }
{
    is_length(text.len()) && are_plain(text.as_bytes())
}

fn is_length(length: usize) -> bool
    ensures { result ≡ is_length length }
{
    0 < length && length <= LONGEST_SAYING
}

fn are_plain(bytes: &[u8]) -> bool
    ensures { result ≡ list_all is_plain bytes.now }
{
    bytes.iter().all(|b| is_plain(*b))
}

fn is_plain(byte: u8) -> bool
    ensures { result ≡ is_plain byte }
{
    byte >= 0x20 && byte != 0x7f
}
