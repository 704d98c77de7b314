//! Readers of single members of a JSON object.

ghost use Rattle.std.specs.Prelude.{◌≡◌, option_map, IfOk};
ghost use Rattle.serde_json.specs.View.{view};
ghost use Rattle.cfx_profile.specs.Forms.{text_at, id_of, id_at, id_in, designator_of, designator_in, number_in, quantity_in, counted_in, level_in, label_in};
ghost use Rattle.desk_types.specs.Level.{IsLabel};

use crate::fault::MessageFault;
use crate::member::Member;
use desk_types::{CountedQuantity, Designator, GREATEST_LABEL, Id, Level, Quantity};
use serde_json::Value;

pub fn text_at(object: &Value, member: Member) -> Option<&str>
    ensures { option_map (λ s. s.now) result ≡ text_at member (view object.now) }
{
    object.get(member.as_str()).and_then(Value::as_str)
}

fn id_of(text: &str) -> Option<Id>
    ensures { result ≡ id_of text.now }
{
    Id::read(text.as_bytes())
}

/// Returns the member if it is a text with an id.
pub fn id_at(object: &Value, member: Member) -> Option<Id>
    ensures { result ≡ id_at member (view object.now) }
{
    text_at(object, member).and_then(id_of)
}

#[tactic(auto, unfolding(crate::specs::Forms::id_in))]
pub fn id_in(body: &Value, member: Member) -> Result<Id, MessageFault>
    ensures { result ≡ id_in member (view body.now) }
{
    id_at(body, member).ok_or(MessageFault::BodyMember(member))
}

#[tactic(auto, unfolding(crate::specs::Forms::number_in))]
fn number_in(body: &Value, member: Member) -> Result<u64, MessageFault>
    ensures { result ≡ number_in member (view body.now) }
{
    body.get(member.as_str())
        .and_then(Value::as_u64)
        .ok_or(MessageFault::BodyMember(member))
}

/// Reads 1 to 10,000,000 pieces.
#[tactic(auto, unfolding(crate::specs::Forms::quantity_in))]
pub fn quantity_in(body: &Value, member: Member) -> Result<Quantity, MessageFault>
    ensures { result ≡ quantity_in member (view body.now) }
{
    let pieces = number_in(body, member)?;
    if pieces == 0 {
        return Err(MessageFault::BodyMember(member));
    }
    Quantity::new(pieces).ok_or(MessageFault::OverLimit(member))
}

/// Reads 0 to 10,000,000 pieces.
#[tactic(auto, unfolding(crate::specs::Forms::counted_in))]
pub fn counted_in(row: &Value, member: Member) -> Result<CountedQuantity, MessageFault>
    ensures { result ≡ counted_in member (view row.now) }
{
    let pieces = number_in(row, member)?;
    CountedQuantity::new(pieces).ok_or(MessageFault::OverLimit(member))
}

/// Reads a moisture level.
#[tactic(auto, unfolding(crate::specs::Forms::level_in))]
pub fn level_in(body: &Value, member: Member) -> Result<Level, MessageFault>
    ensures { result ≡ level_in member (view body.now) }
{
    text_at(body, member)
        .and_then(|text| Level::read(text.as_bytes()))
        .ok_or(MessageFault::BodyMember(member))
}

/// Reads the minutes on the label at level 6, or returns 0 at any other.
#[tactic(auto, unfolding(crate::specs::Forms::label_in))]
pub fn label_in(body: &Value, level: Level, member: Member) -> Result<u64, MessageFault>
    ensures value { result ≡ label_in level member (view body.now) }
    // So the level and its label always make a `Moisture`, as `reel_received` needs.
    ensures range { IfOk result (λ label. IsLabel level label) }
{
    match level {
        Level::Six => {}
        _ => return Ok(0),
    }
    let minutes = number_in(body, member)?;
    if minutes == 0 {
        return Err(MessageFault::BodyMember(member));
    }
    if minutes > GREATEST_LABEL {
        return Err(MessageFault::OverLimit(member));
    }
    Ok(minutes)
}

fn designator_of(text: &str) -> Option<Designator>
    ensures { result ≡ designator_of text.now }
{
    Designator::read(text.as_bytes())
}

/// Reads a designator in a list.
#[tactic(auto, unfolding(crate::specs::Forms::designator_in))]
pub fn designator_in(item: &Value) -> Result<Designator, MessageFault>
    ensures { result ≡ designator_in (view item.now) }
{
    item.as_str()
        .and_then(designator_of)
        .ok_or(MessageFault::BodyMember(Member::Designators))
}
