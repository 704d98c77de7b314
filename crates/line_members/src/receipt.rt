//! Attributes of a reel in its receipt.

ghost use Rattle.std.specs.Prelude.{◌≡◌, ◌++◌, Some, option_map, option_to_list, IfOk, OnOk};
ghost use Rattle.std.specs.List.{count_by, list_all};
ghost use Rattle.serde_json.specs.View.{view};
ghost use Rattle.line_members.specs.Receipt.{attribute_at, attribute_text, attributes, attributes_in, begins_character, finding_at, is_attribute, is_plain};

use crate::body::{body_of, value_of};
use crate::finding::Finding;
use desk_types::{Id, Listing};
use line_book::Matter;
use serde_json::Value;
use std::alloc::{AllocError, Global};

/// The most characters of an attribute's value.
pub const LONGEST_ATTRIBUTE: usize = 200;

/// An attribute of a reel that its receipt may have.
#[derive(Clone, Copy, PartialEq, Eq)]
pub enum AttributeName {
    DateCode,
    Supplier,
    MakerPart,
    Order,
}

impl AttributeName {
    /// Returns the member's key, which is the attribute's name in the book.
    pub fn as_str(self) -> &'static str
        ensures { result.now ≡ attribute_text self }
    {
        match self {
            AttributeName::DateCode => "DateCode",
            AttributeName::Supplier => "Supplier",
            AttributeName::MakerPart => "MakerPart",
            AttributeName::Order => "Order",
        }
    }

    fn id(self) -> Option<Id>
        // Each attribute's name is an id, so `finding_at` has no case for another.
        ensures { result ≡ Some (attribute_text self) }
    {
        match self {
            AttributeName::DateCode => Id::read(b"DateCode"),
            AttributeName::Supplier => Id::read(b"Supplier"),
            AttributeName::MakerPart => Id::read(b"MakerPart"),
            AttributeName::Order => Id::read(b"Order"),
        }
    }
}

/// Returns the attributes in an accepted receipt of the reel: a finding for each of `DateCode`,
/// `Supplier`, `MakerPart` and `Order`, in this order, that is a text of 1 to 200 characters without
/// a control character. A value in any other form makes none.
pub fn attributes(alloc: Global, told: &[u8], reel: &Id) -> Result<Vec<Finding>, AllocError>
    ensures { IfOk result (λ found. found.items ≡ attributes told.now reel.now) }
{
    let message = value_of(alloc, told)?;
    match body_of(&message) {
        Some(body) => attributes_in(alloc, reel, body),
        None => Ok(Vec::new(alloc)),
    }
}

fn attributes_in(alloc: Global, reel: &Id, body: &Value) -> Result<Vec<Finding>, AllocError>
    ensures { IfOk result (λ found. found.items ≡ attributes_in reel.now (view body.now)) }
{
    let mut found = Vec::new(alloc);
    add(alloc, &mut found, reel, body, AttributeName::DateCode)?;
    add(alloc, &mut found, reel, body, AttributeName::Supplier)?;
    add(alloc, &mut found, reel, body, AttributeName::MakerPart)?;
    add(alloc, &mut found, reel, body, AttributeName::Order)?;
    Ok(found)
}

fn add(
    alloc: Global,
    found: &mut Vec<Finding>,
    reel: &Id,
    body: &Value,
    name: AttributeName,
) -> Result<(), AllocError>
    ensures { OnOk result (found.new.items
        ≡ found.old.items ++ option_to_list (finding_at reel.now (view body.now) name)) }
{
    if let Some(finding) = finding_at(alloc, reel, body, name)? {
        found.push(finding)?;
    }
    Ok(())
}

fn finding_at(
    alloc: Global,
    reel: &Id,
    body: &Value,
    name: AttributeName,
) -> Result<Option<Finding>, AllocError>
    ensures { IfOk result (λ finding. finding ≡ finding_at reel.now (view body.now) name) }
{
    let Some(value) = attribute_at(body, name.as_str()) else {
        return Ok(None);
    };
    let Some(name) = name.id() else {
        unreachable!();
    };
    Ok(Some(Finding {
        matter: Matter::Attribute { reel: *reel, name },
        told: Listing::new(value.as_bytes().to_vec(alloc)?),
    }))
}

fn attribute_at<'a>(body: &'a Value, name: &str) -> Option<&'a str>
    ensures { option_map (λ text. text.now) result ≡ attribute_at name.now (view body.now) }
{
    match body.get(name).and_then(Value::as_str) {
        Some(text) if is_attribute(text) => Some(text),
        _ => None,
    }
}

fn is_attribute(text: &str) -> bool
    // The limit counts characters, and not the bytes of their UTF-8.
    ensures { result ≡ is_attribute text.now }
{
    !text.is_empty()
        && characters(text.as_bytes()) <= LONGEST_ATTRIBUTE
        && is_plain(text.as_bytes())
}

fn is_plain(text: &[u8]) -> bool
    ensures { result ≡ list_all is_plain text.now }
{
    text.iter().all(|b| *b >= 0x20 && *b != 0x7f)
}

fn characters(text: &[u8]) -> usize
    ensures { result ≡ count_by begins_character text.now }
{
    let mut count = 0;
    for byte in text {
        if begins_character(*byte) {
            count += 1;
        }
    }
    count
}

fn begins_character(byte: u8) -> bool
    ensures { result ≡ begins_character byte }
{
    byte < 0x80 || byte >= 0xc0
}
