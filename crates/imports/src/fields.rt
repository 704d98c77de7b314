//! The forms of fields.

ghost use Rattle.std.specs.Prelude.{◌≡◌, option_map, IfOk};
ghost use Rattle.std.specs.Char.{is_ascii_digit};
ghost use Rattle.std.specs.List.{list_all};
ghost use Rattle.csv.specs.Records.{fields_of};
ghost use Rattle.cfx_profile.specs.Forms.{id_of, designator_of};
ghost use Rattle.imports.specs.File.{field, text_of, is_number, quantity_of, designators_of};

use csv::ByteRecord;
use desk_types::{Bounded, CountedQuantity, Designator, Designators, Id, MOST_DIGITS};
use std::alloc::{AllocError, Global};

/// Returns the record's field at a place, from 0, or no bytes.
pub fn field(row: &ByteRecord, place: usize) -> &[u8]
    ensures { result.now ≡ field (fields_of row.now) place }
{
    match row.get(place) {
        Some(field) => field,
        None => &[],
    }
}

/// Returns the field if it is UTF-8.
pub fn text_at(row: &ByteRecord, place: usize) -> Option<&str>
    ensures { option_map (λ text. text.now) result ≡ text_of (field (fields_of row.now) place) }
{
    str::from_utf8(field(row, place)).ok()
}

pub fn id_of(text: &str) -> Option<Id>
    ensures { result ≡ id_of text.now }
{
    Id::read(text.as_bytes())
}

fn designator_of(text: &str) -> Option<Designator>
    ensures { result ≡ designator_of text.now }
{
    Designator::read(text.as_bytes())
}

/// Reads designators separated by single spaces.
#[tactic(auto, unfolding(crate::specs::File::designators_of))]
pub fn designators_of(alloc: Global, text: &str) -> Result<Option<Designators>, AllocError>
    ensures { IfOk result (λ found. found ≡ designators_of text.now) }
{
    let mut found = Vec::new(alloc);
    for word in text.split(' ') {
        match designator_of(word) {
            Some(designator) => found.push(designator)?,
            None => return Ok(None),
        }
    }
    Ok(Bounded::new(found))
}

/// Reads a quantity of 1 to 8 digits.
#[tactic(auto, unfolding(crate::specs::File::quantity_of))]
pub fn quantity_of(text: &str) -> Option<CountedQuantity>
    ensures { result ≡ quantity_of text.now }
{
    if !is_number(text.as_bytes()) {
        return None;
    }
    CountedQuantity::new(text.parse::<u64>().ok()?)
}

fn is_number(text: &[u8]) -> bool
    ensures { result ≡ is_number text.now }
{
    !text.is_empty() && text.len() <= MOST_DIGITS && are_digits(text)
}

fn are_digits(text: &[u8]) -> bool
    ensures { result ≡ list_all is_ascii_digit text.now }
{
    text.iter().all(|byte| byte.is_ascii_digit())
}
