//! Values as stored by SQL.

ghost use Rattle.std.specs.Prelude.{◌≡◌, ◌≤◌, ◌^◌, unwrap_or, [], ◌∷◌, ◌++◌, pos, IfOk, IfErr, OnOk, MatchResult};
ghost use Rattle.std.specs.List.{flat_map, join_with_byte};
ghost use Rattle.sqlite.specs.declared.types.Value.TheVariants.{Int, Text};
ghost use Rattle.sqlite_value.specs.Value.{owned};
ghost use Rattle.desk_types.specs.Level.{text_of};
ghost use Rattle.line_tables.specs.Rowids.{placement_id};
ghost use Rattle.line_tables.specs.StateRows.{flag, since_or_none};

use desk_types::{Designator, Id, Level, Minute};
use sqlite::Error;
use sqlite::types::ValueRef;
use std::alloc::{AllocError, Global};

/// Returns the number if SQL can store it, up to the greatest `i64`.
pub fn int<'a>(n: u64) -> Result<ValueRef<'a>, Error>
    ensures { MatchResult result (λ value. owned value ≡ Int (pos n)) (λ _. 2 ^ 63 ≤ n) }
{
    match i64::try_from(n) {
        Ok(i) => Ok(ValueRef::Int(i)),
        Err(_) => Err(Error::IntegralValueOutOfRange(0)),
    }
}

/// Returns the minute, or -1 for no minute.
pub fn since<'a>(minute: Option<Minute>) -> ValueRef<'a>
    ensures { owned result ≡ Int (since_or_none minute) }
{
    match minute {
        Some(minute) => ValueRef::Int(minute.get() as i64),
        None => ValueRef::Int(-1),
    }
}

/// Returns a name as text.
pub fn text(name: &Id) -> ValueRef<'_>
    ensures { owned result ≡ Text name.now }
{
    ValueRef::Text(name.as_bytes())
}

/// Returns a name as text, or the empty text.
pub fn text_or_empty(name: &Option<Id>) -> ValueRef<'_>
    ensures { owned result ≡ Text (unwrap_or name.now []) }
{
    match name {
        Some(name) => text(name),
        None => ValueRef::Text(b""),
    }
}

/// Returns a designator as text.
pub fn designator(designator: &Designator) -> ValueRef<'_>
    ensures { owned result ≡ Text designator.now }
{
    ValueRef::Text(designator.as_bytes())
}

/// Returns a level as its text.
pub fn level(level: Level) -> ValueRef<'static>
    ensures { owned result ≡ Text (text_of level) }
{
    ValueRef::Text(level.as_str().as_bytes())
}

/// Returns 1 for yes and 0 for no.
pub fn yes_or_no(b: bool) -> ValueRef<'static>
    ensures { owned result ≡ Int (flag b) }
{
    ValueRef::Int(i64::from(b))
}

/// Returns the rowid of a placement. Rowids are ordered by number and then by place, which is below 65,536.
pub fn placement_id<'a>(number: u64, place: u64) -> Result<ValueRef<'a>, Error>
    ensures ok { IfOk result (λ value. owned value ≡ Int (pos (placement_id number place))) }
    // A command's number is below 2^32 and a place below 65,536, so no desk meets this.
    ensures err { IfErr result (λ _. 2 ^ 63 ≤ placement_id number place) }
{
    let Some(first) = number.checked_mul(65_536) else {
        return Err(Error::IntegralValueOutOfRange(0));
    };
    let Some(id) = first.checked_add(place) else {
        return Err(Error::IntegralValueOutOfRange(0));
    };
    int(id)
}

/// Returns the designators joined by single spaces.
pub fn designators_text(alloc: Global, designators: &[Designator]) -> Result<Vec<u8>, AllocError>
    ensures { IfOk result (λ text. text.items ≡ join_with_byte 0x20 designators.now) }
{
    let mut text = Vec::new(alloc);
    let [first, others @ ..] = designators else {
        return Ok(text);
    };
    text.extend_from_slice(first.as_bytes())?;
    add_spaced(&mut text, others)?;
    Ok(text)
}

/// Adds each designator with a space before it.
fn add_spaced(text: &mut Vec<u8>, designators: &[Designator]) -> Result<(), AllocError>
    ensures { OnOk result (text.new.items ≡ text.old.items ++ flat_map
        (λ d. 0x20 ∷ d) designators.now) }
{
    for designator in designators {
        text.push(b' ')?;
        text.extend_from_slice(designator.as_bytes())?;
    }
    Ok(())
}
