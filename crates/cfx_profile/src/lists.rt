//! Readers of lists in a body.

ghost use Rattle.std.specs.Prelude.{◌≡◌, length, map, IfOk, IfErr, OnOk, Ok, Err, ◌++◌, ◌∷◌, []};
ghost use Rattle.serde_json.specs.View.{view};
ghost use Rattle.desk_types.specs.Bounds.{IsListLength};
ghost use Rattle.cfx_profile.specs.Lists.{each, items_in, list_in, row_in};
ghost use Rattle.cfx_profile.specs.Fault.{IsSaid};

use crate::fault::MessageFault;
use crate::forms::designator_in;
use crate::member::Member;
use desk_types::{Bounded, Designator, LONGEST_LIST, Listing};
use serde_json::Value;
use std::alloc::{AllocError, Global};

/// An element of a list in a body.
pub trait Element: Drop + Sized {
    ghost use Rattle.std.specs.Prelude.{Result};
    ghost use Rattle.serde_json.specs.Data.{Data};
    ghost use Rattle.cfx_profile.specs.declared.fault.MessageFault.{MessageFault};

    ghost said: { Data → Result Self MessageFault };

    /// Reads the element from an item.
    fn read(alloc: Global, item: &Value) -> Result<Self, MessageFault>
        // `said` defines the reading of this element; only `NoMemory` may replace its result.
        ensures { IsSaid (said (view item.now)) result };
}

#[tactic(auto, unfolding(crate::specs::Lists::items_in))]
fn items_in(body: &Value, member: Member) -> Result<&[Value], MessageFault>
    ensures ok { IfOk result (λ items. items_in member (view body.now) ≡ Ok (map view items.now)) }
    // So `list_in` can make a `Bounded` list of the elements, without a case for other lengths.
    ensures count { IfOk result (λ items. IsListLength (length items.now)) }
    ensures err { IfErr result (λ fault. items_in member (view body.now) ≡ Err fault) }
{
    let Some(items) = body.get(member.as_str()).and_then(Value::as_array) else {
        return Err(MessageFault::BodyMember(member));
    };
    if items.is_empty() {
        return Err(MessageFault::BodyMember(member));
    }
    if items.len() > LONGEST_LIST {
        return Err(MessageFault::OverLimit(member));
    }
    Ok(items.as_slice())
}

fn put<T: Drop>(found: &mut Vec<T>, element: T) -> Result<(), AllocError>
    ensures { OnOk result (found.new.items ≡ found.old.items ++ element ∷ []) }
{
    found.push(element)?;
    Ok(())
}

fn each<T: Element>(alloc: Global, items: &[Value]) -> Result<Listing<T>, MessageFault>
    ensures { IsSaid (each T.said (map view items.now)) result }
{
    let mut found = Vec::new(alloc);
    for item in items {
        let element = T::read(alloc, item)?;
        put(&mut found, element)?;
    }
    Ok(Listing::new(found))
}

#[tactic(auto, unfolding(crate::specs::Lists::list_in))]
pub fn list_in<T: Element>(
    alloc: Global,
    body: &Value,
    member: Member,
) -> Result<Bounded<T>, MessageFault>
    ensures { IsSaid (list_in T.said member (view body.now)) result }
{
    let items = items_in(body, member)?;
    let found = each::<T>(alloc, items)?;
    match Bounded::new(found.into_vec()) {
        Some(list) => Ok(list),
        None => unreachable!(),
    }
}

/// Returns an item of a list of rows, which is an object.
#[tactic(auto, unfolding(crate::specs::Lists::row_in))]
pub fn row_in(item: &Value, member: Member) -> Result<&Value, MessageFault>
    ensures ok { IfOk result (λ row. row_in member (view item.now) ≡ Ok (view row.now)) }
    ensures err { IfErr result (λ fault. row_in member (view item.now) ≡ Err fault) }
{
    if !item.is_object() {
        return Err(MessageFault::BodyMember(member));
    }
    Ok(item)
}

impl Element for Designator {
    ghost use Rattle.cfx_profile.specs.Forms.{designator_in};

    ghost said = { designator_in };

    fn read(_: Global, item: &Value) -> Result<Designator, MessageFault> {
        designator_in(item)
    }
}
