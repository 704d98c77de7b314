//! The reels that a machine names for the pieces of an install.

ghost use Rattle.std.specs.Prelude.{◌≡◌, map, IfOk};
ghost use Rattle.std.specs.List.{list_all};
ghost use Rattle.serde_json.specs.View.{view};
ghost use Rattle.cfx_profile.specs.Forms.{id_of};
ghost use Rattle.line_members.specs.NamedReels.{is_reel, machine_reels, named_in, reel_of, reels_in, reels_said};

use crate::body::{body_of, value_of};
use desk_types::{Id, Listing};
use serde_json::Value;
use std::alloc::{AllocError, Global};

/// The reels that a machine names for the pieces of an install.
#[derive(PartialEq, Eq, Drop)]
pub enum MachineReels {
    /// The message doesn't name any.
    Absent,
    /// It names them in a form that can't be compared.
    Uncompared,
    /// For each designator in order the machine's reel, or none if it knows none.
    Named(Listing<Option<Id>>),
}

/// Returns the reels that an accepted install with so many designators names in its member
/// `MachineReels`: a list with a name or null for each designator. If any item has another form, or
/// their number is another, none is compared.
pub fn machine_reels(alloc: Global, told: &[u8], count: usize) -> Result<MachineReels, AllocError>
    // A member that is `null` names no reels, as if it were absent.
    ensures { IfOk result (λ reels. reels ≡ machine_reels told.now count) }
{
    let message = value_of(alloc, told)?;
    match body_of(&message) {
        Some(body) => reels_in(alloc, count, body),
        None => Ok(MachineReels::Absent),
    }
}

fn reels_in(alloc: Global, count: usize, body: &Value) -> Result<MachineReels, AllocError>
    ensures { IfOk result (λ reels. reels ≡ reels_in count (view body.now)) }
{
    match body.get("MachineReels") {
        Some(value) => reels_said(alloc, count, value),
        None => Ok(MachineReels::Absent),
    }
}

#[tactic(auto, using(crate::proofs::Items::said_so))]
fn reels_said(alloc: Global, count: usize, value: &Value) -> Result<MachineReels, AllocError>
    ensures { IfOk result (λ reels. reels ≡ reels_said count (view value.now)) }
{
    match value.as_array() {
        Some(items) => named_in(alloc, count, items.as_slice()),
        None if value.is_null() => Ok(MachineReels::Absent),
        None => Ok(MachineReels::Uncompared),
    }
}

#[tactic(auto, using(crate::proofs::Items::named_so))]
fn named_in(alloc: Global, count: usize, items: &[Value]) -> Result<MachineReels, AllocError>
    ensures { IfOk result (λ reels. reels ≡ named_in count (map view items.now)) }
{
    if items.len() != count || !are_reels(items) {
        return Ok(MachineReels::Uncompared);
    }
    Ok(MachineReels::Named(Listing::new(reels_of(alloc, items)?)))
}

fn are_reels(items: &[Value]) -> bool
    ensures { result ≡ list_all (λ item. is_reel (view item)) items.now }
{
    items.iter().all(|item| is_reel(item))
}

fn is_reel(item: &Value) -> bool
    ensures { result ≡ is_reel (view item.now) }
{
    item.is_null() || reel_of(item).is_some()
}

fn reels_of(alloc: Global, items: &[Value]) -> Result<Vec<Option<Id>>, AllocError>
    ensures { IfOk result (λ reels. reels.items ≡ map (λ item. reel_of (view item)) items.now) }
{
    let mut reels = Vec::new(alloc);
    for item in items {
        reels.push(reel_of(item))?;
    }
    Ok(reels)
}

fn reel_of(item: &Value) -> Option<Id>
    ensures { result ≡ reel_of (view item.now) }
{
    item.as_str().and_then(id_of)
}

fn id_of(text: &str) -> Option<Id>
    ensures { result ≡ id_of text.now }
{
    Id::read(text.as_bytes())
}
