//! The body of a message.

ghost use Rattle.std.specs.Prelude.{◌≡◌, option_map, option_and_then, IfOk};
ghost use Rattle.serde_json.specs.Find.{get};
ghost use Rattle.serde_json.specs.View.{view};
ghost use Rattle.cfx_profile.specs.declared.member.Member.TheVariants.{MessageBody};
ghost use Rattle.cfx_profile.specs.Member.{member_text};
ghost use Rattle.cfx_profile.specs.Message.{value_of};

use cfx_profile::Member;
use serde_json::Value;
use serde_json::error::Category;
use std::alloc::{AllocError, Global};

/// Returns the JSON value of the bytes, if they have one.
pub fn value_of(alloc: Global, told: &[u8]) -> Result<Option<Value>, AllocError>
    // Bytes without a JSON value are no error: nothing is found in them.
    ensures { IfOk result (λ value. option_map view value ≡ value_of told.now) }
{
    match Value::from_slice(alloc, told) {
        Ok(value) => Ok(Some(value)),
        Err(e) if e.classify() == Category::Memory => Err(AllocError),
        Err(_) => Ok(None),
    }
}

/// Returns the body of the message, if it has one.
pub fn body_of(message: &Option<Value>) -> Option<&Value>
    ensures { option_map (λ body. view body.now) result
        ≡ option_and_then (get (member_text MessageBody)) (option_map view message.now) }
{
    match message {
        Some(value) => value.get(Member::MessageBody.as_str()),
        None => None,
    }
}
