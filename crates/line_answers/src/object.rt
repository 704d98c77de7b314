//! JSON objects, and names in them.

ghost use Rattle.std.specs.Prelude.{◌≡◌, ◌≢◌, Some, None, Ok, Err, IfOk, IfErr};
ghost use Rattle.serde_json.specs.View.{view};
ghost use Rattle.cfx_profile.specs.Forms.{id_of};
ghost use Rattle.cfx_profile.specs.Message.{value_of};
ghost use Rattle.line_answers.specs.Bodies.{body_in};
ghost use Rattle.line_answers.specs.declared.fault.LineFault.TheVariants as LineFault;

use crate::fault::LineFault;
use desk_types::Id;
use serde_json::Value;
use serde_json::error::Category;
use std::alloc::Global;

/// Returns the bytes as a JSON object.
#[tactic(auto, unfolding(crate::specs::Bodies::body_in))]
pub fn object_in(alloc: Global, bytes: &[u8]) -> Result<Value, LineFault>
    ensures ok { IfOk result (λ body. body_in bytes.now ≡ Ok (view body)) }
    ensures err { IfErr result
        (λ fault. fault ≢ LineFault.NoMemory → body_in bytes.now ≡ Err fault) }
{
    let value = value_of(alloc, bytes)?;
    if !value.is_object() {
        return Err(LineFault::NotObject);
    }
    Ok(value)
}

fn value_of(alloc: Global, bytes: &[u8]) -> Result<Value, LineFault>
    ensures ok { IfOk result (λ value. value_of bytes.now ≡ Some (view value)) }
    ensures kind { IfErr result
        (λ fault. fault ≢ LineFault.NoMemory → fault ≡ LineFault.NotJson) }
    ensures bad { IfErr result
        (λ fault. fault ≢ LineFault.NoMemory → value_of bytes.now ≡ None) }
{
    match Value::from_slice(alloc, bytes) {
        Ok(value) => Ok(value),
        Err(e) if e.classify() == Category::Memory => Err(LineFault::NoMemory),
        Err(_) => Err(LineFault::NotJson),
    }
}

/// Returns the text as a name.
pub fn id_of(text: &str) -> Option<Id>
    ensures { result ≡ id_of text.now }
{
    Id::read(text.as_bytes())
}
