//! Why a route's body isn't taken.

ghost use Rattle.std.specs.Prelude.{◌≡◌, false, IfOk};
ghost use Rattle.serde_json.specs.View.{view};
ghost use Rattle.serde_json.specs.Written.{has_float};
ghost use Rattle.cfx_profile.specs.Answer.{faulty, faulty_at};
ghost use Rattle.line_answers.specs.Fault.{fault_object, fault_text, member_text};

use crate::kind::{Kind, not_found};
use crate::member::Member;
use desk_types::{Listing, Text};
use serde_json::{Value, json};
use std::alloc::{AllocError, Global};

/// Why a body isn't taken: the first of these that applies.
#[derive(Clone, Copy, PartialEq, Eq)]
pub enum LineFault {
    /// The bytes aren't JSON in UTF-8.
    NotJson,
    /// The value is not an object.
    NotObject,
    /// The member is absent or has another form.
    BodyMember(Member),
    /// There is no such entry.
    NotFound(Kind),
    /// There was too little memory. This can replace any other result.
    NoMemory,
}

impl From<AllocError> for LineFault {
    ghost use Rattle.std.specs.Prelude.{◌≡◌};
    ghost use Rattle.line_answers.specs.declared.fault.LineFault.TheVariants.{NoMemory};

    ghost from_gives = { λ _ fault. fault ≡ NoMemory };

    fn from(_: AllocError) -> LineFault {
        LineFault::NoMemory
    }
}

impl LineFault {
    /// Returns the text of the answer to the fault, such as
    /// `{"Answer":"Faulty","Fault":"BodyMember","Member":"Of"}`.
    #[tactic(auto, unfolding(crate::specs::Fault::fault_text))]
    pub fn write_text(&self, alloc: Global) -> Result<Text, AllocError>
        ensures { IfOk result (λ text. text ≡ fault_text self.now) }
    {
        let answer = self.object(alloc)?;
        Ok(Listing::new(answer.to_string(alloc)?.into_bytes()))
    }

    fn object(&self, alloc: Global) -> Result<Value, AllocError>
        ensures value { IfOk result (λ answer. view answer ≡ fault_object self.now) }
        ensures whole { IfOk result (λ answer. has_float (view answer) ≡ false) }
    {
        match self {
            LineFault::NotJson => faulty(alloc, "NotJson"),
            LineFault::NotObject => faulty(alloc, "NotObject"),
            LineFault::BodyMember(member) => faulty_at(alloc, "BodyMember", *member),
            LineFault::NotFound(kind) => not_found(alloc, kind.as_str()),
            LineFault::NoMemory => json!(in alloc; {"Answer": "Unavailable"}),
        }
    }
}

fn faulty(alloc: Global, fault: &str) -> Result<Value, AllocError>
    ensures { IfOk result (λ answer. view answer ≡ faulty fault.now) }
{
    json!(in alloc; {"Answer": "Faulty", "Fault": fault})
}

fn faulty_at(alloc: Global, fault: &str, member: Member) -> Result<Value, AllocError>
    ensures { IfOk result (λ answer. view answer ≡ faulty_at fault.now (member_text member)) }
{
    json!(in alloc; {"Answer": "Faulty", "Fault": fault, "Member": member.as_str()})
}
