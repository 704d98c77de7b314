//! Faults of messages.

use crate::member::Member;
use std::alloc::AllocError;

/// Why a message can't be read: the first of these that applies. The body's first member that is
/// bad or over its limit decides between those two.
#[derive(Clone, Copy, PartialEq, Eq)]
pub enum MessageFault {
    /// The bytes aren't JSON in UTF-8, nest deeper than 127 levels, or have a number or escape
    /// without a value.
    NotJson,
    /// The value is not an object.
    NotObject,
    /// The envelope's member is absent or has another form.
    EnvelopeMember(Member),
    /// The time has no minute from 1970 to 9999.
    BadTime,
    /// The body's member is absent or has another form.
    BodyMember(Member),
    /// The body's member is a number or list over its limit.
    OverLimit(Member),
    /// There was too little memory. This can replace any other result.
    NoMemory,
}

impl From<AllocError> for MessageFault {
    ghost use Rattle.std.specs.Prelude.{◌≡◌};
    ghost use Rattle.cfx_profile.specs.declared.fault.MessageFault.TheVariants.{NoMemory};

    ghost from_gives = { λ _ fault. fault ≡ NoMemory };

    fn from(_: AllocError) -> MessageFault {
        MessageFault::NoMemory
    }
}
