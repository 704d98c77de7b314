//! Faults of requests.

use crate::parameter::Parameter;
use crate::routes::Method;
use std::alloc::AllocError;

/// Why a request can't be read: the first of these that applies.
#[derive(Clone, Copy, PartialEq, Eq)]
pub enum AskFault {
    /// No route has the path.
    NoPath,
    /// The path only allows this method.
    BadMethod(Method),
    /// The parameter is missing, repeated or invalid. It is the first such one in the route's
    /// order.
    BadQuery(Parameter),
    /// There was too little memory. This can replace any other result.
    NoMemory,
}

impl From<AllocError> for AskFault {
    ghost use Rattle.std.specs.Prelude.{◌≡◌};
    ghost use Rattle.gateway_http.specs.declared.fault.AskFault.TheVariants.{NoMemory};

    ghost from_gives = { λ _ fault. fault ≡ NoMemory };

    fn from(_: AllocError) -> AskFault {
        AskFault::NoMemory
    }
}
