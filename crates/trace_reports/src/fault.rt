//! Why there is no report.

ghost use Rattle.std.specs.Prelude.{◌≡◌, IfOk};
ghost use Rattle.trace_reports.specs.Answer.{fault_text};

use crate::kind::{Kind, not_found_text};
use cfx_profile::unavailable_text;
use desk_types::{Listing, Text};
use line_schema::Unavailable;
use std::alloc::{AllocError, Global};

/// Why there is no report.
#[derive(Clone, Copy, PartialEq, Eq)]
pub enum ReportFault {
    /// The history has nothing of this kind and name.
    NotFound(Kind),
    /// Memory was refused, or the database failed. The history is unchanged, and the call may be
    /// repeated.
    Unavailable,
}

impl From<AllocError> for ReportFault {
    ghost use Rattle.std.specs.Prelude.{◌≡◌};
    ghost use Rattle.trace_reports.specs.declared.fault.ReportFault.TheVariants.{Unavailable};

    ghost from_gives = { λ _ fault. fault ≡ Unavailable };

    fn from(_: AllocError) -> ReportFault {
        ReportFault::Unavailable
    }
}

impl From<Unavailable> for ReportFault {
    ghost use Rattle.std.specs.Prelude.{◌≡◌};
    ghost use Rattle.trace_reports.specs.declared.fault.ReportFault.TheVariants.{Unavailable};

    ghost from_gives = { λ _ fault. fault ≡ Unavailable };

    fn from(_: Unavailable) -> ReportFault {
        ReportFault::Unavailable
    }
}

impl ReportFault {
    /// Returns the text of the answer to the fault, such as `{"Answer":"NotFound","Kind":"Lot"}`.
    pub fn write_text(&self, alloc: Global) -> Result<Text, AllocError>
        ensures { IfOk result (λ text. text ≡ fault_text self.now) }
    {
        match self {
            ReportFault::NotFound(kind) => not_found_text(alloc, *kind),
            ReportFault::Unavailable => {
                Ok(Listing::new(unavailable_text().as_bytes().to_vec(alloc)?))
            }
        }
    }
}
