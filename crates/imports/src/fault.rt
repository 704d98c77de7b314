//! Faults of files.

use std::alloc::AllocError;

/// Why a file is rejected: its first fault. Lines are records, and the header is line 1; columns
/// count from 1.
#[derive(Clone, Copy, PartialEq, Eq)]
pub enum ImportFault {
    /// The first record is not the header, or the file has no record.
    BadHeader,
    /// The record at this line has a field that isn't UTF-8, or not as many fields as the header.
    /// At line 2 also: the record is missing.
    BadRow(u64),
    /// The field at this line and column has another form.
    BadField(u64, u64),
    /// The file has over 1,048,576 bytes, or over 5,000 rows.
    OverLimit,
    /// There was too little memory. This can replace any other result.
    NoMemory,
}

impl From<AllocError> for ImportFault {
    ghost use Rattle.std.specs.Prelude.{◌≡◌};
    ghost use Rattle.imports.specs.declared.fault.ImportFault.TheVariants.{NoMemory};

    ghost from_gives = { λ _ fault. fault ≡ NoMemory };

    fn from(_: AllocError) -> ImportFault {
        ImportFault::NoMemory
    }
}
