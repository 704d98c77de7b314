//! Why there is no store.

use line_replay::{ReplayFault, StateTable};
use std::fmt;

/// Why no store is made or opened: the first of these that applies. Unavailable may replace any
/// other.
#[derive(Clone, Copy, PartialEq, Eq)]
pub enum OpenFault {
    /// `version` or one of its columns is missing, or it does not have a single row of three whole
    /// numbers, the first 1 and the last from 1 to 1,000,000,000; or, if the version is ours,
    /// another table or a column is missing. A file of version 1 to be migrated has no table
    /// `found`.
    NotADesk,
    /// The tables are of another version than 2, or than 1 for a migration.
    OtherVersion(i64),
    /// The first place of the history, from 1, whose row is missing, can't be read, or isn't what
    /// judging it again gives.
    NotLawful(u32),
    /// The first table, in their order, whose rows aren't those of the history.
    TableDiffers(StateTable),
    /// A table with one of our names exists.
    NotBlank,
    /// Memory was refused, or the database failed.
    Unavailable,
}

/// Its name and, after a space, its number or its table.
impl fmt::Display for OpenFault {
    ghost use Rattle.std.specs.Prelude.{Some};
    ghost use Rattle.line_schema.specs.Opening.{fault_text};

    ghost output = { λ fault. Some (fault_text fault) };

    fn fmt<W: fmt::Write>(&self, f: &mut fmt::Formatter<W>) -> fmt::Result {
        match self {
            OpenFault::NotADesk => f.write_str("NotADesk"),
            OpenFault::OtherVersion(number) => write!(f, "OtherVersion {number}"),
            OpenFault::NotLawful(place) => write!(f, "NotLawful {place}"),
            OpenFault::TableDiffers(table) => write!(f, "TableDiffers {table}"),
            OpenFault::NotBlank => f.write_str("NotBlank"),
            OpenFault::Unavailable => f.write_str("Unavailable"),
        }
    }
}

impl From<ReplayFault> for OpenFault {
    ghost use Rattle.std.specs.Prelude.{◌≡◌};
    ghost use Rattle.line_schema.specs.Opening.{opening_fault};

    ghost from_gives = { λ fault told. told ≡ opening_fault fault };

    fn from(fault: ReplayFault) -> OpenFault {
        match fault {
            ReplayFault::NotLawful(place) => OpenFault::NotLawful(place),
            ReplayFault::Unavailable => OpenFault::Unavailable,
        }
    }
}

impl From<sqlite::Error> for OpenFault {
    ghost use Rattle.std.specs.Prelude.{◌≡◌};
    ghost use Rattle.line_schema.specs.declared.fault.OpenFault.TheVariants.{Unavailable};

    ghost from_gives = { λ _ fault. fault ≡ Unavailable };

    fn from(_error: sqlite::Error) -> OpenFault {
        OpenFault::Unavailable
    }
}
