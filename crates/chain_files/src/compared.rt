//! The result of a comparison.

use chain_check::{Difference, ShownDifference};
use line_schema::OpenFault;
use std::fmt;

/// One of the two files.
#[derive(Clone, Copy)]
pub enum Side {
    /// The file that was closed.
    Old,
    /// The file that follows it.
    New,
}

/// The result of a comparison of the desks in two files.
#[derive(Clone, Copy)]
pub enum Compared {
    /// The desks are alike, and the new one received the pieces that were left. It has this many reels, and so many of
    /// them are mounted.
    Alike { reels: u64, mounts: u64 },
    /// The first difference between the desks.
    Differs(Difference),
    /// This file holds no desk, or it could not be read or closed.
    Refused { side: Side, fault: OpenFault },
}

impl fmt::Display for Side {
    ghost use Rattle.std.specs.Prelude.{Some};
    ghost use Rattle.chain_files.specs.Compared.{side_text};

    ghost output = { λ side. Some (side_text side) };

    fn fmt<W: fmt::Write>(&self, f: &mut fmt::Formatter<W>) -> fmt::Result {
        f.write_str(match self {
            Side::Old => "old",
            Side::New => "new",
        })
    }
}

impl fmt::Display for Compared {
    ghost use Rattle.std.specs.Prelude.{Some};
    ghost use Rattle.chain_files.specs.Compared.{compared_text};

    ghost output = { λ found. Some (compared_text found) };

    fn fmt<W: fmt::Write>(&self, f: &mut fmt::Formatter<W>) -> fmt::Result {
        match self {
            Compared::Alike { reels, mounts } => write!(f, "alike {reels} {mounts}"),
            Compared::Differs(difference) => {
                write!(f, "differs {}", ShownDifference(*difference))
            }
            Compared::Refused { side, fault } => write!(f, "{side} {fault}"),
        }
    }
}
