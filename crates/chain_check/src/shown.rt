//! The texts of differences.

use crate::difference::Difference;
use desk_types::{Id, Left, Minute};
use std::fmt;

/// A desk minute, or `none` before the first command.
#[derive(Clone, Copy)]
struct ShownMinute(pub Option<Minute>);

/// The floor life that a reel has left.
#[derive(Clone, Copy)]
struct ShownLife(pub Left);

/// The pieces left on a reel, on the old desk and on the new one.
#[derive(Clone, Copy)]
struct ShownRemaining {
    reel: Id,
    old: u64,
    new: u64,
}

/// A difference: its kind, the names that it is in, and then the values on the old desk and on the new one.
#[derive(Clone, Copy)]
pub struct ShownDifference(pub Difference);

impl fmt::Display for ShownMinute {
    ghost use Rattle.std.specs.Prelude.{Some};
    ghost use Rattle.chain_check.specs.Texts.{minute_text};

    ghost output = { λ shown. Some (minute_text shown.0) };

    fn fmt<W: fmt::Write>(&self, f: &mut fmt::Formatter<W>) -> fmt::Result {
        match self.0 {
            Some(minute) => {
                let number = minute.get();
                write!(f, "{number}")
            }
            None => f.write_str("none"),
        }
    }
}

impl fmt::Display for ShownLife {
    ghost use Rattle.std.specs.Prelude.{Some};
    ghost use Rattle.chain_check.specs.Texts.{life_text};

    ghost output = { λ shown. Some (life_text shown.0) };

    fn fmt<W: fmt::Write>(&self, f: &mut fmt::Formatter<W>) -> fmt::Result {
        match self.0 {
            Left::Minutes(minutes) => write!(f, "{minutes}"),
            Left::Unlimited => f.write_str("unlimited"),
            Left::Unbaked => f.write_str("unbaked"),
        }
    }
}

impl fmt::Display for ShownRemaining {
    ghost use Rattle.std.specs.Prelude.{Some};
    ghost use Rattle.chain_check.specs.Texts.{remaining_text};

    ghost output = { λ shown. Some (remaining_text shown.reel shown.old shown.new) };

    fn fmt<W: fmt::Write>(&self, f: &mut fmt::Formatter<W>) -> fmt::Result {
        write!(f, "reel {} remaining {} {}", self.reel, self.old, self.new)
    }
}

impl fmt::Display for ShownDifference {
    ghost use Rattle.std.specs.Prelude.{Some};
    ghost use Rattle.chain_check.specs.Texts.{difference_text};

    ghost output = { λ shown. Some (difference_text shown.0) };

    fn fmt<W: fmt::Write>(&self, f: &mut fmt::Formatter<W>) -> fmt::Result {
        match self.0 {
            Difference::Minute { old, new } => {
                write!(f, "minute {} {}", ShownMinute(old), ShownMinute(new))
            }
            Difference::Part { part } => write!(f, "part {part}"),
            Difference::Alternate { part, alternate } => write!(f, "alternate {part} {alternate}"),
            Difference::Sheet { product, machine } => write!(f, "sheet {product} {machine}"),
            Difference::Selection { machine } => write!(f, "selection {machine}"),
            Difference::OldWork { board } => write!(f, "board {board} in work old"),
            Difference::NewWork { board } => write!(f, "board {board} in work new"),
            Difference::Board { board } => write!(f, "board {board} new"),
            Difference::Reel { reel } => write!(f, "reel {reel} new"),
            Difference::Remaining { reel, old, new } => {
                write!(f, "{}", ShownRemaining { reel, old, new })
            }
            Difference::Received { reel, old, new } => {
                write!(f, "reel {reel} received {old} {new}")
            }
            Difference::ReelPart { reel, old, new } => write!(f, "reel {reel} part {old} {new}"),
            Difference::Lot { reel, old, new } => write!(f, "reel {reel} lot {old} {new}"),
            Difference::Level { reel } => write!(f, "reel {reel} level"),
            Difference::Open { reel, old, new } => write!(f, "reel {reel} open {old} {new}"),
            Difference::Life { reel, old, new } => {
                write!(f, "reel {reel} life {} {}", ShownLife(old), ShownLife(new))
            }
            Difference::Slot { machine, slot } => write!(f, "slot {machine} {slot}"),
        }
    }
}
