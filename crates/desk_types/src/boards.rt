//! The number of boards of a kit.

ghost use Rattle.std.specs.Prelude.{◌≡◌, SomeIff};
ghost use Rattle.desk_types.specs.Boards.{IsBoards};

use crate::limits::MOST_BOARDS;
use std::marker::Model;

/// 1 to 100,000 boards.
#[derive(Clone, Copy, PartialEq, Eq, PartialOrd, Ord)]
pub struct Boards(u32);

impl Model for Boards {
    ghost use Rattle.std.specs.Prelude.{ℕ};
    ghost use Rattle.desk_types.specs.Boards.{IsBoards};

    ghost Value = { ℕ };

    ghost view = { λ a. a.0 };

    ghost invariant = { λ a. IsBoards a.0 };

    ghost inverse = { λ n. record { 0 = n } };
}

impl Boards {
    /// Returns the number of boards if it is in range.
    pub fn new(boards: u64) -> Option<Boards>
        ensures { SomeIff result (IsBoards boards) boards }
    {
        if boards == 0 || boards > MOST_BOARDS {
            return None;
        }
        Some(Boards(boards as u32))
    }

    /// Returns the number of boards.
    pub fn get(self) -> u64
        ensures value { result ≡ self }
        ensures range { IsBoards result }
    {
        u64::from(self.0)
    }
}
