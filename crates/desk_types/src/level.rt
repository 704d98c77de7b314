//! Moisture sensitivity levels and their floor life.

ghost use Rattle.std.specs.Prelude.{◌≡◌, SomeIff, Some, None, IfSome, IsSome, find};
ghost use Rattle.desk_types.specs.Id.{same};
ghost use Rattle.desk_types.specs.Level.{text_of, limit_of, IsLabel, LevelWithLabel, level_of};

use crate::limits::GREATEST_LABEL;
use std::marker::Model;

/// A moisture sensitivity level, after the idea of J-STD-033. The limits are this project's own
/// profile.
#[derive(Clone, Copy, PartialEq, Eq)]
pub enum Level {
    /// `1`: no limit.
    One,
    /// `2`: a year.
    Two,
    /// `2a`: four weeks.
    TwoA,
    /// `3`: a week.
    Three,
    /// `4`: three days.
    Four,
    /// `5`: two days.
    Five,
    /// `5a`: a day.
    FiveA,
    /// `6`: bake before use, then the minutes on the label.
    Six,
}

impl Level {
    /// Returns the level with this text: `1`, `2`, `2a`, `3`, `4`, `5`, `5a` or `6`.
    pub fn read(bytes: &[u8]) -> Option<Level>
        ensures { result ≡ level_of bytes.now }
    {
        match bytes {
            b"1" => Some(Level::One),
            b"2" => Some(Level::Two),
            b"2a" => Some(Level::TwoA),
            b"3" => Some(Level::Three),
            b"4" => Some(Level::Four),
            b"5" => Some(Level::Five),
            b"5a" => Some(Level::FiveA),
            b"6" => Some(Level::Six),
            _ => None,
        }
    }

    /// Returns the level's text, such as `2a`.
    pub fn as_str(self) -> &'static str
        ensures { result.now ≡ text_of self }
    {
        match self {
            Level::One => "1",
            Level::Two => "2",
            Level::TwoA => "2a",
            Level::Three => "3",
            Level::Four => "4",
            Level::Five => "5",
            Level::FiveA => "5a",
            Level::Six => "6",
        }
    }

    /// Returns the floor life in minutes, if it has a limit. Only level 6 uses the label.
    pub fn limit(self, label: u64) -> Option<u64>
        ensures { result ≡ limit_of self label }
    {
        match self {
            Level::One => None,
            Level::Two => Some(525_600),
            Level::TwoA => Some(40_320),
            Level::Three => Some(10_080),
            Level::Four => Some(4_320),
            Level::Five => Some(2_880),
            Level::FiveA => Some(1_440),
            Level::Six => Some(label),
        }
    }
}

/// A level with the minutes on its label, which are 0 except at level 6.
#[derive(Clone, Copy, PartialEq, Eq)]
pub struct Moisture {
    level: Level,
    label: u64,
}

impl Model for Moisture {
    ghost use Rattle.desk_types.specs.Level.{IsLabel, LevelWithLabel};

    ghost Value = { LevelWithLabel };

    ghost view = { λ a. record { level = a.level; label = a.label } };

    ghost invariant = { λ a. IsLabel a.level a.label };

    ghost inverse = { λ m. record { level = m.level; label = m.label } };
}

impl Moisture {
    /// Returns the level with this label in minutes if the two fit together.
    pub fn new(level: Level, label: u64) -> Option<Moisture>
        ensures { SomeIff result (IsLabel level label) (record { level = level; label = label }) }
    {
        let fits = match level {
            Level::Six => label >= 1 && label <= GREATEST_LABEL,
            _ => label == 0,
        };
        if !fits {
            return None;
        }
        Some(Moisture { level, label })
    }

    /// Returns the level.
    pub fn level(self) -> Level
        ensures { result ≡ self.level }
    {
        self.level
    }

    /// Returns the minutes on the label, 0 except at level 6.
    pub fn label(self) -> u64
        ensures value { result ≡ self.label }
        ensures range { IsLabel self.level result }
    {
        self.label
    }

    /// Returns the floor life in minutes, if it has a limit.
    pub fn limit(self) -> Option<u64>
        ensures { result ≡ limit_of self.level self.label }
    {
        self.level.limit(self.label)
    }
}
