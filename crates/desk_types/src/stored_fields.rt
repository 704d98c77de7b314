//! The fields of a stored text.

ghost use Rattle.std.specs.Prelude.{◌≡◌, ◌∷◌, [], IsTrue, ◌↔◌, MatchOption, position, ◌==◌};
ghost use Rattle.desk_types.specs.Fields.{fields_in};

use std::alloc::AllocError;
use std::marker::Model;

/// The separator of fields.
pub const TAB: u8 = b'\t';

/// Why a value could not be read.
#[derive(Clone, Copy, PartialEq, Eq)]
pub enum Unread {
    /// There was too little memory.
    NoMemory,
    /// The fields don't start with a stored value of this kind.
    NotStored,
}

impl From<AllocError> for Unread {
    ghost use Rattle.std.specs.Prelude.{◌≡◌};
    ghost use Rattle.desk_types.specs.declared.stored_fields.Unread.TheVariants.{NoMemory};

    ghost from_gives = { λ _ fault. fault ≡ NoMemory };

    fn from(_error: AllocError) -> Unread {
        Unread::NoMemory
    }
}

/// The unread fields of a text.
#[derive(Drop)]
pub struct Fields<'a> {
    /// The text from the next field on, or none after the last field.
    rest: Option<&'a [u8]>,
}

impl<'a> Model for Fields<'a> {
    ghost use Rattle.std.specs.Prelude.{List, ℕ};
    ghost use Rattle.std.specs.Option.{option_copied};
    ghost use Rattle.desk_types.specs.Fields.{fields_left};

    ghost Value = { List (List ℕ) };

    ghost view = { λ a. fields_left (option_copied a.rest) };
}

impl<'a> Fields<'a> {
    pub fn new(text: &'a [u8]) -> Fields<'a>
        ensures { result ≡ fields_in text.now }
    {
        Fields { rest: Some(text) }
    }

    /// Takes the next field, if there is one.
    pub fn take_next(&mut self) -> Option<&'a [u8]>
        ensures { MatchOption result (self.old ≡ []) (λ field. self.old ≡ field.now ∷ self.new) }
    {
        let rest = self.rest?;
        match first_tab(rest) {
            Some(end) => {
                self.rest = Some(&rest[end + 1..]);
                Some(&rest[..end])
            }
            None => {
                self.rest = None;
                Some(rest)
            }
        }
    }

    pub fn is_empty(&self) -> bool
        ensures { IsTrue result ↔ (self.now ≡ []) }
    {
        self.rest.is_none()
    }
}

fn first_tab(text: &[u8]) -> Option<usize>
    ensures { result ≡ position (λ byte. byte == 0x09) text.now }
{
    text.iter().position(|byte| *byte == TAB)
}
