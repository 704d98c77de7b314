//! The values in stored texts, and how each is read.

ghost use Rattle.std.specs.Prelude.{◌≡◌, ◌∷◌, [], ⊤, IfOk, IfErr, OnOk, ◌++◌};
ghost use Rattle.desk_types.specs.Designator.{IsDesignator};
ghost use Rattle.desk_types.specs.Fields.{Reads, IsPrefixFree, number_fields, level_fields, IsNumber, after_tabs};
ghost use Rattle.desk_types.specs.Id.{IsId};
ghost use Rattle.desk_types.specs.Number.{IsQuantity, IsCountedQuantity};
ghost use Rattle.desk_types.specs.StoredText.{name_fields};
ghost use Rattle.desk_types.specs.declared.stored_fields.Unread.TheVariants.{NotStored};
ghost use Rattle.desk_types.specs.Apart.{names_apart, levels_apart, numbers_apart, quantities_fit, counted_quantities_fit};

use crate::designator::Designator;
use crate::id::Id;
use crate::level::Level;
use crate::number::{CountedQuantity, Quantity};
use crate::stored_fields::{Fields, TAB, Unread};
use crate::stored_number::number;
use itoa::Buffer;
use std::alloc::{AllocError, Global};

/// A value stored as one or more fields.
pub trait Stored: Drop + Sized {
    ghost use Rattle.std.specs.Prelude.{List, ℕ};

    /// Whether the value is in range.
    ghost in_range: { Self → Type 0 };

    /// The value's fields.
    ghost spelling: { Self → List (List ℕ) };

    /// Appends the value's fields to the text, each preceded by a tab.
    fn write(&self, text: &mut Vec<u8>) -> Result<(), AllocError>
        ensures { OnOk result (text.new.items ≡ text.old.items ++ after_tabs (spelling self.now)) };

    /// Reads a value from the first fields. After an error the remaining fields are unusable.
    fn read(alloc: Global, fields: &mut Fields) -> Result<Self, Unread>
        ensures { Reads in_range spelling fields.old fields.new result };

    /// No value's fields are a prefix of another's.
    ghost apart: { IsPrefixFree in_range spelling };
}

fn put_field(text: &mut Vec<u8>, field: &[u8]) -> Result<(), AllocError>
    ensures { OnOk result (text.new.items ≡ text.old.items ++ after_tabs (field.now ∷ [])) }
{
    text.push(TAB)?;
    text.extend_from_slice(field)
}

fn next_field<'a>(fields: &mut Fields<'a>) -> Result<&'a [u8], Unread>
    ensures ok { IfOk result (λ field. fields.old ≡ field.now ∷ fields.new) }
    ensures err { IfErr result (λ fault. (fault ≡ NotStored) × (fields.old ≡ [])) }
{
    fields.take_next().ok_or(Unread::NotStored)
}

impl Stored for Id {
    ghost in_range = { IsId };

    ghost spelling = { name_fields };

    ghost apart = { names_apart IsId };

    fn write(&self, text: &mut Vec<u8>) -> Result<(), AllocError> {
        put_field(text, self.as_bytes())
    }

    fn read(_: Global, fields: &mut Fields) -> Result<Id, Unread> {
        let Some(id) = Id::read(next_field(fields)?) else {
            return Err(Unread::NotStored);
        };
        Ok(id)
    }
}

impl Stored for Designator {
    ghost in_range = { IsDesignator };

    ghost spelling = { name_fields };

    ghost apart = { names_apart IsDesignator };

    fn write(&self, text: &mut Vec<u8>) -> Result<(), AllocError> {
        put_field(text, self.as_bytes())
    }

    fn read(_: Global, fields: &mut Fields) -> Result<Designator, Unread> {
        let Some(designator) = Designator::read(next_field(fields)?) else {
            return Err(Unread::NotStored);
        };
        Ok(designator)
    }
}

impl Stored for Level {
    ghost in_range = { λ _. ⊤ };

    ghost spelling = { level_fields };

    ghost apart = { levels_apart (λ _. ⊤) };

    fn write(&self, text: &mut Vec<u8>) -> Result<(), AllocError> {
        put_field(text, self.as_str().as_bytes())
    }

    fn read(_: Global, fields: &mut Fields) -> Result<Level, Unread> {
        let Some(level) = Level::read(next_field(fields)?) else {
            return Err(Unread::NotStored);
        };
        Ok(level)
    }
}

impl Stored for u64 {
    ghost in_range = { IsNumber };

    ghost spelling = { number_fields };

    ghost apart = { numbers_apart IsNumber (λ n fits. fits) };

    fn write(&self, text: &mut Vec<u8>) -> Result<(), AllocError> {
        put_field(text, Buffer::new().format(*self).as_bytes())
    }

    fn read(_: Global, fields: &mut Fields) -> Result<u64, Unread> {
        let Some(n) = number(next_field(fields)?) else {
            return Err(Unread::NotStored);
        };
        Ok(n)
    }
}

impl Stored for Quantity {
    ghost in_range = { IsQuantity };

    ghost spelling = { number_fields };

    ghost apart = { numbers_apart IsQuantity quantities_fit };

    fn write(&self, text: &mut Vec<u8>) -> Result<(), AllocError> {
        self.get().write(text)
    }

    fn read(alloc: Global, fields: &mut Fields) -> Result<Quantity, Unread> {
        let Some(quantity) = Quantity::new(u64::read(alloc, fields)?) else {
            return Err(Unread::NotStored);
        };
        Ok(quantity)
    }
}

impl Stored for CountedQuantity {
    ghost in_range = { IsCountedQuantity };

    ghost spelling = { number_fields };

    ghost apart = { numbers_apart IsCountedQuantity counted_quantities_fit };

    fn write(&self, text: &mut Vec<u8>) -> Result<(), AllocError> {
        self.get().write(text)
    }

    fn read(alloc: Global, fields: &mut Fields) -> Result<CountedQuantity, Unread> {
        let Some(quantity) = CountedQuantity::new(u64::read(alloc, fields)?) else {
            return Err(Unread::NotStored);
        };
        Ok(quantity)
    }
}
