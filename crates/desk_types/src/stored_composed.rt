//! Composed values: pairs, triples, lists and sheet rows.

ghost use Rattle.std.specs.Prelude.{◌≡◌, ◌∷◌, [], ◌++◌, flat_map, OnOk};
ghost use Rattle.desk_types.specs.Apart.{pairs_apart, triples_apart, lists_apart, rows_apart, counts_apart};
ghost use Rattle.desk_types.specs.Command.{IsListOf, IsSheetRow, IsCountRow};
ghost use Rattle.desk_types.specs.Fields.{Reads, PairInRange, pair_fields, TripleInRange, triple_fields, AreCounted};
ghost use Rattle.desk_types.specs.StoredText.{list_fields, row_fields, count_fields};

use crate::count::CountRow;
use crate::limits::LONGEST_LIST;
use crate::list::{Bounded, Listing};
use crate::sheet::SheetRow;
use crate::stored_fields::{Fields, Unread};
use crate::stored_value::Stored;
use std::alloc::{AllocError, Global};

impl<A: Stored, B: Stored> Stored for (A, B) {
    ghost in_range = { PairInRange A.in_range B.in_range };

    ghost spelling = { pair_fields A.spelling B.spelling };

    ghost apart = { pairs_apart A.in_range B.in_range A.spelling B.spelling A.apart B.apart };

    fn write(&self, text: &mut Vec<u8>) -> Result<(), AllocError> {
        self.0.write(text)?;
        self.1.write(text)
    }

    fn read(alloc: Global, fields: &mut Fields) -> Result<(A, B), Unread> {
        let first = A::read(alloc, fields)?;
        let second = B::read(alloc, fields)?;
        Ok((first, second))
    }
}

impl<A: Stored, B: Stored, C: Stored> Stored for (A, B, C) {
    ghost in_range = { TripleInRange A.in_range B.in_range C.in_range };

    ghost spelling = { triple_fields A.spelling B.spelling C.spelling };

    ghost apart = { triples_apart A.in_range B.in_range C.in_range A.spelling B.spelling C.spelling
        A.apart B.apart C.apart };

    fn write(&self, text: &mut Vec<u8>) -> Result<(), AllocError> {
        self.0.write(text)?;
        self.1.write(text)?;
        self.2.write(text)
    }

    fn read(alloc: Global, fields: &mut Fields) -> Result<(A, B, C), Unread> {
        let first = A::read(alloc, fields)?;
        let second = B::read(alloc, fields)?;
        let third = C::read(alloc, fields)?;
        Ok((first, second, third))
    }
}

fn put<T: Drop>(found: &mut Vec<T>, value: T) -> Result<(), AllocError>
    ensures { OnOk result (found.new.items ≡ found.old.items ++ value ∷ []) }
{
    found.push(value)?;
    Ok(())
}

fn values<T: Stored>(alloc: Global, fields: &mut Fields, count: u64) -> Result<Listing<T>, Unread>
    ensures { Reads (AreCounted T.in_range count)
        (flat_map T.spelling) fields.old fields.new result }
{
    let mut found = Vec::new(alloc);
    for _ in 0..count {
        let value = T::read(alloc, fields)?;
        put(&mut found, value)?;
    }
    Ok(Listing::new(found))
}

impl<T: Stored> Stored for Bounded<T> {
    ghost in_range = { IsListOf T.in_range };

    ghost spelling = { list_fields T.spelling };

    ghost apart = { lists_apart T.in_range T.spelling T.apart };

    fn write(&self, text: &mut Vec<u8>) -> Result<(), AllocError> {
        let items = self.as_slice();
        (items.len() as u64).write(text)?;
        for item in items {
            item.write(text)?;
        }
        Ok(())
    }

    fn read(alloc: Global, fields: &mut Fields) -> Result<Bounded<T>, Unread> {
        let count = u64::read(alloc, fields)?;
        if count > LONGEST_LIST as u64 {
            return Err(Unread::NotStored);
        }
        let found = values::<T>(alloc, fields, count)?;
        let Some(list) = Bounded::new(found.into_vec()) else {
            return Err(Unread::NotStored);
        };
        Ok(list)
    }
}

impl Stored for SheetRow {
    ghost in_range = { IsSheetRow };

    ghost spelling = { row_fields };

    ghost apart = { rows_apart };

    fn write(&self, text: &mut Vec<u8>) -> Result<(), AllocError> {
        self.slot.write(text)?;
        self.part.write(text)?;
        self.designators.write(text)
    }

    fn read(alloc: Global, fields: &mut Fields) -> Result<SheetRow, Unread> {
        let (slot, part, designators) = Stored::read(alloc, fields)?;
        Ok(SheetRow {
            slot,
            part,
            designators,
        })
    }
}

impl Stored for CountRow {
    ghost in_range = { IsCountRow };

    ghost spelling = { count_fields };

    ghost apart = { counts_apart };

    fn write(&self, text: &mut Vec<u8>) -> Result<(), AllocError> {
        self.reel.write(text)?;
        self.quantity.write(text)
    }

    fn read(alloc: Global, fields: &mut Fields) -> Result<CountRow, Unread> {
        let (reel, quantity) = Stored::read(alloc, fields)?;
        Ok(CountRow { reel, quantity })
    }
}
