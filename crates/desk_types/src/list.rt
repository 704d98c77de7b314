//! The lists in commands and replies. Contracts see each as a list of its elements.

ghost use Rattle.std.specs.Prelude.{◌≡◌, length, SomeIff};
ghost use Rattle.desk_types.specs.Bounds.{IsListLength};

use crate::id::Id;
use crate::limits::LONGEST_LIST;
use std::alloc::AllocError;
use std::marker::Model;

/// A list of any length.
#[derive(Drop)]
pub struct Listing<T> {
    items: Vec<T>,
}

/// Names in order.
pub type IdList = Listing<Id>;

/// A text's bytes.
pub type Text = Listing<u8>;

impl<T> Model for Listing<T> {
    ghost use Rattle.std.specs.Prelude.{List};

    ghost Value = { List T };

    ghost view = { λ a. a.items.items };
}

impl<T> Listing<T> {
    /// Returns the list of these elements. Takes no memory.
    pub fn new(items: Vec<T>) -> Listing<T>
        ensures { result ≡ items.items }
    {
        Listing { items }
    }

    /// Returns the elements in order.
    pub fn as_slice(&self) -> &[T]
        ensures { result.now ≡ self.now }
    {
        self.items.as_slice()
    }

    /// Converts the list into a vector. Takes no memory.
    pub fn into_vec(self) -> Vec<T>
        ensures { result.items ≡ self }
    {
        let Listing { items } = self;
        items
    }
}

impl<T: Clone> Clone for Listing<T> {
    ghost use Rattle.std.specs.List.{AllZip};

    ghost is_clone = { AllZip T.is_clone };

    fn clone(&self) -> Result<Listing<T>, AllocError> {
        let items = self.items.clone()?;
        Ok(Listing { items })
    }
}

impl<T: PartialEq> PartialEq for Listing<T> {
    ghost use Rattle.std.specs.Cmp.Lexicographic.{pointwise, lists_per};

    ghost eq = { pointwise T.eq };

    ghost laws = { lists_per T.PartialEq.laws };

    fn eq(&self, other: &Listing<T>) -> bool {
        self.as_slice() == other.as_slice()
    }
}

impl<T: Eq> Eq for Listing<T> {
    ghost use Rattle.std.specs.Cmp.Lexicographic.{lists_equiv};

    ghost laws = { lists_equiv T.Eq.laws };
}

/// A list of 1 to 5,000 elements.
#[derive(Drop)]
pub struct Bounded<T> {
    items: Vec<T>,
}

impl<T> Model for Bounded<T> {
    ghost use Rattle.std.specs.Prelude.{List, length};
    ghost use Rattle.desk_types.specs.Bounds.{IsListLength};

    ghost Value = { List T };

    ghost view = { λ a. a.items.items };

    ghost invariant = { λ a. IsListLength (length a.items.items) };
}

impl<T> Bounded<T> {
    /// Returns the elements in order.
    pub fn as_slice(&self) -> &[T]
        ensures value { result.now ≡ self.now }
        // A `&` hides the type's invariant, so the length says it again.
        ensures range { IsListLength (length result.now) }
    {
        self.items.as_slice()
    }

    /// Converts the list into a vector. Takes no memory.
    pub fn into_vec(self) -> Vec<T>
        ensures { result.items ≡ self }
    {
        let Bounded { items } = self;
        items
    }
}

impl<T: Drop> Bounded<T> {
    /// Returns the list if it has 1 to 5,000 elements. Takes no memory.
    pub fn new(items: Vec<T>) -> Option<Bounded<T>>
        ensures { SomeIff result (IsListLength (length items.items)) items.items }
    {
        if items.is_empty() || items.len() > LONGEST_LIST {
            return None;
        }
        Some(Bounded { items })
    }
}

impl<T: Clone> Clone for Bounded<T> {
    ghost use Rattle.std.specs.List.{AllZip};

    ghost is_clone = { AllZip T.is_clone };

    fn clone(&self) -> Result<Bounded<T>, AllocError> {
        let items = self.items.clone()?;
        Ok(Bounded { items })
    }
}

impl<T: PartialEq> PartialEq for Bounded<T> {
    ghost use Rattle.std.specs.Cmp.Lexicographic.{pointwise, lists_per};

    ghost eq = { pointwise T.eq };

    ghost laws = { lists_per T.PartialEq.laws };

    fn eq(&self, other: &Bounded<T>) -> bool {
        self.as_slice() == other.as_slice()
    }
}

impl<T: Eq> Eq for Bounded<T> {
    ghost use Rattle.std.specs.Cmp.Lexicographic.{lists_equiv};

    ghost laws = { lists_equiv T.Eq.laws };
}
