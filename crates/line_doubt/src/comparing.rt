//! Lists with a value for each piece.

ghost use Rattle.std.specs.Prelude.{◌≡◌, ◌||◌, ℕ, Bool, List, Option, Some, map, length, IfOk};
ghost use Rattle.std.specs.Option.{option_or};
ghost use Rattle.desk_types.specs.declared.placement.Placement.{Placement};
ghost use Rattle.line_doubt.specs.declared.mark.Mark.{Mark as Marked};
ghost use Rattle.line_doubt.specs.Marks.{number_above, value_of};

use crate::mark::Mark;
use std::alloc::{AllocError, Global};

/// Returns the value of each mark, or 0.
pub fn values_of(alloc: Global, marks: &[Option<Mark>]) -> Result<Vec<u64>, AllocError>
    ensures { IfOk result (λ values. values.items ≡ map value_of marks.now) }
{
    let mut values = Vec::new(alloc);
    for mark in marks {
        values.push(value_of(mark))?;
    }
    Ok(values)
}

fn value_of(mark: &Option<Mark>) -> u64
    ensures { result ≡ value_of mark.now }
{
    match mark {
        Some(mark) => mark.value,
        None => 0,
    }
}

/// Returns at each place the number of the mark if its value is above the other list's.
pub fn numbers_above(
    alloc: Global,
    marks: &[Option<Mark>],
    floors: &[u64],
) -> Result<Vec<Option<u64>>, AllocError>
    requires { length marks.now ≡ length floors.now }
    ensures { (f : Placement → Option Marked) (g : Placement → ℕ) (placed : List Placement)
        → marks.now ≡ map f placed → floors.now ≡ map g placed
        → IfOk result (λ found. found.items ≡ map (λ p. number_above (f p) (g p)) placed) }
{
    let mut found = Vec::new(alloc);
    for i in 0..marks.len() {
        found.push(number_above(&marks[i], floors[i]))?;
    }
    Ok(found)
}

fn number_above(mark: &Option<Mark>, floor: u64) -> Option<u64>
    ensures { result ≡ number_above mark.now floor }
{
    match mark {
        Some(mark) => number_of(mark, floor),
        None => None,
    }
}

fn number_of(mark: &Mark, floor: u64) -> Option<u64>
    ensures { result ≡ number_above (Some mark.now) floor }
{
    (floor < mark.value).then_some(mark.number)
}

/// Returns at each place the first list's number, or else the other's.
pub fn first_of(
    alloc: Global,
    some: &[Option<u64>],
    others: &[Option<u64>],
) -> Result<Vec<Option<u64>>, AllocError>
    requires { length some.now ≡ length others.now }
    ensures { (f g : Placement → Option ℕ) (placed : List Placement) → some.now ≡ map f placed
        → others.now ≡ map g placed
        → IfOk result (λ found. found.items ≡ map (λ p. option_or (f p) (g p)) placed) }
{
    let mut found = Vec::new(alloc);
    for i in 0..some.len() {
        found.push(first(some[i], others[i]))?;
    }
    Ok(found)
}

fn first(one: Option<u64>, other: Option<u64>) -> Option<u64>
    ensures { result ≡ option_or one other }
{
    one.or(other)
}

/// Returns at each place whether one of the lists has true.
pub fn either(alloc: Global, some: &[bool], others: &[bool]) -> Result<Vec<bool>, AllocError>
    requires { length some.now ≡ length others.now }
    ensures each { IfOk result (λ found. length found.items ≡ length some.now) }
    ensures flags { (f g : Placement → Bool) (placed : List Placement) → some.now ≡ map f placed
        → others.now ≡ map g placed
        → IfOk result (λ found. found.items ≡ map (λ p. f p || g p) placed) }
{
    let mut found = Vec::new(alloc);
    for i in 0..some.len() {
        found.push(is_either(some[i], others[i]))?;
    }
    Ok(found)
}

fn is_either(one: bool, other: bool) -> bool
    ensures { result ≡ (one || other) }
{
    one || other
}
