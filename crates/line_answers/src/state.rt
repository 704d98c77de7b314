//! Whether a machine may work, and why not.

ghost use Rattle.std.specs.Prelude.{◌≡◌, false, map, IfOk};
ghost use Rattle.serde_json.specs.Data.{array};
ghost use Rattle.serde_json.specs.View.{view, items_of};
ghost use Rattle.serde_json.specs.Written.{has_float};
ghost use Rattle.desk_types.specs.Desk.{HasRoom};
ghost use Rattle.desk_types.specs.History.{Basis};
ghost use Rattle.line_book.specs.Book.{Book};
ghost use Rattle.line_book.specs.Guard.{IsGuard};
ghost use Rattle.line_answers.specs.State.{cause_object, end_of, state_object, state_text, state_word, text_with};

use crate::cause::{cause_object, name_or_null};
use desk_types::{Desk, Id, Listing, Text};
use line_book::{Cause, Guard};
use serde_json::{Value, json};
use std::alloc::{AllocError, Global};

/// The end of the history, on one machine.
#[derive(Clone, Copy, PartialEq, Eq)]
pub struct Point {
    /// The number of accepted commands.
    pub number: u64,
    /// The board in work on the machine.
    pub board: Option<Id>,
}

/// Returns the text of the answer that says whether the machine may work, and each cause why not, or
/// none if no sheet is for the machine. `point` is the end of the history on that machine.
pub fn state_text<D: Desk>(
    alloc: Global,
    desk: &D,
    guard: &Guard,
    machine: &Id,
    point: &Point,
) -> Result<Option<Text>, AllocError>
    requires { HasRoom D.Stands desk.now 0 }
    // Whatever the desk and the guard keep, the text is that of the two lists.
    ensures { (S : Basis) (B : Book) → D.Stands desk.now S → IsGuard S.history B guard.now
        → point.now ≡ end_of S.history machine.now
        → IfOk result (λ text. text ≡ state_text S.history B machine.now) }
{
    if desk.slots_of(machine)?.is_none() {
        return Ok(None);
    }
    let found = guard.causes(alloc, desk, machine)?;
    Ok(Some(causes_text(alloc, machine, point, found.as_slice())?))
}

/// Returns the text of the answer that says whether the machine may work, from the causes why not.
#[tactic(auto, unfolding(crate::specs::State::text_with))]
pub fn causes_text(
    alloc: Global,
    machine: &Id,
    point: &Point,
    found: &[Cause],
) -> Result<Text, AllocError>
    ensures { IfOk result (λ text. text ≡ text_with machine.now point.now found.now) }
{
    let answer = state_object(alloc, machine, point, found)?;
    Ok(Listing::new(answer.to_string(alloc)?.into_bytes()))
}

fn state_object(
    alloc: Global,
    machine: &Id,
    point: &Point,
    found: &[Cause],
) -> Result<Value, AllocError>
    ensures value { IfOk result
        (λ answer. view answer ≡ state_object machine.now point.now found.now) }
    ensures whole { IfOk result (λ answer. has_float (view answer) ≡ false) }
{
    let board = name_or_null(alloc, &point.board)?;
    let causes = cause_values(alloc, found)?;
    let name = machine.as_str();
    let number = point.number;
    let state = state_word(found);
    json!(in alloc; {"Answer": "State", "Board": board, "Causes": causes, "Machine": name, "Number": number, "State": state})
}

fn cause_values(alloc: Global, found: &[Cause]) -> Result<Value, AllocError>
    ensures value { IfOk result
        (λ value. view value ≡ array (items_of (map cause_object found.now))) }
    ensures whole { IfOk result (λ value. has_float (view value) ≡ false) }
{
    let mut values = Vec::new(alloc);
    for cause in found {
        values.push(cause_object(alloc, cause)?)?;
    }
    Ok(Value::Array(values))
}

fn state_word(found: &[Cause]) -> &'static str
    ensures { result.now ≡ state_word found.now }
{
    if found.is_empty() { "go" } else { "stop" }
}
