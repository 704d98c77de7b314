//! The message in a row, whatever its values.

ghost use Rattle.std.specs.Prelude.{◌≡◌, ◌<◌, ◌↔◌, pos, IsTrue, IfOk, IfSome, IfNone, length};
ghost use Rattle.sqlite.specs.declared.types.Value.TheVariants.{Int as IntOf, Text as TextOf};
ghost use Rattle.sqlite_value.specs.Order.{column};
ghost use Rattle.desk_types.specs.declared.command.Stamped.{Stamped};
ghost use Rattle.desk_types.specs.Command.{IsStamped};
ghost use Rattle.desk_types.specs.Id.{IsId};
ghost use Rattle.desk_types.specs.Number.{IsMinute};
ghost use Rattle.line_replay.specs.Judging.{IsMessageOf};

use desk_types::{Command, Id, Minute, Stamped, Text};
use sqlite::Row;
use sqlite::types::ValueRef;
use std::alloc::{AllocError, Global};

/// Returns the message of the row, or `None` if it has no message in its ranges. It ignores the number, the effective
/// minute and the answer.
pub fn stamped_of(alloc: Global, row: &Row) -> Result<Option<Stamped>, AllocError>
    ensures some { IfOk result (λ found. IfSome found (IsMessageOf row.now)) }
    ensures none { IfOk result
        (λ found. IfNone found ((s : Stamped) → IsStamped s → IsMessageOf row.now s → ⊥)) }
{
    if row.column_count() != 7 {
        return Ok(None);
    }
    stamped_in(alloc, row)
}

fn stamped_in(alloc: Global, row: &Row) -> Result<Option<Stamped>, AllocError>
    requires { length row.now ≡ 7 }
    ensures some { IfOk result (λ found. IfSome found (IsMessageOf row.now)) }
    ensures none { IfOk result
        (λ found. IfNone found ((s : Stamped) → IsStamped s → IsMessageOf row.now s → ⊥)) }
{
    let Some(uid) = id_at(row, 1) else {
        return Ok(None);
    };
    let Some(source) = id_at(row, 2) else {
        return Ok(None);
    };
    let Some(minute) = minute_at(row, 3) else {
        return Ok(None);
    };
    let Some(text) = text_at(row, 5) else {
        return Ok(None);
    };
    match Command::read_text(alloc, text)? {
        Some(command) => Ok(Some(Stamped {
            uid,
            source,
            minute,
            command,
        })),
        None => Ok(None),
    }
}

/// Returns whether the row has this number, this effective minute and this answer.
pub fn says(row: &Row, number: u64, effective: u64, answer: &Text) -> bool
    requires { length row.now ≡ 7 }
    ensures { IsTrue result
        ↔ ((column row.now 0 ≡ IntOf (pos number)) × (column row.now 4 ≡ IntOf (pos effective))
        × (column row.now 6 ≡ TextOf answer.now)) }
{
    is_number(row, 0, number) && is_number(row, 4, effective) && is_text(row, 6, answer.as_slice())
}

fn id_at(row: &Row, at: usize) -> Option<Id>
    requires { at < length row.now }
    ensures some { IfSome result (λ id. column row.now at ≡ TextOf id) }
    ensures none { IfNone result ((id : _) → IsId id → column row.now at ≡ TextOf id → ⊥) }
{
    match text_at(row, at) {
        Some(bytes) => Id::read(bytes),
        None => None,
    }
}

fn minute_at(row: &Row, at: usize) -> Option<Minute>
    requires { at < length row.now }
    ensures some { IfSome result (λ n. column row.now at ≡ IntOf (pos n)) }
    ensures none { IfNone result ((n : _) → IsMinute n → column row.now at ≡ IntOf (pos n) → ⊥) }
{
    match number_at(row, at) {
        Some(n) => Minute::new(n),
        None => None,
    }
}

fn is_number(row: &Row, at: usize, number: u64) -> bool
    requires { at < length row.now }
    ensures { IsTrue result ↔ (column row.now at ≡ IntOf (pos number)) }
{
    match number_at(row, at) {
        Some(n) => n == number,
        None => false,
    }
}

fn is_text(row: &Row, at: usize, text: &[u8]) -> bool
    requires { at < length row.now }
    ensures { IsTrue result ↔ (column row.now at ≡ TextOf text.now) }
{
    match text_at(row, at) {
        Some(bytes) => bytes == text,
        None => false,
    }
}

fn number_at(row: &Row, at: usize) -> Option<u64>
    requires { at < length row.now }
    ensures some { IfSome result (λ n. column row.now at ≡ IntOf (pos n)) }
    ensures none { IfNone result ((n : _) → column row.now at ≡ IntOf (pos n) → ⊥) }
{
    match row.get_ref(at) {
        Ok(ValueRef::Int(n)) => match u64::try_from(n) {
            Ok(n) => Some(n),
            Err(_) => None,
        },
        _ => None,
    }
}

fn text_at(row: &Row, at: usize) -> Option<&[u8]>
    requires { at < length row.now }
    ensures some { IfSome result (λ bytes. column row.now at ≡ TextOf bytes.now) }
    ensures none { IfNone result ((bytes : _) → column row.now at ≡ TextOf bytes → ⊥) }
{
    match row.get_ref(at) {
        Ok(ValueRef::Text(bytes)) => Some(bytes),
        _ => None,
    }
}
