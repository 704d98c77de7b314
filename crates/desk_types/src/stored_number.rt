//! Decimal numbers with exactly one spelling.
//!
//! Stored texts are compared byte by byte for years, so a number has one text, and reading accepts
//! no other.

ghost use Rattle.std.specs.Prelude.{◌≡◌, ◌<◌, ◌^◌, ℕ, decimal, IfSome, IfNone};

use itoa::Buffer;

/// Returns the decimal number in the text, which has no sign or leading zeros.
pub fn number(text: &[u8]) -> Option<u64>
    // Only the one text that the number is written as: no leading zero, no sign.
    ensures read { IfSome result (λ n. text.now ≡ decimal n) }
    // No number that was stored is refused, so a refusal is a proof of damage.
    ensures refused { IfNone result ((n : ℕ) → n < 2 ^ 64 → ¬ (text.now ≡ decimal n)) }
{
    let Ok(chars) = str::from_utf8(text) else {
        return None;
    };
    let Ok(n) = chars.parse::<u64>() else {
        return None;
    };
    if Buffer::new().format(n).as_bytes() != text {
        return None;
    }
    Some(n)
}
