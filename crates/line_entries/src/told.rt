//! The text of the column `told`.

ghost use Rattle.std.specs.Prelude.{◌≡◌, ◌++◌, IfOk, string_bytes};
ghost use Rattle.hex.specs.Hex.{encode_lower};
ghost use Rattle.line_entries.specs.Told.{begins_marked, hex_mark, told_text};

use std::alloc::{AllocError, Global};

/// Returns the bytes as a text. Bytes that aren't UTF-8, or begin with a backslash, become `\x` and
/// two hexadecimal digits for each byte. No other text begins so.
pub fn told_text(alloc: Global, bytes: &[u8]) -> Result<String, AllocError>
    ensures { IfOk result (λ text. string_bytes text ≡ told_text bytes.now) }
{
    if begins_marked(bytes) {
        return hex_text(alloc, bytes);
    }
    match str::from_utf8(bytes) {
        Ok(text) => String::from_str(alloc, text),
        Err(_) => hex_text(alloc, bytes),
    }
}

fn begins_marked(bytes: &[u8]) -> bool
    ensures { result ≡ begins_marked bytes.now }
{
    !bytes.is_empty() && bytes[0] == b'\\'
}

fn hex_text(alloc: Global, bytes: &[u8]) -> Result<String, AllocError>
    ensures { IfOk result (λ text. string_bytes text ≡ hex_mark ++ encode_lower bytes.now) }
{
    let mut text = String::from_str(alloc, "\\x")?;
    text.push_str(hex::encode(alloc, bytes)?.as_str())?;
    Ok(text)
}
