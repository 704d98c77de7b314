//! Writing whole pieces.

ghost use Rattle.std.specs.Prelude.{take, ◌≡◌, ◌+◌, ◌^◌, ◌<◌, ◌++◌, ◌∷◌, [], length, OnOk, OnErr};
ghost use Rattle.std.specs.Io.KnownBytes.{Appends};
ghost use Rattle.desk_types.specs.Wire.{inner_of, failures_of};
ghost use Rattle.desk_answers.specs.Sent.{SendsFront};

use desk_types::{ONE_WRITE, Wire};
use std::io::Write;

/// A write failed, or took nothing.
#[derive(Drop)]
pub struct WriteFailed;

/// Writes a text and a line feed, in one write if the text is short, which gives most of the speed.
pub fn send_line<W: Write>(wire: &mut Wire<W>, text: &[u8]) -> Result<(), WriteFailed>
    requires few_failures { failures_of wire.old < 2 ^ 63 }
    ensures ok { OnOk result
        (Appends (W.contents (inner_of wire.old)) (W.contents (inner_of wire.new))
        (text.now ++ 10 ∷ [])) }
    ensures kept { OnOk result (failures_of wire.new ≡ failures_of wire.old) }
    ensures failed { OnErr result (failures_of wire.new ≡ failures_of wire.old + 1) }
    ensures front { OnErr result
        (SendsFront (W.contents (inner_of wire.old)) (W.contents (inner_of wire.new))
        (text.now ++ 10 ∷ [])) }
{
    if text.len() < ONE_WRITE {
        let line = with_line_feed(text);
        return send(wire, &line[..text.len() + 1]);
    }
    send(wire, text)?;
    send(wire, b"\n")
}

fn with_line_feed(text: &[u8]) -> [u8; ONE_WRITE]
    requires { length text.now < ONE_WRITE }
    ensures { take (length text.now + 1) result ≡ text.now ++ 10 ∷ [] }
{
    let mut line = [0u8; ONE_WRITE];
    line[..text.len()].copy_from_slice(text);
    line[text.len()] = b'\n';
    line
}

/// Writes all the bytes.
pub fn send<W: Write>(wire: &mut Wire<W>, bytes: &[u8]) -> Result<(), WriteFailed>
    requires few_failures { failures_of wire.old < 2 ^ 63 }
    ensures ok { OnOk result
        (Appends (W.contents (inner_of wire.old)) (W.contents (inner_of wire.new)) bytes.now) }
    ensures kept { OnOk result (failures_of wire.new ≡ failures_of wire.old) }
    ensures failed { OnErr result (failures_of wire.new ≡ failures_of wire.old + 1) }
    ensures front { OnErr result
        (SendsFront (W.contents (inner_of wire.old)) (W.contents (inner_of wire.new)) bytes.now) }
{
    let mut at = 0;
    while at < bytes.len() {
        match wire.write(&bytes[at..]) {
            Ok(0) => return Err(WriteFailed),
            Ok(count) => at += count,
            Err(_) => return Err(WriteFailed),
        }
    }
    Ok(())
}
