//! The lengths of reads and writes. No clause fixes them: a reader may return one byte a call.

use super::messages::{FIRST_RUN, lines_of};
use super::streams::{Form, run};
use super::wires::{Sink, Source};
use desk_answers::send;
use desk_types::Wire;
use std::io;
use std::io::{Read, Write};
use std::process::Abort;
use std::test::Fail;

/// The longest piece tried: longer than a block, and than one write of `send_line`.
const LONGEST: usize = 70_000;

/// A writer that accepts every byte, and counts its calls.
#[derive(Drop)]
struct Counted {
    calls: usize,
    bytes: usize,
}

impl Write for Counted {
    fn write(&mut self, buf: &[u8]) -> io::Result<usize> {
        self.calls = self.calls.saturating_add(1);
        self.bytes = self.bytes.saturating_add(buf.len());
        Ok(buf.len())
    }

    fn flush(&mut self) -> io::Result<()> {
        Ok(())
    }
}

/// Whether a wire passes a piece on, whole and in one call.
fn is_written(piece: &[u8]) -> bool {
    let mut wire = Wire::new(Counted { calls: 0, bytes: 0 });
    let taken = wire.write(piece);
    let failures = wire.failures();
    let Counted { calls, bytes } = wire.into_inner();
    taken.ok() == Some(piece.len()) && calls == 1 && bytes == piece.len() && failures == 0
}

/// Whether `send` writes a piece in one call, and an empty one in none.
fn is_sent(piece: &[u8]) -> bool {
    let mut wire = Wire::new(Counted { calls: 0, bytes: 0 });
    let sent = send(&mut wire, piece).is_ok();
    let Counted { calls, bytes } = wire.into_inner();
    sent && calls == piece.len().min(1) && bytes == piece.len()
}

/// Returns whether a wire reads all available bytes in one call, if there is room.
fn is_read(piece: &[u8], room: &mut [u8]) -> bool {
    let mut wire = Wire::new(piece);
    let count = wire.read(room);
    count.ok() == Some(piece.len()) && wire.failures() == 0
}

fn moves_each_length(rt: &impl Abort, bytes: &[u8], room: &mut [u8]) {
    for length in 0..=bytes.len() {
        let piece = &bytes[..length];
        assert!(rt; is_written(piece), "a write of {length} bytes");
        assert!(rt; is_sent(piece), "{length} bytes sent");
        assert!(rt; is_read(piece, room), "a read of {length} bytes");
    }
}

#[test]
fn each_length_moves_in_one_call(rt: HostRuntime) -> Result<(), Fail> {
    let bytes = [b'x'; LONGEST];
    let mut room = [0; LONGEST];
    moves_each_length(&rt, &bytes, &mut room);
    Ok(())
}

/// 5,000 lines are some 800,000 bytes. A read takes a block of 65,536 bytes, one more read finds the end,
/// and each answer goes out in one write.
#[test]
fn reads_take_blocks(rt: HostRuntime) -> Result<(), Fail> {
    let five = lines_of(rt.alloc(), FIRST_RUN)?;
    let mut text = Vec::new(rt.alloc());
    for _ in 0..1_000 {
        text.extend_from_slice(five.as_slice())?;
    }
    let source = Source::new(text.as_slice(), usize::MAX, 0);
    let ran = run(rt.alloc(), Form::Lines, source, Sink::new(rt.alloc()));
    let answered = ran.ended.ok().ok_or("a fault")?.answered;
    assert_eq!(rt; (answered, ran.output.calls), (5_000, 5_000));
    assert_eq!(rt; ran.reads, (text.len() / 65_536) as u64 + 2);
    Ok(())
}
