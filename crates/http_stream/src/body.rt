//! Reading the body of a request.

ghost use Rattle.std.specs.Prelude.{◌≡◌, ◌≤◌, length, IfOk, OnOk, OnErr};
ghost use Rattle.desk_types.specs.Wire.{inner_of, reads_of};
ghost use Rattle.desk_answers.specs.Block.{source, fuel};
ghost use Rattle.desk_answers.specs.Reads.{MayRead, MayReadInto, ReadsInto, ReadsUpTo};
ghost use Rattle.http_stream.specs.Bodies.{Fills, ReadsFewer, TakesBody};

use desk_answers::{Block, ReadFault};
use desk_types::Wire;
use std::alloc::Global;
use std::io::Read;

/// The result of taking a body.
#[derive(Drop)]
pub enum BodyTaken {
    Whole(Vec<u8>),
    End,
    NoMemory,
}

/// Takes a body of this many bytes.
pub fn take_body<R: Read>(
    alloc: Global,
    block: &mut Block,
    wire: &mut Wire<R>,
    length: usize,
    most_reads: u64,
) -> Result<BodyTaken, ReadFault>
    requires reads { MayReadInto most_reads wire.old block.old }
    ensures reads { ReadsInto most_reads result wire.old wire.new block.new }
    ensures bytes { block.new.bytes ≡ block.old.bytes }
    ensures unread { OnErr result
        (ReadsFewer (source block.old (R.remaining (inner_of wire.old)))
        (R.remaining (inner_of wire.new)) length) }
    // Lack of memory takes nothing from the input, and can't be the result for an empty body.
    ensures body { IfOk result
        (λ body. TakesBody (source block.old (R.remaining (inner_of wire.old))) length body
        (source block.new (R.remaining (inner_of wire.new)))) }
    ensures falls { OnOk result
        (fuel most_reads wire.new block.new ≤ fuel most_reads wire.old block.old) }
{
    if length == 0 {
        return Ok(BodyTaken::Whole(Vec::new(alloc)));
    }
    let Ok(mut bytes) = vec![in alloc; 0u8; length] else {
        return Ok(BodyTaken::NoMemory);
    };
    if fill(block, wire, &mut bytes, most_reads)? {
        Ok(BodyTaken::Whole(bytes))
    } else {
        Ok(BodyTaken::End)
    }
}

/// Fills the room with bytes from the front. Returns false at the end.
fn fill<R: Read>(
    block: &mut Block,
    wire: &mut Wire<R>,
    room: &mut [u8],
    most_reads: u64,
) -> Result<bool, ReadFault>
    requires reads { MayReadInto most_reads wire.old block.old }
    ensures reads { ReadsInto most_reads result wire.old wire.new block.new }
    ensures bytes { block.new.bytes ≡ block.old.bytes }
    ensures room { Fills result room.old room.new
        (source block.old (R.remaining (inner_of wire.old)))
        (source block.new (R.remaining (inner_of wire.new))) }
    ensures unread { OnErr result
        (ReadsFewer (source block.old (R.remaining (inner_of wire.old)))
        (R.remaining (inner_of wire.new)) (length room.old)) }
    ensures falls { OnOk result
        (fuel most_reads wire.new block.new ≤ fuel most_reads wire.old block.old) }
{
    let bytes = block.pending();
    let have = room.len().min(bytes.len());
    let (front, rest) = room.split_at_mut(have);
    front.copy_from_slice(&bytes[..have]);
    block.give(have);
    read_whole(wire, rest, most_reads)
}

/// Reads as many bytes as there is room for. Returns false at the end.
fn read_whole<R: Read>(
    wire: &mut Wire<R>,
    room: &mut [u8],
    most_reads: u64,
) -> Result<bool, ReadFault>
    requires reads { MayRead most_reads wire.old }
    ensures room { Fills result room.old room.new
        (R.remaining (inner_of wire.old)) (R.remaining (inner_of wire.new)) }
    ensures unread { OnErr result
        (ReadsFewer (R.remaining (inner_of wire.old)) (R.remaining (inner_of wire.new))
        (length room.old)) }
    ensures more_reads { reads_of wire.old ≤ reads_of wire.new }
    ensures reads { ReadsUpTo most_reads result wire.old wire.new }
{
    let mut got = 0;
    while got < room.len() {
        if wire.reads() >= most_reads {
            return Err(ReadFault::TooMany);
        }
        match wire.read(&mut room[got..]) {
            Ok(0) => return Ok(false),
            Ok(count) => got += count,
            Err(_) => return Err(ReadFault::Failed),
        }
    }
    Ok(true)
}
