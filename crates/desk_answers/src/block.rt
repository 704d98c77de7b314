//! A buffer for reads in blocks, instead of byte by byte.

ghost use Rattle.std.specs.Prelude.{◌≡◌, ◌+◌, ◌-◌, ◌<◌, ◌≤◌, [], length, drop, slice_range, OnOk};
ghost use Rattle.desk_types.specs.Wire.{inner_of};
ghost use Rattle.desk_answers.specs.Block.{IsBlock, pending_bytes, fuel};
ghost use Rattle.desk_answers.specs.Reads.{CanCountRead, CountsRead, HasRoom, KeepsSource, MayReadInto, ReadsBehind, ReadsInto, ReadsMore};

use desk_types::{BLOCK, Wire};
use std::io::Read;

/// The bytes of the last read, and which of them are pending (not taken yet).
#[derive(Drop)]
pub struct Block {
    pub bytes: [u8; BLOCK],
    at: usize,
    end: usize,
}

/// Why reading stopped.
#[derive(Drop)]
pub enum ReadFault {
    /// A read failed.
    Failed,
    /// The read limit was reached.
    TooMany,
}

impl Block {
    /// Returns an empty block.
    pub fn new() -> Block
        ensures valid { IsBlock result }
        ensures empty { pending_bytes result ≡ [] }
    {
        Block {
            bytes: [0; BLOCK],
            at: 0,
            end: 0,
        }
    }

    /// Returns the pending bytes.
    pub fn pending(&self) -> &[u8]
        requires valid { IsBlock self.now }
        ensures { result.now ≡ pending_bytes self.now }
    {
        &self.bytes[self.at..self.end]
    }

    /// Returns the position of the pending bytes.
    pub fn start(&self) -> usize
        requires valid { IsBlock self.now }
        ensures within { result + length (pending_bytes self.now) ≤ BLOCK }
        ensures place { pending_bytes self.now
            ≡ slice_range self.now.bytes result (result + length (pending_bytes self.now)) }
    {
        self.at
    }

    /// Takes pending bytes. They stay at their place in the block.
    pub fn give(&mut self, count: usize)
        requires valid { IsBlock self.old }
        requires there { count ≤ length (pending_bytes self.old) }
        ensures valid { IsBlock self.new }
        ensures bytes { self.new.bytes ≡ self.old.bytes }
        ensures pending { pending_bytes self.new ≡ drop count (pending_bytes self.old) }
    {
        self.at += count;
    }

    /// Reads once more behind the pending bytes. Returns false at the end.
    pub fn more<R: Read>(&mut self, wire: &mut Wire<R>, most_reads: u64) -> Result<bool, ReadFault>
        requires reads { MayReadInto most_reads wire.old self.old }
        requires room { length (pending_bytes self.old) < BLOCK }
        ensures reads { ReadsInto most_reads result wire.old wire.new self.new }
        ensures source { KeepsSource result self.old self.new
            (R.remaining (inner_of wire.old)) (R.remaining (inner_of wire.new)) }
        ensures more { ReadsMore result self.old self.new (R.remaining (inner_of wire.new)) }
        ensures falls { OnOk result
            (fuel most_reads wire.new self.new < fuel most_reads wire.old self.old) }
    {
        if wire.reads() >= most_reads {
            return Err(ReadFault::TooMany);
        }
        self.move_down();
        match read_behind(wire, &mut self.bytes, self.end) {
            Ok(count) => {
                self.end += count;
                Ok(count > 0)
            }
            Err(_) => Err(ReadFault::Failed),
        }
    }

    fn move_down(&mut self)
        requires valid { IsBlock self.old }
        ensures valid { IsBlock self.new }
        ensures at { self.new.at ≡ 0 }
        ensures end { self.new.end ≡ self.old.end - self.old.at }
        ensures pending { pending_bytes self.new ≡ pending_bytes self.old }
    {
        if self.at > 0 {
            self.bytes.copy_within(self.at..self.end, 0);
            self.end -= self.at;
            self.at = 0;
        }
    }
}

fn read_behind<R: Read>(
    wire: &mut Wire<R>,
    block: &mut [u8; BLOCK],
    end: usize,
) -> Result<usize, ReadFault>
    requires counts { CanCountRead wire.old }
    requires room { HasRoom block.old end }
    ensures counts { CountsRead result wire.old wire.new }
    ensures block { ReadsBehind end result block.old block.new
        (R.remaining (inner_of wire.old)) (R.remaining (inner_of wire.new)) }
{
    match wire.read(&mut block[end..]) {
        Ok(count) => Ok(count),
        Err(_) => Err(ReadFault::Failed),
    }
}
