//! Taking lines from a reader's blocks.

ghost use Rattle.std.specs.Prelude.{◌≡◌, ◌<◌, ◌++◌, ℕ, List, IfOk, OnOk, OnErr};
ghost use Rattle.std.specs.Io.KnownBytes.{Keeps};
ghost use Rattle.desk_types.specs.Wire.{inner_of};
ghost use Rattle.desk_answers.specs.Block.{source, fuel};
ghost use Rattle.desk_answers.specs.Reads.{MayReadInto, ReadsInto};
ghost use Rattle.desk_feed.specs.Taking.{FallsAtEnd, HasPending, IsFirstFeed, HoldsLine, ReadsInside, TakesNext};
ghost use Rattle.desk_feed.specs.Lines.{without_return};

use desk_answers::{Block, ReadFault};
use desk_types::{LONGEST_INPUT, Wire};
use std::alloc::Global;
use std::io::Read;

/// The most bytes stored of a line, including its carriage return.
pub const LONGEST_RAW: usize = LONGEST_INPUT + 1;

/// The stored part of a line, without its line feed.
#[derive(Drop)]
pub enum RawLine {
    /// All its bytes.
    Whole(Vec<u8>),
    /// The line is over the limit.
    Over,
    /// There was too little memory for the line.
    NoMemory,
    /// There was too little memory, but the line is only a carriage return, so it is empty.
    NoMemoryReturn,
}

/// A line, and whether it comes after the last line feed.
#[derive(Drop)]
pub struct TakenLine {
    pub line: RawLine,
    pub last: bool,
}

/// Takes the next line. A line that can't be stored whole is still read to its end, without more
/// memory.
pub fn take_line<R: Read>(
    alloc: Global,
    block: &mut Block,
    wire: &mut Wire<R>,
    most_reads: u64,
) -> Result<TakenLine, ReadFault>
    requires reads { MayReadInto most_reads wire.old block.old }
    ensures reads { ReadsInto most_reads result wire.old wire.new block.new }
    ensures line { IfOk result
        (λ taken. TakesNext (source block.old (R.remaining (inner_of wire.old))) taken
        (source block.new (R.remaining (inner_of wire.new)))) }
    // A failed read loses at most a part of one line: the bytes taken have no line feed.
    ensures unread { OnErr result
        (ReadsInside (source block.old (R.remaining (inner_of wire.old)))
        (R.remaining (inner_of wire.new))) }
    // So `feed` ends: each line uses up pending bytes, or reads that are still allowed.
    ensures falls { OnOk result
        (fuel most_reads wire.new block.new < fuel most_reads wire.old block.old) }
{
    let mut line = RawLine::Whole(Vec::new(alloc));
    while ready(block, wire, most_reads)? {
        let bytes = block.pending();
        let all = bytes.len();
        match first_feed(bytes) {
            Some(count) => {
                let line = extend_line(line, &bytes[..count]);
                block.give(count + 1);
                return Ok(TakenLine { line, last: false });
            }
            None => {
                line = extend_line(line, bytes);
                block.give(all);
            }
        }
    }
    Ok(TakenLine { line, last: true })
}

/// Reads at most once, so that a byte is pending. Returns false at the end.
fn ready<R: Read>(block: &mut Block, wire: &mut Wire<R>, most_reads: u64) -> Result<bool, ReadFault>
    requires reads { MayReadInto most_reads wire.old block.old }
    ensures reads { ReadsInto most_reads result wire.old wire.new block.new }
    ensures source { OnOk result
        (Keeps (source block.old (R.remaining (inner_of wire.old)))
        (source block.new (R.remaining (inner_of wire.new)))) }
    ensures unread { OnErr result
        (Keeps (source block.old (R.remaining (inner_of wire.old)))
        (R.remaining (inner_of wire.new))) }
    ensures pending { HasPending result block.new (R.remaining (inner_of wire.new)) }
    ensures falls { FallsAtEnd most_reads result wire.old block.old wire.new block.new }
{
    if block.pending().is_empty() {
        return block.more(wire, most_reads);
    }
    Ok(true)
}

fn first_feed(block: &[u8]) -> Option<usize>
    ensures { IsFirstFeed block.now result }
{
    block.iter().position(|b| *b == b'\n')
}

fn extend_line(line: RawLine, piece: &[u8]) -> RawLine
    ensures { (raw : List ℕ) → HoldsLine line raw → HoldsLine result (raw ++ piece.now) }
{
    if piece.is_empty() {
        return line;
    }
    match line {
        RawLine::Whole(mut bytes) => {
            if piece.len() > LONGEST_RAW.saturating_sub(bytes.len()) {
                RawLine::Over
            } else {
                let is_return = bytes.is_empty() && without_return(piece).is_empty();
                if bytes.extend_from_slice(piece).is_ok() {
                    RawLine::Whole(bytes)
                } else if is_return {
                    RawLine::NoMemoryReturn
                } else {
                    RawLine::NoMemory
                }
            }
        }
        RawLine::Over => RawLine::Over,
        RawLine::NoMemory | RawLine::NoMemoryReturn => RawLine::NoMemory,
    }
}

/// Returns the line without a carriage return at its end.
pub fn without_return(raw: &[u8]) -> &[u8]
    ensures { result.now ≡ without_return raw.now }
{
    if raw.last() == Some(&b'\r') {
        &raw[..raw.len() - 1]
    } else {
        raw
    }
}
