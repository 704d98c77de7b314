//! Taking a stream's portions one by one.

ghost use Rattle.std.specs.Prelude.{◌≡◌, ◌<◌, false, IfOk, IfSome, OnErr};
ghost use Rattle.desk_types.specs.Wire.{inner_of};
ghost use Rattle.desk_answers.specs.Block.{fuel, source};
ghost use Rattle.desk_answers.specs.Reads.{MayReadInto, ReadsInto};
ghost use Rattle.http_stream.specs.Cut.{ReadsInside, is_last};
ghost use Rattle.http_stream.specs.Fronts.{IsFront};
ghost use Rattle.http_stream.specs.Portions.{IsSeen, TakesNext, method_of, portion_of, target_of};

use crate::body::{BodyTaken, take_body};
use crate::front::{HeadSearch, Seen, find_front};
use crate::head::LengthFault;
use desk_answers::{Block, ReadFault};
use desk_types::Wire;
use std::alloc::Global;
use std::io::Read;

/// The portion that was taken.
#[derive(Drop)]
pub enum TakenPortion {
    /// A whole request: its head, and the bytes of its body.
    Whole(Seen, Vec<u8>),
    BadHead,
    HeadTooLarge,
    /// A head whose body can't be read.
    Unread(Seen, LengthFault),
    /// There was too little memory for a body.
    Starved,
}

/// Takes the next portion, or none if the input ends inside or before a request.
pub fn take_portion<R: Read>(
    alloc: Global,
    block: &mut Block,
    input: &mut Wire<R>,
    most_reads: u64,
) -> Result<Option<TakenPortion>, ReadFault>
    requires reads { MayReadInto most_reads input.old block.old }
    ensures reads { ReadsInto most_reads result input.old input.new block.new }
    ensures next { IfOk result
        (λ next. TakesNext next block.new.bytes
        (source block.old (R.remaining (inner_of input.old)))
        (source block.new (R.remaining (inner_of input.new)))) }
    // The bytes read before the fault hold no whole request.
    ensures unread { OnErr result
        (ReadsInside (source block.old (R.remaining (inner_of input.old)))
        (R.remaining (inner_of input.new))) }
    // So `serve` ends: each portion but the last uses up bytes, or reads still allowed.
    ensures falls { IfOk result (λ next. IfSome next
        (λ taken. is_last (portion_of block.new.bytes taken) ≡ false
        → fuel most_reads input.new block.new < fuel most_reads input.old block.old)) }
{
    match find_front(block, input, most_reads)? {
        HeadSearch::End => Ok(None),
        HeadSearch::Bad => Ok(Some(TakenPortion::BadHead)),
        HeadSearch::TooLarge => Ok(Some(TakenPortion::HeadTooLarge)),
        HeadSearch::Head(seen) => take_request(alloc, block, input, seen, most_reads),
    }
}

fn take_request<R: Read>(
    alloc: Global,
    block: &mut Block,
    input: &mut Wire<R>,
    seen: Seen,
    most_reads: u64,
) -> Result<Option<TakenPortion>, ReadFault>
    requires reads { MayReadInto most_reads input.old block.old }
    requires seen { IsFront block.old (R.remaining (inner_of input.old)) (HeadSearch.Head seen) }
    ensures reads { ReadsInto most_reads result input.old input.new block.new }
    ensures next { IfOk result
        (λ next. TakesNext next block.new.bytes
        (source block.old (R.remaining (inner_of input.old)))
        (source block.new (R.remaining (inner_of input.new)))) }
    ensures unread { OnErr result
        (ReadsInside (source block.old (R.remaining (inner_of input.old)))
        (R.remaining (inner_of input.new))) }
    ensures falls { IfOk result (λ next. IfSome next
        (λ taken. is_last (portion_of block.new.bytes taken) ≡ false
        → fuel most_reads input.new block.new < fuel most_reads input.old block.old)) }
{
    match seen.head.body {
        Err(fault) => Ok(Some(TakenPortion::Unread(seen, fault))),
        Ok(length) => {
            block.give(seen.head.len);
            match take_body(alloc, block, input, length, most_reads)? {
                BodyTaken::Whole(bytes) => Ok(Some(TakenPortion::Whole(seen, bytes))),
                BodyTaken::End => Ok(None),
                BodyTaken::NoMemory => Ok(Some(TakenPortion::Starved)),
            }
        }
    }
}

/// Returns the head's method from the block.
pub fn method_of(block: &[u8], seen: Seen) -> &[u8]
    requires seen { IsSeen block.now seen }
    ensures { result.now ≡ method_of block.now seen }
{
    seen.head.method.of(&block[seen.from..seen.to])
}

/// Returns the head's target from the block.
pub fn target_of(block: &[u8], seen: Seen) -> &[u8]
    requires seen { IsSeen block.now seen }
    ensures { result.now ≡ target_of block.now seen }
{
    seen.head.target.of(&block[seen.from..seen.to])
}
