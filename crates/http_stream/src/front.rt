//! The start of a reader's bytes.

ghost use Rattle.std.specs.Prelude.{◌≤◌, IfOk, OnOk, OnErr};
ghost use Rattle.std.specs.Io.KnownBytes.{Keeps};
ghost use Rattle.desk_types.specs.Wire.{inner_of};
ghost use Rattle.desk_answers.specs.Block.{source, fuel};
ghost use Rattle.desk_answers.specs.Reads.{MayReadInto, ReadsInto};
ghost use Rattle.http_stream.specs.Cut.{ReadsInside};
ghost use Rattle.http_stream.specs.Fronts.{IsFront};

use crate::head::{Glance, Head, look};
use desk_answers::{Block, ReadFault};
use desk_types::{HEAD_LIMIT, Wire};
use std::io::Read;

/// A head, and the place in the block of the searched bytes, which start with it.
#[derive(Clone, Copy, Drop)]
pub struct Seen {
    pub from: usize,
    /// The place after the last searched byte.
    pub to: usize,
    pub head: Head,
}

/// The result of a search for a head.
#[derive(Clone, Copy, Drop)]
pub enum HeadSearch {
    Head(Seen),
    Bad,
    TooLarge,
    End,
}

/// Searches for a head, and reads until the result is certain.
pub fn find_front<R: Read>(
    block: &mut Block,
    wire: &mut Wire<R>,
    most_reads: u64,
) -> Result<HeadSearch, ReadFault>
    requires reads { MayReadInto most_reads wire.old block.old }
    ensures reads { ReadsInto most_reads result wire.old wire.new block.new }
    ensures source { OnOk result
        (Keeps (source block.old (R.remaining (inner_of wire.old)))
        (source block.new (R.remaining (inner_of wire.new)))) }
    ensures unread { OnErr result
        (ReadsInside (source block.old (R.remaining (inner_of wire.old)))
        (R.remaining (inner_of wire.new))) }
    ensures front { IfOk result
        (λ front. IsFront block.new (R.remaining (inner_of wire.new)) front) }
    ensures falls { OnOk result
        (fuel most_reads wire.new block.new ≤ fuel most_reads wire.old block.old) }
{
    'looks: loop {
        let bytes = block.pending();
        let len = HEAD_LIMIT.min(bytes.len());
        match look(&bytes[..len]) {
            Glance::Head(head) => {
                let from = block.start();
                let to = from + len;
                return Ok(HeadSearch::Head(Seen { from, to, head }));
            }
            Glance::Bad => return Ok(HeadSearch::Bad),
            Glance::Unfinished => {
                if len >= HEAD_LIMIT {
                    return Ok(HeadSearch::TooLarge);
                }
                if !block.more(wire, most_reads)? {
                    return Ok(HeadSearch::End);
                }
            }
        }
    }
}
