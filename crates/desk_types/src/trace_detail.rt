//! The detail level of a trace.

ghost use Rattle.std.specs.Prelude.{◌≡◌};
ghost use Rattle.desk_types.specs.TraceDetail.{trace_detail_of};

/// How much a trace reports about a piece.
#[derive(Clone, Copy, PartialEq, Eq)]
pub enum TraceDetail {
    /// The parts of a board, or the boards of a lot.
    One,
    /// Also the lots of a board, or the parts of a lot.
    Two,
    /// Also the reels.
    Three,
    /// Each piece, with its designator, machine and slot.
    Four,
}

impl TraceDetail {
    /// Returns the detail level for a number from 1 to 4.
    pub fn new(number: u8) -> Option<TraceDetail>
        ensures { result ≡ trace_detail_of number }
    {
        match number {
            1 => Some(TraceDetail::One),
            2 => Some(TraceDetail::Two),
            3 => Some(TraceDetail::Three),
            4 => Some(TraceDetail::Four),
            _ => None,
        }
    }
}
