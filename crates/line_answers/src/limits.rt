//! Limits of what people say.

/// The most bytes of what became of the boards, of who says it, and of why.
pub const LONGEST_SAYING: usize = 1_000;
