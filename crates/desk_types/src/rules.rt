//! Versions of the rules.

/// The version of the rules. The versions differ only in the counts that they refuse.
#[derive(Clone, Copy, PartialEq, Eq)]
pub enum Rules {
    /// A count must not exceed the remaining pieces.
    One,
    /// A count may exceed the remaining pieces of a reel that is neither mounted nor spent: pieces
    /// were found.
    Two,
}
