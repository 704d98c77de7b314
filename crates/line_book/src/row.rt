//! Rows of the table `book`.

/// A row of the table `book`.
#[derive(Drop)]
pub struct BookRow {
    /// From 1, without gaps.
    pub number: u32,
    /// The number of accepted commands when it was written.
    pub after: u32,
    pub kind: String,
    pub source: String,
    pub uid: String,
    pub machine: String,
    pub slot: String,
    pub board: String,
    pub reel: String,
    pub word: String,
    /// The number of the entry that it is about, or 0.
    pub of: u32,
    pub told: String,
}
