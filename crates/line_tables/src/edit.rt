//! The row of an accepted command.

/// A row of `accepted`.
#[derive(Drop)]
pub struct Accepted {
    /// From 1.
    pub number: u32,
    pub uid: String,
    pub source: String,
    /// The message's own minute, since 1970-01-01T00:00Z.
    pub own: u32,
    /// The minute at which the command takes effect.
    pub effective: u32,
    /// The command's stored text.
    pub command: String,
    /// The whole text of the answer.
    pub detail: String,
}
