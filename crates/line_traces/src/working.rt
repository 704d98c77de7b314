//! The working state of a line.

use state_rows::TraceLists;

/// A desk, and the trace indexes of the same history.
#[derive(Drop)]
pub struct Working<D> {
    pub desk: D,
    pub lists: TraceLists,
}
