//! Properties that no clause covers: calls of the desks, of a guard, and of what makes, reads and writes
//! entries succeed with ample memory; both desks give the same results; and messages and files are read. These tests
//! are a crate of their own, since a crate with tests is proved twice.
#![tactic(auto)]

#[cfg(test)]
mod tests;
