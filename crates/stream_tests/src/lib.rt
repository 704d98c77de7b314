//! What no clause says of streams: each read and each write that fails is reported at once; how much
//! a read and a write move; a request over a socket is answered; a run of the program, and a call of
//! `headline`, can succeed. These tests are a crate of their own, since a crate with tests is proved
//! twice.
#![tactic(auto)]

#[cfg(test)]
mod tests;
