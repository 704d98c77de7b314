//! A law about the content of messages. It is for proofs and does nothing at run time.

ghost use Rattle.cfx_profile.specs.Skipped.{OthersAreSkipped};

/// The content of a message only depends on the members that are read.
pub fn other_members_are_skipped()
    ensures { OthersAreSkipped }
{}
