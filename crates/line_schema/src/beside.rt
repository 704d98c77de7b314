//! A law of the test of a schema. It is for proofs and does nothing at run time.

ghost use Rattle.std.specs.Prelude.{◌≡◌, false, IsTrue, [], ◌∷◌};
ghost use Rattle.line_tables.specs.Line.{is_ours};
ghost use Rattle.line_schema.specs.Samples.{note, note_on_reel, with_others};

/// The contracts on values cover a new file with a table of other people and an index of theirs on
/// `accepted`. They do not cover it if that table refers to `reel`.
pub fn others_may_be_beside()
    ensures told { IsTrue (is_ours (with_others note)) }
    ensures refused { is_ours (with_others note_on_reel) ≡ false }
{}
