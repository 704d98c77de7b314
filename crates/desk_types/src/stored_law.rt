//! The stored text of a command: its kind and its members, separated by tabs.
//!
//! A table keeps each accepted command as such a text for years, so a command has exactly one text,
//! and reading accepts no other. The format is this project's own. Numbers are decimal without sign
//! or leading zeros. A list is its length followed by its elements. A receipt ends with the minutes
//! of its label, which are 0 except at level 6.

ghost use Rattle.std.specs.Prelude.{◌≡◌};
ghost use Rattle.desk_types.specs.Command.{IsCommand};
ghost use Rattle.desk_types.specs.declared.command.Command.{Command};
ghost use Rattle.desk_types.specs.StoredText.{stored_text};

/// A law: different commands have different texts. It is for proofs and does nothing at run time.
pub fn texts_tell_commands_apart()
    ensures { (a b : Command) → IsCommand a → IsCommand b → stored_text a ≡ stored_text b → a ≡ b }
{}
