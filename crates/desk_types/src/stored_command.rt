//! Writing a command as text, and reading it back.

ghost use Rattle.std.specs.Prelude.{◌≡◌, IfOk, IfSome, IfNone};
ghost use Rattle.desk_types.specs.Command.{IsCommand};
ghost use Rattle.desk_types.specs.StoredText.{stored_text};
ghost use Rattle.desk_types.specs.declared.command.Command.{Command as Request};

use crate::command::Command;
use crate::list::Text;
use crate::stored_fields::Unread;
use crate::stored_reading::whole;
use crate::stored_writing::fields_text;
use std::alloc::{AllocError, Global};

impl Command {
    /// Returns the command's text.
    pub fn write_text(&self, alloc: Global) -> Result<Text, AllocError>
        ensures { IfOk result (λ text. text ≡ stored_text self.now) }
    {
        Ok(Text::new(fields_text(alloc, self)?))
    }

    /// Returns the command with this text. Takes memory only for its lists.
    pub fn read_text(alloc: Global, text: &[u8]) -> Result<Option<Command>, AllocError>
        // Only the one text that the command is written as: no command has two texts.
        ensures read { IfOk result (λ found. IfSome found (λ c. text.now ≡ stored_text c)) }
        // A damaged file can't bring in a number that no message could have.
        ensures range { IfOk result (λ found. IfSome found IsCommand) }
        // No command that was stored is refused, so a refusal is a proof of damage.
        ensures refused { IfOk result
            (λ found. IfNone found ((c : Request) → IsCommand c → ¬ (text.now ≡ stored_text c))) }
    {
        match whole(alloc, text) {
            Ok(command) => Ok(Some(command)),
            Err(Unread::NotStored) => Ok(None),
            Err(Unread::NoMemory) => Err(AllocError),
        }
    }
}
