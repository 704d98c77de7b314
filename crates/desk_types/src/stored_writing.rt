//! Writing a command as text.

ghost use Rattle.std.specs.Prelude.{◌≡◌, ◌∷◌, ◌++◌, IfOk, OnOk};
ghost use Rattle.desk_types.specs.Fields.{after_tabs, members_of, fields_text};
ghost use Rattle.desk_types.specs.StoredText.{fields_of, word_text};

use crate::command::Command;
use crate::stored_value::Stored;
use crate::stored_word::Word;
use std::alloc::{AllocError, Global};

/// Returns the command's fields, separated by tabs.
pub fn fields_text(alloc: Global, command: &Command) -> Result<Vec<u8>, AllocError>
    ensures { IfOk result (λ text. text.items ≡ fields_text (fields_of command.now)) }
{
    let mut text = Vec::from_slice(alloc, word_of(command).as_str().as_bytes())?;
    write_members(command, &mut text)?;
    Ok(text)
}

fn word_of(command: &Command) -> Word
    ensures { fields_of command.now ≡ word_text result ∷ members_of command.now }
{
    match command {
        Command::PartDefined { .. } => Word::PartDefined,
        Command::AlternateAllowed { .. } => Word::AlternateAllowed,
        Command::SheetDefined { .. } => Word::SheetDefined,
        Command::ProductSelected { .. } => Word::ProductSelected,
        Command::ReelReceived { .. } => Word::ReelReceived,
        Command::ReelOpened { .. } => Word::ReelOpened,
        Command::ReelSealed { .. } => Word::ReelSealed,
        Command::ReelBaked { .. } => Word::ReelBaked,
        Command::MaterialsLoaded { .. } => Word::MaterialsLoaded,
        Command::MaterialsSpliced { .. } => Word::MaterialsSpliced,
        Command::MaterialsUnloaded { .. } => Word::MaterialsUnloaded,
        Command::WorkStarted { .. } => Word::WorkStarted,
        Command::WorkCompleted { .. } => Word::WorkCompleted,
        Command::MaterialsInstalled { .. } => Word::MaterialsInstalled,
        Command::MaterialsScrapped { .. } => Word::MaterialsScrapped,
        Command::CountsTaken { .. } => Word::CountsTaken,
        Command::ClockSet => Word::ClockSet,
    }
}

fn write_members(command: &Command, text: &mut Vec<u8>) -> Result<(), AllocError>
    ensures { OnOk result (text.new.items ≡ text.old.items ++ after_tabs (members_of command.now)) }
{
    match command {
        Command::PartDefined { part } => part.write(text),
        Command::ReelOpened { reel } | Command::ReelSealed { reel } | Command::ReelBaked { reel } =>
            reel.write(text),
        Command::AlternateAllowed { part, alternate } => (*part, *alternate).write(text),
        Command::ProductSelected { machine, product } => (*machine, *product).write(text),
        Command::MaterialsUnloaded { machine, slot } => (*machine, *slot).write(text),
        Command::WorkStarted { machine, board } | Command::WorkCompleted { machine, board } => {
            (*machine, *board).write(text)
        }
        Command::MaterialsLoaded {
            machine,
            slot,
            reel,
        }
        | Command::MaterialsSpliced {
            machine,
            slot,
            reel,
        } => (*machine, *slot, *reel).write(text),
        Command::SheetDefined {
            product,
            machine,
            rows,
        } => {
            (*product, *machine).write(text)?;
            rows.write(text)
        }
        Command::MaterialsInstalled {
            machine,
            board,
            designators,
        } => {
            (*machine, *board).write(text)?;
            designators.write(text)
        }
        Command::ReelReceived {
            reel,
            part,
            lot,
            moisture,
            quantity,
        } => {
            (*reel, *part, *lot).write(text)?;
            (moisture.level(), *quantity, moisture.label()).write(text)
        }
        Command::MaterialsScrapped {
            machine,
            slot,
            quantity,
        } => (*machine, *slot, *quantity).write(text),
        Command::CountsTaken { counts } => counts.write(text),
        Command::ClockSet => Ok(()),
    }
}
