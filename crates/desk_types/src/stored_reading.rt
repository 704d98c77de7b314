//! Reading a command from its text.

ghost use Rattle.desk_types.specs.Fields.{Reads, IsReading, IsSaidBy, members_of};

use crate::command::Command;
use crate::level::Moisture;
use crate::stored_fields::{Fields, Unread};
use crate::stored_value::Stored;
use crate::stored_word::Word;
use std::alloc::Global;

/// Reads a command from the whole text.
pub fn whole(alloc: Global, text: &[u8]) -> Result<Command, Unread>
    ensures { IsReading text.now result }
{
    let mut fields = Fields::new(text);
    let Some(first) = fields.take_next() else {
        return Err(Unread::NotStored);
    };
    let Some(word) = Word::read(first) else {
        return Err(Unread::NotStored);
    };
    let command = members(alloc, word, &mut fields)?;
    if !fields.is_empty() {
        return Err(Unread::NotStored);
    }
    Ok(command)
}

fn members(alloc: Global, word: Word, fields: &mut Fields) -> Result<Command, Unread>
    ensures { Reads (IsSaidBy word) members_of fields.old fields.new result }
{
    match word {
        Word::PartDefined => Ok(Command::PartDefined {
            part: Stored::read(alloc, fields)?,
        }),
        Word::AlternateAllowed => {
            let (part, alternate) = Stored::read(alloc, fields)?;
            Ok(Command::AlternateAllowed { part, alternate })
        }
        Word::SheetDefined => {
            let (product, machine, rows) = Stored::read(alloc, fields)?;
            Ok(Command::SheetDefined {
                product,
                machine,
                rows,
            })
        }
        Word::ProductSelected => {
            let (machine, product) = Stored::read(alloc, fields)?;
            Ok(Command::ProductSelected { machine, product })
        }
        Word::ReelReceived => receipt(alloc, fields),
        Word::ReelOpened => Ok(Command::ReelOpened {
            reel: Stored::read(alloc, fields)?,
        }),
        Word::ReelSealed => Ok(Command::ReelSealed {
            reel: Stored::read(alloc, fields)?,
        }),
        Word::ReelBaked => Ok(Command::ReelBaked {
            reel: Stored::read(alloc, fields)?,
        }),
        Word::MaterialsLoaded => {
            let (machine, slot, reel) = Stored::read(alloc, fields)?;
            Ok(Command::MaterialsLoaded {
                machine,
                slot,
                reel,
            })
        }
        Word::MaterialsSpliced => {
            let (machine, slot, reel) = Stored::read(alloc, fields)?;
            Ok(Command::MaterialsSpliced {
                machine,
                slot,
                reel,
            })
        }
        Word::MaterialsUnloaded => {
            let (machine, slot) = Stored::read(alloc, fields)?;
            Ok(Command::MaterialsUnloaded { machine, slot })
        }
        Word::WorkStarted => {
            let (machine, board) = Stored::read(alloc, fields)?;
            Ok(Command::WorkStarted { machine, board })
        }
        Word::WorkCompleted => {
            let (machine, board) = Stored::read(alloc, fields)?;
            Ok(Command::WorkCompleted { machine, board })
        }
        Word::MaterialsInstalled => {
            let (machine, board, designators) = Stored::read(alloc, fields)?;
            Ok(Command::MaterialsInstalled {
                machine,
                board,
                designators,
            })
        }
        Word::MaterialsScrapped => {
            let (machine, slot, quantity) = Stored::read(alloc, fields)?;
            Ok(Command::MaterialsScrapped {
                machine,
                slot,
                quantity,
            })
        }
        Word::CountsTaken => Ok(Command::CountsTaken {
            counts: Stored::read(alloc, fields)?,
        }),
        Word::ClockSet => Ok(Command::ClockSet),
    }
}

fn receipt(alloc: Global, fields: &mut Fields) -> Result<Command, Unread>
    ensures { Reads (IsSaidBy Word.ReelReceived) members_of fields.old fields.new result }
{
    let ((reel, part, lot), (level, quantity, label)) = Stored::read(alloc, fields)?;
    let Some(moisture) = Moisture::new(level, label) else {
        return Err(Unread::NotStored);
    };
    Ok(Command::ReelReceived {
        reel,
        part,
        lot,
        moisture,
        quantity,
    })
}
