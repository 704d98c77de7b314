//! The entry that a refused command makes.

ghost use Rattle.std.specs.Prelude.{◌≡◌, Some, IfOk};
ghost use Rattle.desk_types.specs.History.{Basis};
ghost use Rattle.desk_types.specs.Setup.{sheet_on};
ghost use Rattle.desk_answers.specs.Texts.{refusal_word};
ghost use Rattle.line_book.specs.Causes.{is_on};
ghost use Rattle.line_entries.specs.Refusal.{answer_word, entry_for, handling, has_mount, is_live_at, mounting, refused, says_mounted, scrap_slot, start_slot, work};

use desk_answers::Answer;
use desk_types::{Command, Desk, Id, Mount, Refusal, SheetRows};
use line_book::Matter;
use setup_sheets::row_of;
use std::alloc::AllocError;

/// Returns the entry that the command with this answer makes, if any. Only a refused load, splice,
/// unload, start, completion, install or scrap makes one: it tells of something that was done. A
/// refused load or splice of a reel that is live on that very slot makes none.
pub fn refused<D: Desk>(
    desk: &D,
    command: &Command,
    answer: &Answer,
) -> Result<Option<Matter>, AllocError>
    ensures { (S : Basis) → D.Stands desk.now S
        → IfOk result (λ matter. matter ≡ refused S.history command.now answer.now) }
{
    match answer_word(answer) {
        Some(word) => entry_for(desk, answer, command, &word),
        None => Ok(None),
    }
}

fn entry_for<D: Desk>(
    desk: &D,
    answer: &Answer,
    command: &Command,
    word: &Id,
) -> Result<Option<Matter>, AllocError>
    ensures { (S : Basis) → D.Stands desk.now S
        → IfOk result (λ matter. matter ≡ entry_for S.history answer.now command.now word.now) }
{
    match command {
        Command::MaterialsLoaded {
            machine,
            slot,
            reel,
        } => mounting(desk, answer, machine, slot, reel, word),
        Command::MaterialsSpliced {
            machine,
            slot,
            reel,
        } => mounting(desk, answer, machine, slot, reel, word),
        Command::MaterialsUnloaded { machine, slot } => {
            Ok(Some(handling(desk, machine, slot, None, word)?))
        }
        _ => Ok(work(answer, command, word)),
    }
}

fn work(answer: &Answer, command: &Command, word: &Id) -> Option<Matter>
    ensures { result ≡ work answer.now command.now word.now }
{
    let (machine, slot, board) = match command {
        Command::WorkStarted { machine, board } => (*machine, start_slot(answer), Some(*board)),
        Command::WorkCompleted { machine, board } => (*machine, None, Some(*board)),
        Command::MaterialsInstalled { machine, board, .. } => (*machine, None, Some(*board)),
        Command::MaterialsScrapped { machine, .. } => (*machine, scrap_slot(answer), None),
        _ => return None,
    };
    Some(Matter::Work {
        machine,
        slot,
        board,
        word: *word,
    })
}

fn mounting<D: Desk>(
    desk: &D,
    answer: &Answer,
    machine: &Id,
    slot: &Id,
    reel: &Id,
    word: &Id,
) -> Result<Option<Matter>, AllocError>
    ensures { (S : Basis) → D.Stands desk.now S → IfOk result (λ matter. matter
        ≡ mounting S.history answer.now machine.now slot.now reel.now word.now) }
{
    if says_mounted(answer) && is_live_at(desk, machine, slot, reel)? {
        return Ok(None);
    }
    Ok(Some(handling(desk, machine, slot, Some(*reel), word)?))
}

fn handling<D: Desk>(
    desk: &D,
    machine: &Id,
    slot: &Id,
    reel: Option<Id>,
    word: &Id,
) -> Result<Matter, AllocError>
    ensures { (S : Basis) → D.Stands desk.now S → IfOk result (λ matter. matter
        ≡ handling S.history machine.now slot.now reel word.now) }
{
    let machine = *machine;
    let slot = *slot;
    let word = *word;
    if is_on(&sheet_on(desk, &machine)?, &slot) {
        Ok(Matter::Handling {
            machine,
            slot,
            reel,
            word,
        })
    } else {
        Ok(Matter::Stray {
            machine,
            slot,
            reel,
            word,
        })
    }
}

fn sheet_on<D: Desk>(desk: &D, machine: &Id) -> Result<Option<SheetRows>, AllocError>
    ensures { (S : Basis) → D.Stands desk.now S
        → IfOk result (λ sheet. sheet ≡ sheet_on S.history machine.now) }
{
    match desk.selected(machine) {
        Some(product) => desk.sheet_of(&product, machine),
        None => Ok(None),
    }
}

fn is_on(sheet: &Option<SheetRows>, slot: &Id) -> bool
    ensures { result ≡ is_on sheet.now slot.now }
{
    match sheet {
        Some(rows) => row_of(rows, slot).is_some(),
        None => false,
    }
}

fn is_live_at<D: Desk>(desk: &D, machine: &Id, slot: &Id, reel: &Id) -> Result<bool, AllocError>
    ensures { (S : Basis) → D.Stands desk.now S → IfOk result (λ live. live
        ≡ is_live_at S.history machine.now slot.now reel.now) }
{
    match desk.slots_of(machine)? {
        Some(mounts) => Ok(has_mount(mounts.as_slice(), slot, reel)),
        None => Ok(false),
    }
}

fn has_mount(mounts: &[Mount], slot: &Id, reel: &Id) -> bool
    ensures { result ≡ has_mount mounts.now slot.now reel.now }
{
    mounts.iter().any(|m| m.slot == *slot && m.reel == *reel)
}

fn says_mounted(answer: &Answer) -> bool
    ensures { result ≡ says_mounted answer.now }
{
    match answer {
        Answer::Refused(Refusal::SlotTaken(_)) => true,
        Answer::Refused(Refusal::ReelMounted(_)) => true,
        _ => false,
    }
}

fn start_slot(answer: &Answer) -> Option<Id>
    ensures { result ≡ start_slot answer.now }
{
    match answer {
        Answer::Refused(Refusal::SlotEmpty(slot)) => Some(*slot),
        Answer::Refused(Refusal::WrongPart(slot)) => Some(*slot),
        Answer::Refused(Refusal::NotBaked(slot)) => Some(*slot),
        Answer::Refused(Refusal::Expired(slot)) => Some(*slot),
        _ => None,
    }
}

fn scrap_slot(answer: &Answer) -> Option<Id>
    ensures { result ≡ scrap_slot answer.now }
{
    match answer {
        Answer::Refused(Refusal::SlotEmpty(slot)) => Some(*slot),
        Answer::Refused(Refusal::ReelShort(slot)) => Some(*slot),
        _ => None,
    }
}

fn answer_word(answer: &Answer) -> Option<Id>
    ensures { result ≡ answer_word answer.now }
{
    match answer {
        Answer::Refused(refusal) => Id::read(refusal_word(refusal).as_bytes()),
        Answer::IdReused(_) => Id::read(b"IdReused"),
        Answer::DeskFull => Id::read(b"DeskFull"),
        Answer::Accepted(..) | Answer::Unavailable => None,
    }
}

/// Returns the name of the refusal.
pub fn refusal_word(refusal: &Refusal) -> &'static str
    ensures { result.now ≡ refusal_word refusal.now }
{
    match refusal {
        Refusal::TooFarAhead => "TooFarAhead",
        Refusal::PartExists(_) => "PartExists",
        Refusal::UnknownPart(_) => "UnknownPart",
        Refusal::ReelExists(_) => "ReelExists",
        Refusal::UnknownReel(_) => "UnknownReel",
        Refusal::UnknownSheet(_) => "UnknownSheet",
        Refusal::MachineBusy(_) => "MachineBusy",
        Refusal::SlotTwice(_) => "SlotTwice",
        Refusal::DesignatorTwice(_) => "DesignatorTwice",
        Refusal::NoProduct(_) => "NoProduct",
        Refusal::SlotNotOnSheet(_) => "SlotNotOnSheet",
        Refusal::SlotTaken(_) => "SlotTaken",
        Refusal::SlotEmpty(_) => "SlotEmpty",
        Refusal::ReelMounted(_) => "ReelMounted",
        Refusal::ReelEmpty(_) => "ReelEmpty",
        Refusal::WrongPart(_) => "WrongPart",
        Refusal::NotBaked(_) => "NotBaked",
        Refusal::Expired(_) => "Expired",
        Refusal::BoardBusy(_) => "BoardBusy",
        Refusal::OtherProduct(_) => "OtherProduct",
        Refusal::NotInWork(_) => "NotInWork",
        Refusal::DesignatorNotOnSheet(_) => "DesignatorNotOnSheet",
        Refusal::AlreadyPlaced(_) => "AlreadyPlaced",
        Refusal::ReelShort(_) => "ReelShort",
        Refusal::ReelTwice(_) => "ReelTwice",
        Refusal::CountAbove(_) => "CountAbove",
    }
}
