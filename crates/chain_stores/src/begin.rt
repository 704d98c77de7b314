//! How many commands a desk was begun with, by their UniqueIDs.
//!
//! A roll-over begins a new desk with the messages `begin-<checksum>-1`, `begin-<checksum>-2` and so on, each with the
//! number of its command; UniqueIDs that the old desk knew may stand between them. No board is started before the last
//! of them. So the number of commands is that of the last such message before any work (`IsBegunWith`).

ghost use Rattle.std.specs.Prelude.{◌≡◌, ◌≢◌, ◌≤◌, ◌++◌, ℕ, List, Some, IfOk, MatchOption, codes, length, string_bytes};
ghost use Rattle.std.specs.Option.{option_map};
ghost use Rattle.sqlite.specs.State.{HasCleanDisk};
ghost use Rattle.sqlite.specs.Held.{state};
ghost use Rattle.desk_types.specs.declared.limits.TheConstants.{MOST_ENTRIES};
ghost use Rattle.desk_types.specs.declared.command.Entry.{Entry};
ghost use Rattle.desk_types.specs.declared.command.Stamped.{Stamped};
ghost use Rattle.desk_types.specs.declared.rules.Rules.{Rules};
ghost use Rattle.desk_types.specs.History.{History};
ghost use Rattle.line_tables.specs.Frames.{ReadsOnly};
ghost use Rattle.chain_stores.specs.Begin.{IsBegunWith, IsMarkIn, IsMarkOf, IsPlaceOf, ReadsMessage, first_entry, starts_work};
ghost use Rattle.chain_stores.specs.First.{HoldsHistory};

use desk_types::{Command, Stamped};
use line_replay::stamped_of;
use line_schema::Unavailable;
use line_tables::row_at;
use sqlite::{Alter, Connection};
use std::alloc::Global;

/// How a desk was begun.
#[derive(Drop)]
pub struct Begin {
    /// The number of commands.
    pub commands: u32,
    /// The checksum that the first UniqueID names, if a roll-over began the desk.
    pub mark: Option<String>,
}

/// A command, as seen from the begin of its desk.
enum Place {
    /// One of the numbered messages of the begin.
    Begin,
    /// Another message.
    Other,
    /// The start of work, which no begin has.
    Work,
}

/// Returns how the desk with this many commands was begun.
pub fn begin_of<S: Alter>(
    alloc: Global,
    conn: &mut Connection<S>,
    count: u32,
) -> Result<Begin, Unavailable>
    // `look` gives it: it refuses a store with more commands before this call.
    requires bound { count ≤ MOST_ENTRIES }
    // Holds on a disk that lies too, since `first_desk` requires it of this number.
    ensures bound { IfOk result (λ begin. begin.commands ≤ MOST_ENTRIES) }
    ensures begin { (rules : Rules) (greatest : ℕ) (G : History)
        → HoldsHistory rules (state S.Store conn.old) greatest G → count ≡ length G
        → HasCleanDisk (state S.Store conn.new)
        → IfOk result (λ begin. IsMarkOf G (option_map string_bytes begin.mark)
        × IsBegunWith G begin.commands) }
    ensures reads { ReadsOnly S.Store conn.old conn.new }
{
    if count == 0 {
        return Ok(Begin {
            commands: 0,
            mark: None,
        });
    }
    let first = message_at(alloc, conn, 1)?;
    let uid = first.uid.as_str();
    let mark = mark_in(alloc, uid)?;
    let commands = begun_with(alloc, conn, uid, count)?;
    Ok(Begin { commands, mark })
}

/// Returns the message of this number.
fn message_at<S: Alter>(
    alloc: Global,
    conn: &mut Connection<S>,
    number: u32,
) -> Result<Stamped, Unavailable>
    ensures message { IfOk result
        (ReadsMessage (HasCleanDisk (state S.Store conn.new)) (state S.Store conn.old) number) }
    ensures reads { ReadsOnly S.Store conn.old conn.new }
{
    let Ok(Some(row)) = row_at(conn, number) else {
        return Err(Unavailable);
    };
    match stamped_of(alloc, &row) {
        Ok(Some(stamped)) => {
            stamped.ranges_hold();
            Ok(stamped)
        }
        _ => Err(Unavailable),
    }
}

/// Returns the checksum in the UniqueID of the first message of a begin.
fn mark_in(alloc: Global, uid: &str) -> Result<Option<String>, Unavailable>
    ensures { IfOk result (λ mark. IsMarkIn uid.now (option_map string_bytes mark)) }
{
    let Some(rest) = uid.strip_prefix("begin-") else {
        return Ok(None);
    };
    let Some(mark) = rest.strip_suffix("-1") else {
        return Ok(None);
    };
    match String::from_str(alloc, mark) {
        Ok(mark) => Ok(Some(mark)),
        Err(_) => Err(Unavailable),
    }
}

/// Returns what the first UniqueID of a begin has before its number.
fn stem_of(first: &str) -> Option<&str>
    ensures { MatchOption result ((stem : List ℕ) → first.now ≢ stem ++ codes "1")
        (λ stem. first.now ≡ stem.now ++ codes "1") }
{
    first.strip_suffix("1")
}

/// Returns the greatest number of a command whose UniqueID is the first one's with that number, before any work.
fn begun_with<S: Alter>(
    alloc: Global,
    conn: &mut Connection<S>,
    first: &str,
    count: u32,
) -> Result<u32, Unavailable>
    requires bound { count ≤ MOST_ENTRIES }
    ensures bound { IfOk result (λ begun. begun ≤ MOST_ENTRIES) }
    // `first` is the UniqueID of the first command, which `begin_of` has just read.
    ensures begun { (rules : Rules) (greatest : ℕ) (G : History) (e : Entry)
        → HoldsHistory rules (state S.Store conn.old) greatest G → count ≡ length G
        → HasCleanDisk (state S.Store conn.new)
        → first_entry G ≡ Some e → e.stamped.uid ≡ first.now → IfOk result (IsBegunWith G) }
    ensures reads { ReadsOnly S.Store conn.old conn.new }
{
    let Some(stem) = stem_of(first) else {
        return Ok(0);
    };
    let mut begun = 0;
    for at in 0..count {
        match place_of(alloc, conn, stem, at + 1)? {
            Place::Begin => begun = at + 1,
            Place::Other => {}
            Place::Work => return Ok(begun),
        }
    }
    Ok(begun)
}

fn place_of<S: Alter>(
    alloc: Global,
    conn: &mut Connection<S>,
    stem: &str,
    number: u32,
) -> Result<Place, Unavailable>
    ensures place { IfOk result (λ place. (message : Stamped)
        × ReadsMessage (HasCleanDisk (state S.Store conn.new)) (state S.Store conn.old) number
        message
        × IsPlaceOf stem.now number message place) }
    ensures reads { ReadsOnly S.Store conn.old conn.new }
{
    let message = message_at(alloc, conn, number)?;
    if starts_work(&message.command) {
        return Ok(Place::Work);
    }
    let Ok(own) = format!(in alloc; "{stem}{number}") else {
        return Err(Unavailable);
    };
    if message.uid.as_str() == own.as_str() {
        Ok(Place::Begin)
    } else {
        Ok(Place::Other)
    }
}

fn starts_work(command: &Command) -> bool
    ensures { result ≡ starts_work command.now }
{
    match command {
        Command::WorkStarted { .. } => true,
        _ => false,
    }
}
