//! Commands of worked cases, and a store's answers to them.

use desk_answers::{Answer, Owner};
use desk_types::{Command, Desk, Id, Minute, ReelView, Stamped};
use feeder_state::StateDesk;
use line_schema::{LineStore, OpenFault};
use sqlite::{Alter, Connection};
use std::alloc::{AllocError, Global};
use std::process::Abort;

/// The commands of the worked case `first_run`, one stored text a line, and one more part.
pub const FIRST_RUN: &str = "PartDefined\tP
SheetDefined\tPR\tM\t1\t1\tP\t5\tR1\tR2\tR3\tR4\tR5
ProductSelected\tM\tPR
ReelReceived\tK1\tP\tL1\t1\t100\t0
MaterialsLoaded\tM\t1\tK1
PartDefined\tP2";

/// Those of `a_splice_in_mid_board`.
pub const SPLICE: &str = "PartDefined\tP
PartDefined\tQ
SheetDefined\tPR\tM\t1\t1\tP\t5\tR1\tR2\tR3\tR4\tR5
ProductSelected\tM\tPR
ReelReceived\tK1\tP\tL1\t1\t2\t0
ReelReceived\tK2\tP\tL1\t1\t50\t0
MaterialsLoaded\tM\t1\tK1
MaterialsSpliced\tM\t1\tK2
WorkStarted\tM\tB1
MaterialsInstalled\tM\tB1\t5\tR1\tR2\tR3\tR4\tR5";

/// Those of `a_reel_moved_to_another_slot`.
pub const MOVED: &str = "PartDefined\tP
SheetDefined\tPR\tM\t2\t1\tP\t1\tR1\t2\tP\t1\tC1
ProductSelected\tM\tPR
ReelReceived\tK1\tP\tL1\t1\t10\t0
ReelReceived\tK2\tP\tL1\t1\t20\t0
ReelReceived\tK3\tP\tL1\t1\t5\t0
MaterialsLoaded\tM\t1\tK1
MaterialsSpliced\tM\t1\tK2
MaterialsLoaded\tM\t2\tK3
WorkStarted\tM\tB1
MaterialsInstalled\tM\tB1\t1\tR1
WorkCompleted\tM\tB1
MaterialsUnloaded\tM\t1
MaterialsUnloaded\tM\t2
MaterialsLoaded\tM\t2\tK2";

/// Two boards, the second first in byte order, each with a piece of a reel.
pub const BOARDS: &str = "PartDefined\tP
SheetDefined\tPR\tM\t1\t1\tP\t2\tR1\tR2
ProductSelected\tM\tPR
ReelReceived\tK1\tP\tL1\t1\t100\t0
MaterialsLoaded\tM\t1\tK1
WorkStarted\tM\tB9
MaterialsInstalled\tM\tB9\t2\tR1\tR2
WorkCompleted\tM\tB9
WorkStarted\tM\tB10
MaterialsInstalled\tM\tB10\t1\tR1
WorkCompleted\tM\tB10";

/// A desk's product of the machine M, and its reel K1.
pub type View = (Option<Id>, Option<ReelView>);

/// An owner that shows its number of commands, and its desk if it is loaded. If it isn't, the next judged command loads
/// it first.
pub trait Shown: Owner {
    fn shown(&self) -> (u32, Option<View>);

    /// Loads the desk if it isn't loaded.
    fn make_desk(&mut self)
        requires { Self.Owner.Ready self.old }
        ensures { Self.Owner.Ready self.new };
}

impl<S: Alter> Shown for LineStore<S, StateDesk> {
    fn shown(&self) -> (u32, Option<View>) {
        (self.count(), self.desk().and_then(view))
    }

    fn make_desk(&mut self) {
        let _ = self.ready();
    }
}

fn view(desk: &StateDesk) -> Option<View> {
    let product = desk.selected(&Id::read(b"M")?);
    Some((product, desk.reel(&Id::read(b"K1")?)))
}

/// Returns the same by a borrow of the desk, which is rebuilt first if it isn't loaded.
pub fn viewed<S: Alter>(store: &mut LineStore<S, StateDesk>) -> Option<View>
    requires { ⟦<LineStore<S, StateDesk> as Owner>⟧.Ready store.old }
{
    match store.view() {
        Ok(desk) => view(desk),
        Err(_) => None,
    }
}

/// The UniqueID is that of a message that begins a desk after a roll-over.
fn message_of_text(alloc: Global, number: u32, text: &str) -> Option<Stamped> {
    let uid = format!(in alloc; "begin-0-{number}").ok()?;
    Some(Stamped {
        uid: Id::read(uid.as_bytes())?,
        source: Id::read(b"S")?,
        minute: Minute::new(0)?,
        command: Command::read_text(alloc, text.as_bytes()).ok()??,
    })
}

/// The answers to some commands: their texts, one a line, and their number; how many were Unavailable, and how many
/// found no loaded desk and left one.
#[derive(Drop)]
pub struct Told {
    pub text: Vec<u8>,
    pub count: u32,
    pub unavailable: u32,
    pub made_again: u32,
}

impl Told {
    pub fn new(alloc: Global) -> Told {
        Told {
            text: Vec::new(alloc),
            count: 0,
            unavailable: 0,
            made_again: 0,
        }
    }
}

/// Sends a command. If it is Unavailable, the history is unchanged, and the desk is unchanged or not loaded.
fn send_one<L: Shown>(rt: &impl Abort, line: &mut L, message: &Stamped) -> Answer
    requires { L.Owner.Ready line.old }
    ensures { L.Owner.Ready line.new }
{
    let (count, desk) = line.shown();
    let answer = line.command(message);
    if matches!(answer, Answer::Unavailable) {
        line.make_desk();
        let (after, left) = line.shown();
        assert_eq!(rt; after, count);
        assert!(rt; desk.is_none() || left.is_none() || left == desk);
    }
    answer
}

/// Sends the commands to a store that has the first of them and no other, and sends a command again if it is
/// Unavailable. Each acts once. Two Unavailable answers end it.
pub fn send<L: Shown>(
    rt: &impl Abort,
    alloc: Global,
    line: &mut L,
    row: &str,
) -> Result<Told, AllocError>
    requires { L.Owner.Ready line.old }
    ensures { L.Owner.Ready line.new }
{
    let mut told = Told::new(alloc);
    for text in row.split('\n') {
        let message = message_of_text(alloc, told.count.saturating_add(1), text).ok_or(AllocError)?;
        let (count, desk) = line.shown();
        let mut answer = send_one(rt, line, &message);
        if matches!(answer, Answer::Unavailable) {
            told.unavailable = told.unavailable.saturating_add(1);
            answer = send_one(rt, line, &message);
        }
        let Answer::Accepted(number, text) = answer else {
            assert!(rt;
                matches!(answer, Answer::Unavailable),
                "after {count} commands"
            );
            return Ok(told);
        };
        told.text.extend_from_slice(text.as_slice())?;
        told.text.push(b'\n')?;
        told.count = told.count.saturating_add(1);
        let (after, left) = line.shown();
        assert_eq!(rt;
            (number, after),
            (u64::from(told.count), told.count.max(count))
        );
        if desk.is_none() && left.is_some() {
            told.made_again = told.made_again.saturating_add(1);
        }
    }
    Ok(told)
}

/// The result of sending commands over a connection: the number of commands before, if it could be opened, the answers,
/// and the connection.
pub struct Sent<S: Alter> {
    pub began: Option<u32>,
    pub told: Result<Told, AllocError>,
    pub conn: Connection<S>,
}

/// Sends commands to the desk behind a connection, which is created if missing.
pub fn send_over<S: Alter>(
    rt: &impl Abort,
    alloc: Global,
    conn: Connection<S>,
    row: &str,
) -> Sent<S> {
    match LineStore::<S, StateDesk>::create(alloc, conn, 1_000) {
        Ok(mut store) => {
            let told = send(rt, alloc, &mut store, row);
            let conn = store.into_connection();
            let began = Some(0);
            Sent { began, told, conn }
        }
        Err((OpenFault::NotBlank, conn)) => send_on(rt, alloc, conn, row),
        Err((fault, conn)) => send_none(rt, alloc, fault, conn),
    }
}

fn send_on<S: Alter>(rt: &impl Abort, alloc: Global, conn: Connection<S>, row: &str) -> Sent<S> {
    match LineStore::<S, StateDesk>::open(alloc, conn) {
        Ok(mut store) => {
            let began = Some(store.count());
            let told = send(rt, alloc, &mut store, row);
            let conn = store.into_connection();
            Sent { began, told, conn }
        }
        Err((fault, conn)) => send_none(rt, alloc, fault, conn),
    }
}

/// Sends nothing, which has only one possible cause.
fn send_none<S: Alter>(
    rt: &impl Abort,
    alloc: Global,
    fault: OpenFault,
    conn: Connection<S>,
) -> Sent<S> {
    assert!(rt; fault == OpenFault::Unavailable);
    Sent {
        began: None,
        told: Ok(Told::new(alloc)),
        conn,
    }
}
