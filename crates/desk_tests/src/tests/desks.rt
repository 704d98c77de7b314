//! Three desks: one that searches its history, one that keeps the current state, and one that is rebuilt from the rows
//! after each message.

ghost use Rattle.std.specs.Prelude.{IfOk};
ghost use Rattle.desk_types.specs.Desk.{HasRoom};
ghost use Rattle.feeder_state.specs.State.{Represents};
ghost use Rattle.desk_tests.specs.Beside.{AreOfOneList};

use super::cases::CASES;
use super::id;
use super::rows::{COUNTS, EACH_WORD, MOVED, TWO_BOARDS, message, messages};
use super::sending::replies_of;
use desk_types::{Desk, Id, JudgeFault, Replies, Rules, Stamped};
use feeder_state::StateDesk;
use look_back::PlainDesk;
use state_rows::{RowSet, rows_of};
use std::alloc::{AllocError, Global};
use std::process::Abort;
use std::test::Fail;

/// A desk after some messages, and its replies.
#[derive(Drop)]
pub struct Ran<D: Desk> {
    pub desk: D,
    pub told: Replies,
}

/// Sends messages to a new desk.
pub fn run_new<D: Desk + Drop>(
    alloc: Global,
    rules: Rules,
    messages: &[Stamped],
) -> Result<Ran<D>, Fail> {
    let mut desk = D::fresh(alloc, rules);
    let told = replies_of(alloc, &mut desk, messages)?;
    Ok(Ran { desk, told })
}

// Each call has a function of its own with no clause. Otherwise the callers' proofs would carry all the clauses of the
// calls.

fn same_minute<D: Desk, E: Desk>(one: &D, other: &E) -> bool {
    one.minute() == other.minute()
}

fn same_selected<D: Desk, E: Desk>(one: &D, other: &E, name: &Id) -> bool {
    one.selected(name) == other.selected(name)
}

fn same_reel<D: Desk, E: Desk>(one: &D, other: &E, name: &Id) -> bool {
    one.reel(name) == other.reel(name)
}

fn same_fronts<D: Desk, E: Desk>(one: &D, other: &E, name: &Id) -> Result<bool, AllocError> {
    let (one, other) = (one.fronts(name)?, other.fronts(name)?);
    Ok(one == other)
}

fn same_slots<D: Desk, E: Desk>(one: &D, other: &E, name: &Id) -> Result<bool, AllocError> {
    let (one, other) = (one.slots_of(name)?, other.slots_of(name)?);
    Ok(one == other)
}

fn same_sheet<D: Desk, E: Desk>(
    one: &D,
    other: &E,
    product: &Id,
    name: &Id,
) -> Result<bool, AllocError> {
    let (one, other) = (one.sheet_of(product, name)?, other.sheet_of(product, name)?);
    Ok(one == other)
}

fn same_free<D: Desk, E: Desk>(one: &D, other: &E, name: &Id) -> Result<bool, AllocError> {
    let (one, other) = (one.free_reels(name)?, other.free_reels(name)?);
    Ok(one == other)
}

/// The product and the other names of the messages here.
const PRODUCTS: &str = "PR";

const NAMES: &str = "M\tN\tP\tQ\tPR\tK1\tK2\tK3\tK4\tB1\tX";

/// Both desks give the same views of the names, and the same sheets of the products.
fn same_views<D: Desk, E: Desk>(
    rt: &impl Abort,
    one: &D,
    other: &E,
    products: &str,
    names: &str,
) -> Result<(), Fail> {
    assert!(rt; same_minute(one, other));
    for text in names.split('\t') {
        let name = id(text)?;
        assert!(rt; same_selected(one, other, &name));
        assert!(rt; same_reel(one, other, &name));
        assert!(rt; same_fronts(one, other, &name)?);
        assert!(rt; same_slots(one, other, &name)?);
        for product in products.split('\t') {
            assert!(rt; same_sheet(one, other, &id(product)?, &name)?);
        }
        assert!(rt; same_free(one, other, &name)?);
    }
    Ok(())
}

/// Both desks give the same replies to the messages under these rules, and the same views afterwards.
fn same_under(
    rt: &impl Abort,
    alloc: Global,
    rules: Rules,
    messages: &[Stamped],
    products: &str,
    names: &str,
) -> Result<(), Fail> {
    let plain = run_new::<PlainDesk>(alloc, rules, messages)?;
    let state = run_new::<StateDesk>(alloc, rules, messages)?;
    assert!(rt; plain.told == state.told);
    same_views(rt, &plain.desk, &state.desk, products, names)
}

/// Both desks do the same at each message of a case.
fn same_at_each(rt: &impl Abort, alloc: Global, case: &str) -> Result<(), Fail> {
    let (products, rest) = case.split_once('\n').ok_or("no products")?;
    let (names, lines) = rest.split_once('\n').ok_or("no names")?;
    let messages = messages(alloc, lines)?;
    for count in 1..=messages.len() {
        same_under(rt, alloc, Rules::One, &messages[..count], products, names)?;
        same_under(rt, alloc, Rules::Two, &messages[..count], products, names)?;
    }
    Ok(())
}

#[test]
fn both_desks_tell_the_same(rt: HostRuntime) -> Result<(), Fail> {
    for case in CASES.split("\n\n") {
        same_at_each(&rt, rt.alloc(), case)?;
    }
    Ok(())
}

/// Sends a message to a desk of rules Two and, if it is accepted, applies its edits to the rows. Returns the number of
/// the next entry.
fn send<D: Desk>(
    alloc: Global,
    desk: &mut D,
    rows: &mut RowSet,
    number: u64,
    message: &Stamped,
) -> Result<u64, Fail>
    requires one_list { AreOfOneList D.Stands desk.old rows.old number }
    ensures one_list { IfOk result (AreOfOneList D.Stands desk.new rows.new) }
{
    if number > 10_100 {
        return Err("too many entries")?;
    }
    match desk.judge(message) {
        Ok(change) => {
            let edits = rows_of(alloc, &*desk, &change, number)?;
            rows.apply(edits.as_slice())?;
            desk.settle(change)?;
            Ok(number + 1)
        }
        Err(JudgeFault::Refused(_)) => Ok(number),
        Err(JudgeFault::NoMemory) => Err(AllocError)?,
    }
}

/// A desk after some messages, the rows of its history, and the number of its next entry.
struct Listed {
    desk: StateDesk,
    rows: RowSet,
    number: u64,
}

fn list_of(alloc: Global, messages: &[Stamped]) -> Result<Listed, Fail>
    ensures one_list { IfOk result
        (λ it. AreOfOneList Represents it.desk it.rows it.number) }
{
    let (mut desk, mut rows, mut number) = (StateDesk::new(alloc), RowSet::new(alloc), 1);
    for message in messages {
        number = send(alloc, &mut desk, &mut rows, number, message)?;
    }
    Ok(Listed { desk, rows, number })
}

/// A desk after some messages, and the desk rebuilt from its rows.
struct Again {
    desk: StateDesk,
    restored: StateDesk,
}

fn made_again(alloc: Global, messages: &[Stamped]) -> Result<Again, Fail>
    ensures { IfOk result (λ both. HasRoom Represents both.restored 1000) }
{
    let Listed {
        desk,
        rows,
        number: _,
    } = list_of(alloc, messages)?;
    let restored = StateDesk::restore(alloc, &rows, desk.minute())?;
    Ok(Again { desk, restored })
}

/// The rebuilt desk gives the same views as the original, and the same replies to the remaining messages, and the same
/// views after them.
fn goes_on(
    rt: &impl Abort,
    alloc: Global,
    plain: &Ran<PlainDesk>,
    desk: &StateDesk,
    restored: &mut StateDesk,
    left: &[Stamped],
) -> Result<(), Fail>
    requires { HasRoom Represents restored.old 1000 }
{
    same_views(rt, desk, &*restored, PRODUCTS, NAMES)?;
    let told = replies_of(alloc, restored, left)?;
    assert!(rt;
        plain.told.as_slice().ends_with(told.as_slice()),
        "with {} left",
        left.len()
    );
    same_views(rt, &plain.desk, &*restored, PRODUCTS, NAMES)
}

fn each_goes_on(
    rt: &impl Abort,
    alloc: Global,
    plain: &Ran<PlainDesk>,
    messages: &[Stamped],
) -> Result<(), Fail> {
    for i in 1..=messages.len() {
        let Again { desk, mut restored } = made_again(alloc, &messages[..i])?;
        goes_on(rt, alloc, plain, &desk, &mut restored, &messages[i..])?;
    }
    Ok(())
}

#[test]
fn a_desk_made_of_the_rows_goes_on(rt: HostRuntime) -> Result<(), Fail> {
    for row in [EACH_WORD, COUNTS, TWO_BOARDS, MOVED] {
        let messages = messages(rt.alloc(), row)?;
        let plain = run_new::<PlainDesk>(rt.alloc(), Rules::Two, messages.as_slice())?;
        each_goes_on(&rt, rt.alloc(), &plain, messages.as_slice())?;
    }
    Ok(())
}

fn reels(alloc: Global, count: u32) -> Result<Vec<Stamped>, Fail> {
    let mut messages = messages(alloc, "1\tPartDefined\tP")?;
    for i in 0..count {
        let line = format!(in alloc; "1\tReelReceived\tK{i}\tP\tL1\t1\t9\t0")?;
        messages.push(message(alloc, 1, line.as_str())?)?;
    }
    Ok(messages)
}

/// Returns how many reels the desk rebuilt from the rows would load after some messages.
fn free_again(alloc: Global, messages: &[Stamped]) -> Result<usize, Fail> {
    let Again {
        desk: _desk,
        restored,
    } = made_again(alloc, messages)?;
    Ok(restored.free_reels(&id("P")?)?.as_slice().len())
}

/// A desk of 10,000 reels, all free to be loaded, can be rebuilt from its rows.
#[test]
fn ten_thousand_reels_are_restored(rt: HostRuntime) -> Result<(), Fail> {
    let messages = reels(rt.alloc(), 10_000)?;
    assert_eq!(rt; free_again(rt.alloc(), messages.as_slice())?, 10_000);
    Ok(())
}
