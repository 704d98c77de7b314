//! The results of the calls with ample memory, and of refused memory.

use super::desks::run_new;
use super::rows::{EACH_WORD, messages};
use desk_laws::desk_is_consistent;
use desk_types::Rules;
use look_back::PlainDesk;
use std::test::Fail;

/// A new desk has no entry. Each message is judged, and appended unless it is refused. Refused memory is reported.
#[test]
fn a_command_is_accepted_or_memory_was_refused(rt: HostRuntime) -> Result<(), Fail> {
    let new = PlainDesk::new(rt.alloc());
    assert!(rt; new.entries().is_empty());
    let messages = messages(rt.alloc(), EACH_WORD)?;
    let plain = run_new::<PlainDesk>(rt.alloc(), Rules::Two, messages.as_slice())?;
    desk_is_consistent(&plain.desk);
    Ok(())
}
