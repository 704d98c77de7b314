//! Messages of stored texts, and a desk's replies to them.

ghost use Rattle.std.specs.Prelude.{IfOk};
ghost use Rattle.desk_types.specs.Desk.{HasRoom};

use super::id;
use desk_types::{Command, Desk, Minute, Replies, Stamped, run};
use std::alloc::Global;
use std::test::Fail;

pub fn command(alloc: Global, text: &str) -> Result<Command, Fail> {
    Ok(Command::read_text(alloc, text.as_bytes())?.ok_or("no command")?)
}

pub fn stamped(minute: u64, command: Command) -> Result<Stamped, Fail> {
    Ok(Stamped {
        uid: id("u")?,
        source: id("S")?,
        minute: Minute::new(minute).ok_or("no minute")?,
        command,
    })
}

/// Returns the messages of the lines, all of minute 10.
pub fn messages(alloc: Global, lines: &str) -> Result<Vec<Stamped>, Fail> {
    let mut messages = Vec::new(alloc);
    for line in lines.split('\n') {
        messages.push(stamped(10, command(alloc, line)?)?)?;
    }
    Ok(messages)
}

/// Sends messages.
pub fn replies_of<D: Desk>(
    alloc: Global,
    desk: &mut D,
    messages: &[Stamped],
) -> Result<Replies, Fail>
    requires { HasRoom D.Stands desk.old 1000 }
    ensures { IfOk result (λ replies. HasRoom D.Stands desk.new 0) }
{
    if messages.len() > 1_000 {
        return Err("too many messages")?;
    }
    let replies = run(alloc, desk, messages)?;
    Ok(replies)
}
