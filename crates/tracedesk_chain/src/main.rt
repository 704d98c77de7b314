//! The program that says whether desk files are the chain of one line, and recalls a lot, a board or a reel over them.
#![tactic(auto)]

use chain_files::{SystemFiles, program};
use desk_commands::{tell_line, unavailable};
use desk_types::Wire;
use desk_words::words_behind_name;
use std::process::ExitCode;

fn main(rt: HostRuntime) -> ExitCode {
    let mut errors = Wire::new(rt.stderr());
    let Ok(given) = std::env::args(&rt) else {
        tell_line(
            &mut errors,
            "tracedesk-chain: a word of the command line is not UTF-8",
        );
        return ExitCode::from(2u8);
    };
    let Ok(words) = words_behind_name(rt.alloc(), given) else {
        return ExitCode::from(unavailable(&mut errors));
    };
    let mut output = Wire::new(rt.stdout());
    let (status, _files) = program(
        &rt,
        &mut SystemFiles::new(&rt),
        words.as_slice(),
        &mut output,
        &mut errors,
    );
    ExitCode::from(status)
}
