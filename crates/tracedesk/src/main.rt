//! The program of the trace desk, which is `program` of `desk_program`.
#![tactic(auto)]

use desk_file::FileOpener;
use desk_program::{program, wordless, words};
use desk_types::Wire;
use sqlite::Unknown;
use std::process::ExitCode;

fn main(rt: HostRuntime) -> ExitCode {
    let mut errors = Wire::new(rt.stderr());
    ExitCode::from(match words(&rt) {
        Ok(words) => {
            let (status, _files) = program(
                &rt,
                words.as_slice(),
                &mut FileOpener::new(Unknown),
                &mut Wire::new(rt.stdin()),
                &mut Wire::new(rt.stdout()),
                &mut errors,
            );
            status
        }
        Err(error) => wordless(&error, &mut errors),
    })
}
