//! The program that serves a line by both lists of its file. Of a file that nobody serves it makes, prints and checks both
//! lists, writes what somebody says into the book, and says whether a machine may work.
#![tactic(auto)]

mod run;

use crate::run::run;
use desk_program::{SystemClients, wordless, words};
use desk_types::Wire;
use sqlite::Unknown;
use std::process::ExitCode;

fn main(rt: HostRuntime) -> ExitCode {
    let mut errors = Wire::new(rt.stderr());
    ExitCode::from(match words(&rt) {
        Ok(words) => {
            let mut output = Wire::new(rt.stdout());
            let (status, _files) = run(
                &rt,
                words.as_slice(),
                Unknown,
                &mut SystemClients::new(&rt),
                &mut output,
                &mut errors,
            );
            status
        }
        Err(error) => wordless(&error, &mut errors),
    })
}
