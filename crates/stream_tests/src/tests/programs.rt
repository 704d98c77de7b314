//! `program` on the first worked cases, over readers and writers in memory.

use super::messages::{FIRST_RUN, lines_of};
use desk_file::FileOpener;
use desk_program::program;
use desk_types::Wire;
use sqlite::Unknown;
use std::test::Fail;

const FIVE_ANSWERS: &str = r#"{"Answer":"Accepted","Number":1,"UniqueID":"u1"}
{"Answer":"Accepted","Number":2,"UniqueID":"u2"}
{"Answer":"Accepted","Number":3,"UniqueID":"u3"}
{"Answer":"Accepted","Number":4,"UniqueID":"u4"}
{"Answer":"Accepted","MinutesLeft":null,"Number":5,"UniqueID":"u5"}
"#;

const THREE_ANSWERS: &str = r#"{"Answer":"Accepted","Number":1,"UniqueID":"u1"}
{"Answer":"Accepted","Number":2,"UniqueID":"u2"}
{"Answer":"Accepted","Number":3,"UniqueID":"u3"}
{"Answer":"Refused","Refusal":"DeskFull","UniqueID":"u4"}
{"Answer":"Refused","Refusal":"DeskFull","UniqueID":"u5"}
"#;

/// A message of another name, and a text that is no message.
const OTHERS: &str = r#"{"MessageName":"CFX.Heartbeat","MessageBody":{"x":1.5}}
[]
"#;

const OTHER_ANSWERS: &str = r#"{"Answer":"Ignored","MessageName":"CFX.Heartbeat"}
{"Answer":"Faulty","Fault":"NotObject"}
"#;

/// Runs with a word left out, or with a file that isn't there.
const NO_WORD: &str = "error: unexpected argument 'more' found

Usage: tracedesk feed [OPTIONS]

For more information, try '--help'.
";

const NO_DESK: &str = "tracedesk: NotADesk
";

/// Runs the program with these words. Returns its exit status, and what it wrote and told.
fn run(rt: &HostRuntime, line: &str, input: &[u8]) -> Result<(u8, Vec<u8>, Vec<u8>), Fail> {
    let mut words = Vec::new(rt.alloc());
    for word in line.split(' ') {
        words.push(format!(in rt.alloc(); "{word}")?)?;
    }
    let mut output = Wire::new(Vec::new(rt.alloc()));
    let mut errors = Wire::new(Vec::new(rt.alloc()));
    let (status, _files) = program(
        rt,
        words.as_slice(),
        &mut FileOpener::new(Unknown),
        &mut Wire::new(input),
        &mut output,
        &mut errors,
    );
    Ok((status, output.into_inner(), errors.into_inner()))
}

#[test]
fn the_first_cases(rt: HostRuntime) -> Result<(), Fail> {
    let first = lines_of(rt.alloc(), FIRST_RUN)?;
    let messages = first.as_slice();
    for (line, input, wanted, output, errors) in [
        ("feed", messages, 0, FIVE_ANSWERS, ""),
        ("feed", b"".as_slice(), 0, "", ""),
        ("feed", OTHERS.as_bytes(), 1, OTHER_ANSWERS, ""),
        ("feed --greatest 3", messages, 1, THREE_ANSWERS, ""),
        ("feed more", messages, 2, "", NO_WORD),
        ("audit --db there/is/none", messages, 3, "", NO_DESK),
    ] {
        let (status, told, said) = run(&rt, line, input)?;
        assert_eq!(rt; status, wanted, "{line}");
        assert!(rt; told.as_slice() == output.as_bytes(), "{line}");
        assert!(rt; said.as_slice() == errors.as_bytes(), "{line}");
    }
    Ok(())
}
