//! Each call of `headline` once, on an owner that represents no history.

use super::Full;
use super::messages::lines_of;
use desk_answers::Answer;
use desk_feed::counts_import;
use desk_types::{Command, Id, Minute, Stamped, Wire};
use gateway_http::Report;
use headline::{ask, command, feed, headline, import, report, serve};
use std::test::Fail;

/// A feed of one message, and its command.
#[test]
fn commands(rt: HostRuntime) -> Result<(), Fail> {
    let mut owner = Full;
    let mut output = Wire::new(Vec::new(rt.alloc()));
    let part = lines_of(rt.alloc(), &[("PartDefined", r#"{"PartNumber":"P"}"#)])?;
    let served = feed(
        rt.alloc(),
        &mut Wire::new(part.as_slice()),
        &mut output,
        &mut owner,
    );
    let served = served.ok().ok_or("a fault")?;
    assert_eq!(rt; (served.answered, served.refused), (1, 1));
    let told = "{\"Answer\":\"Refused\",\"Refusal\":\"DeskFull\",\"UniqueID\":\"u1\"}\n";
    assert_eq!(rt; output.into_inner().as_slice(), told.as_bytes());
    let name = Id::read(b"u1").ok_or("no name")?;
    let stamped = Stamped {
        uid: name,
        source: name,
        minute: Minute::new(0).ok_or("no minute")?,
        command: Command::PartDefined { part: name },
    };
    assert!(rt; matches!(command(&mut owner, &stamped), Answer::DeskFull));
    headline(&Full, &owner);
    Ok(())
}

/// An import of a faulty file, and a report that isn't found.
#[test]
fn files(rt: HostRuntime) -> Result<(), Fail> {
    let mut owner = Full;
    let mut output = Wire::new(Vec::new(rt.alloc()));
    let counts = match counts_import("u1", "S", "1970-01-01T00:00:00Z") {
        Ok(counts) => Some(counts),
        Err(_) => None,
    };
    let counts = counts.ok_or("no import")?;
    let refused = import(rt.alloc(), &mut output, &mut owner, &counts, b"nothing");
    assert!(rt; matches!(refused, Ok(true)));
    assert!(rt;
        matches!(
            report(rt.alloc(), &mut owner, Report::OverdueList),
            Ok(None)
        )
    );
    Ok(())
}

/// A connection with one request, and the same request without a connection.
#[test]
fn reports(rt: HostRuntime) -> Result<(), Fail> {
    let mut owner = Full;
    let mut output = Wire::new(Vec::new(rt.alloc()));
    let request = "GET /reel?reel=K1 HTTP/1.1\r\n\r\n";
    let served = serve(
        rt.alloc(),
        &mut Wire::new(request.as_bytes()),
        &mut output,
        &mut owner,
    );
    let told = ask(rt.alloc(), b"/reel?reel=K1", &mut owner);
    let served = served.ok().ok_or("a fault")?;
    assert_eq!(rt; (served.answered, served.refused), (1, 1));
    assert_eq!(rt; told.status.code(), 404);
    assert!(rt;
        output
            .into_inner()
            .as_slice()
            .ends_with(told.body.as_slice())
    );
    Ok(())
}
