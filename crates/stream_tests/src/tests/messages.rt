//! The messages of two worked cases.

use std::alloc::Global;
use std::test::Fail;

/// Those of `first_run`: their names and bodies.
pub const FIRST_RUN: &[(&str, &str)] = &[
    ("PartDefined", r#"{"PartNumber":"P"}"#),
    (
        "SheetDefined",
        r#"{"Product":"PR","Machine":"M","Rows":[{"Slot":"1","PartNumber":"P","Designators":["R1","R2","R3","R4","R5"]}]}"#,
    ),
    ("ProductSelected", r#"{"Machine":"M","Product":"PR"}"#),
    (
        "ReelReceived",
        r#"{"Reel":"K1","PartNumber":"P","Lot":"L1","Level":"1","Quantity":100}"#,
    ),
    (
        "MaterialsLoaded",
        r#"{"Machine":"M","Slot":"1","Reel":"K1"}"#,
    ),
];

/// Those of `a_splice_in_mid_board`.
pub const SPLICE: &[(&str, &str)] = &[
    ("PartDefined", r#"{"PartNumber":"P"}"#),
    ("PartDefined", r#"{"PartNumber":"Q"}"#),
    (
        "SheetDefined",
        r#"{"Product":"PR","Machine":"M","Rows":[{"Slot":"1","PartNumber":"P","Designators":["R1","R2","R3","R4","R5"]}]}"#,
    ),
    ("ProductSelected", r#"{"Machine":"M","Product":"PR"}"#),
    (
        "ReelReceived",
        r#"{"Reel":"K1","PartNumber":"P","Lot":"L1","Level":"1","Quantity":2}"#,
    ),
    (
        "ReelReceived",
        r#"{"Reel":"K2","PartNumber":"P","Lot":"L1","Level":"1","Quantity":50}"#,
    ),
    (
        "MaterialsLoaded",
        r#"{"Machine":"M","Slot":"1","Reel":"K1"}"#,
    ),
    (
        "MaterialsSpliced",
        r#"{"Machine":"M","Slot":"1","Reel":"K2"}"#,
    ),
    ("WorkStarted", r#"{"Machine":"M","Board":"B1"}"#),
    (
        "MaterialsInstalled",
        r#"{"Machine":"M","Board":"B1","Designators":["R1","R2","R3","R4","R5"]}"#,
    ),
];

/// Returns a message's text, under the UniqueID of this number.
fn message_of(alloc: Global, number: usize, name: &str, body: &str) -> Result<String, Fail> {
    Ok(format!(in alloc;
        "{{\"MessageName\":\"TraceDesk.{name}\",\"UniqueID\":\"u{number}\",\"Source\":\"S\",\"TimeStamp\":\"1970-01-01T00:00:00Z\",\"MessageBody\":{body}}}"
    )?)
}

/// Returns the lines of these messages.
pub fn lines_of(alloc: Global, messages: &[(&str, &str)]) -> Result<Vec<u8>, Fail> {
    let mut text = Vec::new(alloc);
    for (n, (name, body)) in messages.iter().enumerate() {
        let message = message_of(alloc, n.saturating_add(1), name, body)?;
        text.extend_from_slice(message.as_bytes())?;
        text.push(b'\n')?;
    }
    Ok(text)
}

/// Returns the requests of a connection that posts these messages, each with a tab behind it.
pub fn requests_of(alloc: Global, messages: &[(&str, &str)]) -> Result<Vec<u8>, Fail> {
    let mut text = Vec::new(alloc);
    for (n, (name, body)) in messages.iter().enumerate() {
        let message = message_of(alloc, n.saturating_add(1), name, body)?;
        let length = message.len().saturating_add(1);
        let request = format!(in alloc;
            "POST /messages HTTP/1.1\r\nContent-Length: {length}\r\n\r\n{message}\t"
        )?;
        text.extend_from_slice(request.as_bytes())?;
    }
    Ok(text)
}
