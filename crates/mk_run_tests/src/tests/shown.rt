//! Runs that show what a message is, over devices in memory. The expected bytes are worked out by hand.

use super::devices::{Page, Text};
use super::{SIZES, check_left};
use mk_mail::{Sink, Source};
use mk_rows::{Row, rows};
use mk_run::{Status, run_extract, run_sections};
use mk_script::numbers;
use std::alloc::Global;
use std::process::Abort;
use std::test::Fail;

const MIXED: &[u8] =
    b"Subject: t\nContent-Type: multipart/mixed; boundary=\"b\"\n\npre\n--b\n\none\n--b \t\nContent-Type: text/html\n\ntwo\n--b--\nepi\n";

const LISTING: &[u8] =
    b"1 multi multipart/mixed identity 0 56 114 2 10\n1.1 leaf text/plain identity 64 65 69 0 1\n1.2 leaf text/html identity 75 100 104 1 1\n";

const CONTENTS: &str = r#"
== the first part
message: Subject: t\nContent-Type: multipart/mixed; boundary="b"\n\npre\n--b\n\none\n--b \t\nContent-Type: text/html\n\ntwo\n--b--\nepi\n
path: 1.1
output: one
status: Well

== the second part
message: Subject: t\nContent-Type: multipart/mixed; boundary="b"\n\npre\n--b\n\none\n--b \t\nContent-Type: text/html\n\ntwo\n--b--\nepi\n
path: 1.2
output: two
status: Well

== there is no third part
message: Subject: t\nContent-Type: multipart/mixed; boundary="b"\n\npre\n--b\n\none\n--b \t\nContent-Type: text/html\n\ntwo\n--b--\nepi\n
path: 1.3
errors: 1.3: NoSuchSection\n
status: Refused

== a message of type message/global holds its section
message: Content-Type: message/global\n\nA: b\n\nx\n
path: 1.1
output: x\n
status: Well

== base64 without its last padding
message: Content-Transfer-Encoding: base64\n\naGk\n
path: 1
output: hi
status: Well

== base64 with unused bits
message: Content-Transfer-Encoding: base64\n\naGl=\n
path: 1
errors: 1: BadBase64\n
status: Refused

== an unknown encoding
message: Content-Transfer-Encoding: x-uuencode\n\nx\n
path: 1
errors: 1: UnknownEncoding\n
status: Refused

== that there is no such section comes before an unknown encoding
message: Content-Transfer-Encoding: x-uuencode\n\nx\n
path: 1.9
errors: 1.9: NoSuchSection\n
status: Refused
"#;

fn check_content(rt: &impl Abort, alloc: Global, row: &Row) -> Result<(), Fail> {
    let path = numbers(alloc, row.bytes("path"))?.expect(rt, "a path");
    for size in SIZES {
        let mut input = Text::new(row.bytes("message"), size);
        let mut out = Page::new(alloc, size)?;
        let mut err = Page::new(alloc, size)?;
        let status = run_extract(alloc, &mut input, &mut out, &mut err, &path);
        check_left(rt, alloc, row, status, &out, &err)?;
    }
    Ok(())
}

#[test]
fn contents_are_given_or_the_reason(rt: HostRuntime) -> Result<(), Fail> {
    for row in &rows(rt.alloc(), CONTENTS)? {
        check_content(&rt, rt.alloc(), row)?;
    }
    Ok(())
}

#[test]
fn sections_are_listed(rt: HostRuntime) -> Result<(), Fail> {
    let alloc = rt.alloc();
    for size in SIZES {
        let mut input = Text::new(MIXED, size);
        let mut out = Page::new(alloc, size)?;
        let mut err = Page::new(alloc, size)?;
        let status = run_sections(alloc, &mut input, &mut out, &mut err);
        assert_eq!(rt; status, Status::Well);
        assert_eq!(rt; out.bytes(), LISTING);
        assert_eq!(rt; err.bytes(), b"".as_slice());
    }
    Ok(())
}

const OTHERS: &str = r"
== texts that aren't paths
text:
text: 0
text: 01
text: 1.
text: .1
text: 1..1
text: 1.x
text: 4294967296
";

// No cell of a row is a path.
fn check_others(rt: &impl Abort, alloc: Global, row: &Row) -> Result<(), Fail> {
    for cell in &row.cells {
        assert!(rt; numbers(alloc, &cell.bytes)?.is_none(), "{}", cell.text);
    }
    Ok(())
}

#[test]
fn a_path_may_have_any_length(rt: HostRuntime) -> Result<(), Fail> {
    let alloc = rt.alloc();
    let mut text = Vec::from_slice(alloc, b"1")?;
    for _ in 0..200 {
        text.extend_from_slice(b".1")?;
    }
    assert_eq!(rt; numbers(alloc, &text)?.expect(&rt, "a path").len(), 201);
    for row in &rows(alloc, OTHERS)? {
        check_others(&rt, alloc, row)?;
    }
    Ok(())
}
