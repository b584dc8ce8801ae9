//! Messages that are forwarded in a packed message. The expected bytes are worked out by hand, and the digests come from
//! another program's SHA-256.

use super::devices::{Page, Text};
use super::packed_kinds::{options, parts};
use super::{SIZES, check_left};
use mk_mail::Sink;
use mk_pack::{Forward, PackOptions, try_pack};
use mk_rows::{Row, rows};
use mk_run::{Cause, Status};
use std::alloc::{AllocError, Global};
use std::process::Abort;
use std::test::Fail;

const ROWS: &str = r#"
== a note and a message after it
fields: Subject: s\n
boundary: b
file: text/plain:d/n.txt
holds: hi\n
forward: Subject: x\n\nhello\n
output: Subject: s\nMIME-Version: 1.0\nContent-Type: multipart/mixed; boundary="b"\n\n--b\nContent-Type: text/plain; name="n.txt"\nContent-Disposition: attachment; filename="n.txt"\nContent-Transfer-Encoding: quoted-printable\n\nhi\n\n--b\nContent-Type: message/rfc822\nContent-Disposition: attachment\n\nSubject: x\n\nhello\n\n--b--\n
status: Well

== no part of another kind, and the last line open
fields: \n
boundary: b
forward: Subject: x\n\nhello
output: MIME-Version: 1.0\nContent-Type: multipart/mixed; boundary="b"\n\n--b\nContent-Type: message/rfc822\nContent-Disposition: attachment\n\nSubject: x\n\nhello\n--b--\n
status: Well

== two messages, in their order
fields:
boundary: b
forward: A: b\n
forward: C: d\n
output: MIME-Version: 1.0\nContent-Type: multipart/mixed; boundary="b"\n\n--b\nContent-Type: message/rfc822\nContent-Disposition: attachment\n\nA: b\n\n--b\nContent-Type: message/rfc822\nContent-Disposition: attachment\n\nC: d\n\n--b--\n
status: Well

== an empty message
fields:
boundary: b
forward:
output: MIME-Version: 1.0\nContent-Type: multipart/mixed; boundary="b"\n\n--b\nContent-Type: message/rfc822\nContent-Disposition: attachment\n\n\n--b--\n
status: Well

== an envelope isn't sent, and only one line is
fields:
boundary: b
forward: From a@example.org Thu Jan  1\nFrom b\nSubject: x\n\ny\n
output: MIME-Version: 1.0\nContent-Type: multipart/mixed; boundary="b"\n\n--b\nContent-Type: message/rfc822\nContent-Disposition: attachment\n\nFrom b\nSubject: x\n\ny\n\n--b--\n
status: Well

== a field From is none
fields:
boundary: b
forward: From : x\n\ny\n
output: MIME-Version: 1.0\nContent-Type: multipart/mixed; boundary="b"\n\n--b\nContent-Type: message/rfc822\nContent-Disposition: attachment\n\nFrom : x\n\ny\n\n--b--\n
status: Well

== bytes of 128 or more, in one of two messages, with CR LF
fields: A: b\r\n
boundary: b
forward: A: b
forward: C: ü\n
output: A: b\r\nMIME-Version: 1.0\r\nContent-Type: multipart/mixed; boundary="b"\r\nContent-Transfer-Encoding: 8bit\r\n\r\n--b\r\nContent-Type: message/rfc822\r\nContent-Disposition: attachment\r\n\r\nA: b\r\n--b\r\nContent-Type: message/rfc822\r\nContent-Disposition: attachment\r\nContent-Transfer-Encoding: 8bit\r\n\r\nC: ü\n\r\n--b--\r\n
status: Well

== such bytes in the envelope alone
fields:
boundary: b
forward: From ü\nA: b\n
output: MIME-Version: 1.0\nContent-Type: multipart/mixed; boundary="b"\n\n--b\nContent-Type: message/rfc822\nContent-Disposition: attachment\n\nA: b\n\n--b--\n
status: Well

== a CR at the end stays in the message
fields:
boundary: b
forward: A: b\n\nx\r
output: MIME-Version: 1.0\nContent-Type: multipart/mixed; boundary="b"\n\n--b\nContent-Type: message/rfc822\nContent-Disposition: attachment\n\nA: b\n\nx\r\r\n--b--\n
status: Well

== CR LF at the end is an ending
fields:
boundary: b
forward: A: b\r\n\r\nx\r\n
output: MIME-Version: 1.0\nContent-Type: multipart/mixed; boundary="b"\n\n--b\nContent-Type: message/rfc822\nContent-Disposition: attachment\n\nA: b\r\n\r\nx\r\n\n--b--\n
status: Well

== no disposition, and 8bit
fields:
inline: yes
boundary: b
forward: A: ü\n
output: MIME-Version: 1.0\nContent-Type: multipart/mixed; boundary="b"\nContent-Transfer-Encoding: 8bit\n\n--b\nContent-Type: message/rfc822\nContent-Transfer-Encoding: 8bit\n\nA: ü\n\n--b--\n
status: Well

== two hyphens and the boundary inside a line, and another boundary
fields:
boundary: b
forward: A: b\n\nx--b\n--c\n
output: MIME-Version: 1.0\nContent-Type: multipart/mixed; boundary="b"\n\n--b\nContent-Type: message/rfc822\nContent-Disposition: attachment\n\nA: b\n\nx--b\n--c\n\n--b--\n
status: Well

== the delimiter in the second message
fields:
boundary: b
forward: A: b\n
forward: C: d\n\n--b\n
forward: --b\n
output:
errors: pack: HoldsBoundary 1\n
status: Refused

== a longer line that begins so, at the start of the first
fields:
boundary: b
forward: --bcd\n
output:
errors: pack: HoldsBoundary 0\n
status: Refused

== the last line, which is open
fields:
boundary: b
forward: A: b\n\n--b
output:
errors: pack: HoldsBoundary 0\n
status: Refused

== the boundary is looked at before the messages
fields:
boundary: b\x20
forward: --b \n
output:
errors: pack: BadBoundary\n
status: Refused

== so is a part
fields:
file: multipart/mixed:d/x
holds: hi
boundary: b
forward: --b\n
output:
errors: pack: BadType 0\n
status: Refused

== a boundary of its own: `10:Subject: s14:message/rfc8227:A: b`, two line feeds and `x`
fields: Subject: s
forward: From a\nA: b\n\nx
output: Subject: s\nMIME-Version: 1.0\nContent-Type: multipart/mixed; boundary="=_466cc4751964727c90d23f91"\n\n--=_466cc4751964727c90d23f91\nContent-Type: message/rfc822\nContent-Disposition: attachment\n\nA: b\n\nx\n--=_466cc4751964727c90d23f91--\n
status: Well

== parts are digested before messages, and a line that begins like a boundary is none
fields:
file: text/plain:d/n.txt
holds: hi\n
forward: A: b\n\nx\n
forward: --=_\n
output: MIME-Version: 1.0\nContent-Type: multipart/mixed; boundary="=_6629ddb39a668d634ed8b461"\n\n--=_6629ddb39a668d634ed8b461\nContent-Type: text/plain; name="n.txt"\nContent-Disposition: attachment; filename="n.txt"\nContent-Transfer-Encoding: quoted-printable\n\nhi\n\n--=_6629ddb39a668d634ed8b461\nContent-Type: message/rfc822\nContent-Disposition: attachment\n\nA: b\n\nx\n\n--=_6629ddb39a668d634ed8b461\nContent-Type: message/rfc822\nContent-Disposition: attachment\n\n--=_\n\n--=_6629ddb39a668d634ed8b461--\n
status: Well
"#;

// The messages of a row.
fn messages(alloc: Global, row: &Row) -> Result<Vec<Forward>, AllocError> {
    let inline = row.get("inline").is_some();
    let mut messages = Vec::new(alloc);
    for cell in &row.cells {
        if cell.key == "forward" {
            let text = Vec::from_slice(alloc, &cell.bytes)?;
            messages.push(Forward { text, inline })?;
        }
    }
    Ok(messages)
}

fn check_row(rt: &impl Abort, alloc: Global, row: &Row) -> Result<(), Fail> {
    let parts = parts(rt, alloc, row)?;
    let messages = messages(alloc, row)?;
    for size in SIZES {
        let mut input = Text::new(row.bytes("fields"), size);
        let mut out = Page::new(alloc, size)?;
        let mut err = Page::new(alloc, size)?;
        let status = try_pack(
            alloc,
            &mut input,
            &mut out,
            &mut err,
            options(row),
            &parts,
            &messages,
        )
        .expect(rt, "no fault");
        check_left(rt, alloc, row, status, &out, &err)?;
    }
    Ok(())
}

#[test]
fn messages_are_forwarded(rt: HostRuntime) -> Result<(), Fail> {
    for row in &rows(rt.alloc(), ROWS)? {
        check_row(&rt, rt.alloc(), row)?;
    }
    Ok(())
}

const SIZE: usize = 1_000;

#[test]
fn memory_for_forwarding(rt: HostRuntime) {
    let alloc = rt.alloc();
    let (Ok(out), Ok(err)) = (Page::new(alloc, SIZE), Page::new(alloc, SIZE)) else {
        return;
    };
    let Ok(text) = Vec::from_slice(alloc, b"From a\nA: b\n\nx") else {
        return;
    };
    check_memory(
        &rt,
        alloc,
        out,
        err,
        Forward {
            text,
            inline: false,
        },
    );
}

// The message goes out, or the run is given up when memory runs out.
fn check_memory(rt: &impl Abort, alloc: Global, mut out: Page, mut err: Page, message: Forward) {
    let mut input = Text::new(b"A: b", SIZE);
    let options = PackOptions {
        utf8_names: true,
        ..PackOptions::default()
    };
    match try_pack(
        alloc,
        &mut input,
        &mut out,
        &mut err,
        options,
        &[],
        &[message],
    ) {
        Ok(status) => {
            assert_eq!(rt; status, Status::Well);
            assert!(rt; out.bytes().ends_with(b"--\n"));
        }
        Err(cause) => {
            assert!(rt; matches!(&cause, Cause::Memory));
            assert_eq!(rt; out.bytes(), b"".as_slice());
        }
    }
    assert_eq!(rt; err.bytes(), b"".as_slice());
}
