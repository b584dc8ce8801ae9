//! Files of many bytes packed, which go out in several pieces. What must come out is said by its lines: zero bytes are letters
//! `A` in base64, 76 on a line for 57 bytes, and a text of short lines stays in quoted-printable as it is (RFC 2045, 6.7 and
//! 6.8).

use super::devices::{Page, Text};
use mk_mail::{Attach, Sink};
use mk_pack::{AttachOptions, try_part};
use mk_rows::{Row, rows};
use mk_run::{Spec, Status, run_pack};
use std::alloc::{AllocError, Global};
use std::process::Abort;
use std::test::Fail;

/// The most bytes that a device takes at once.
const SIZE: usize = 1_000_000;

const ROWS: &str = r#"
== a byte less than a piece, as base64
fields: A: b\n
file: image/gif:x
first: 
unit: \x00
units: 58367
before: A: b\nMIME-Version: 1.0\nContent-Type: multipart/mixed; boundary="b"\n\n--b\nContent-Type: image/gif; name="x"\nContent-Disposition: attachment; filename="x"\nContent-Transfer-Encoding: base64\n\n
line: AAAAAAAAAAAAAAAAAAAAAAAAAAAAAAAAAAAAAAAAAAAAAAAAAAAAAAAAAAAAAAAAAAAAAAAAAAAA\n
lines: 1023
after: AAAAAAAAAAAAAAAAAAAAAAAAAAAAAAAAAAAAAAAAAAAAAAAAAAAAAAAAAAAAAAAAAAAAAAAAAAA=\n--b--\n

== a piece of 1,024 lines, as base64
fields: A: b\n
file: image/gif:x
first: 
unit: \x00
units: 58368
before: A: b\nMIME-Version: 1.0\nContent-Type: multipart/mixed; boundary="b"\n\n--b\nContent-Type: image/gif; name="x"\nContent-Disposition: attachment; filename="x"\nContent-Transfer-Encoding: base64\n\n
line: AAAAAAAAAAAAAAAAAAAAAAAAAAAAAAAAAAAAAAAAAAAAAAAAAAAAAAAAAAAAAAAAAAAAAAAAAAAA\n
lines: 1023
after: AAAAAAAAAAAAAAAAAAAAAAAAAAAAAAAAAAAAAAAAAAAAAAAAAAAAAAAAAAAAAAAAAAAAAAAAAAAA\n--b--\n

== a byte more
fields: A: b\n
file: image/gif:x
first: 
unit: \x00
units: 58369
before: A: b\nMIME-Version: 1.0\nContent-Type: multipart/mixed; boundary="b"\n\n--b\nContent-Type: image/gif; name="x"\nContent-Disposition: attachment; filename="x"\nContent-Transfer-Encoding: base64\n\n
line: AAAAAAAAAAAAAAAAAAAAAAAAAAAAAAAAAAAAAAAAAAAAAAAAAAAAAAAAAAAAAAAAAAAAAAAAAAAA\n
lines: 1024
after: AA==\n--b--\n

== two pieces
fields: A: b\n
file: image/gif:x
first: 
unit: \x00
units: 116736
before: A: b\nMIME-Version: 1.0\nContent-Type: multipart/mixed; boundary="b"\n\n--b\nContent-Type: image/gif; name="x"\nContent-Disposition: attachment; filename="x"\nContent-Transfer-Encoding: base64\n\n
line: AAAAAAAAAAAAAAAAAAAAAAAAAAAAAAAAAAAAAAAAAAAAAAAAAAAAAAAAAAAAAAAAAAAAAAAAAAAA\n
lines: 2047
after: AAAAAAAAAAAAAAAAAAAAAAAAAAAAAAAAAAAAAAAAAAAAAAAAAAAAAAAAAAAAAAAAAAAAAAAAAAAA\n--b--\n

== four bytes more
fields: A: b\n
file: image/gif:x
first: 
unit: \x00
units: 116740
before: A: b\nMIME-Version: 1.0\nContent-Type: multipart/mixed; boundary="b"\n\n--b\nContent-Type: image/gif; name="x"\nContent-Disposition: attachment; filename="x"\nContent-Transfer-Encoding: base64\n\n
line: AAAAAAAAAAAAAAAAAAAAAAAAAAAAAAAAAAAAAAAAAAAAAAAAAAAAAAAAAAAAAAAAAAAAAAAAAAAA\n
lines: 2048
after: AAAAAA==\n--b--\n

== lines, as quoted-printable
fields: A: b\n
file: text/plain:x
first: 
unit: a\n
units: 29184
before: A: b\nMIME-Version: 1.0\nContent-Type: multipart/mixed; boundary="b"\n\n--b\nContent-Type: text/plain; name="x"\nContent-Disposition: attachment; filename="x"\nContent-Transfer-Encoding: quoted-printable\n\n
line: a\n
lines: 29184
after: \n--b--\n

== lines, and a piece ends in one of them
fields: A: b\n
file: text/plain:x
first: 
unit: abcd\n
units: 11674
before: A: b\nMIME-Version: 1.0\nContent-Type: multipart/mixed; boundary="b"\n\n--b\nContent-Type: text/plain; name="x"\nContent-Disposition: attachment; filename="x"\nContent-Transfer-Encoding: quoted-printable\n\n
line: abcd\n
lines: 11674
after: \n--b--\n

== lines that end in CR LF, and a piece ends with one
fields: A: b\r\n
file: text/plain:x
first: 
unit: a\r\n
units: 19457
before: A: b\r\nMIME-Version: 1.0\r\nContent-Type: multipart/mixed; boundary="b"\r\n\r\n--b\r\nContent-Type: text/plain; name="x"\r\nContent-Disposition: attachment; filename="x"\r\nContent-Transfer-Encoding: quoted-printable\r\n\r\n
line: a\r\n
lines: 19457
after: \r\n--b--\r\n

== a piece ends between CR and LF
fields: A: b\r\n
file: text/plain:x
first: b
unit: a\r\n
units: 19457
before: A: b\r\nMIME-Version: 1.0\r\nContent-Type: multipart/mixed; boundary="b"\r\n\r\n--b\r\nContent-Type: text/plain; name="x"\r\nContent-Disposition: attachment; filename="x"\r\nContent-Transfer-Encoding: quoted-printable\r\n\r\nb
line: a\r\n
lines: 19457
after: \r\n--b--\r\n

== a line as long as a piece: its output lines hold 75 bytes and a soft break, and the last 76
fields: A: b\n
file: text/plain:x
first: 
unit: a
units: 60001
before: A: b\nMIME-Version: 1.0\nContent-Type: multipart/mixed; boundary="b"\n\n--b\nContent-Type: text/plain; name="x"\nContent-Disposition: attachment; filename="x"\nContent-Transfer-Encoding: quoted-printable\n\n
line: aaaaaaaaaaaaaaaaaaaaaaaaaaaaaaaaaaaaaaaaaaaaaaaaaaaaaaaaaaaaaaaaaaaaaaaaaaa=\n
lines: 799
after: aaaaaaaaaaaaaaaaaaaaaaaaaaaaaaaaaaaaaaaaaaaaaaaaaaaaaaaaaaaaaaaaaaaaaaaaaaaa\n--b--\n
"#;

// Appends bytes so many times.
fn push_times(text: &mut Vec<u8>, bytes: &[u8], times: u32) -> Result<(), AllocError> {
    for _ in 0..times {
        text.extend_from_slice(bytes)?;
    }
    Ok(())
}

// The file of a row: its first bytes, and then the unit so many times.
fn file(rt: &impl Abort, alloc: Global, row: &Row) -> Result<Attach, Fail> {
    let mut text = Vec::from_slice(alloc, row.bytes("first"))?;
    push_times(&mut text, row.bytes("unit"), row.number("units"))?;
    let spec = Spec::of(row.bytes("file")).expect(rt, "a colon");
    Ok(spec.attach(alloc, text)?)
}

// What must come out: the bytes before the lines, the line so many times, and the bytes after them.
fn output(alloc: Global, row: &Row) -> Result<Vec<u8>, Fail> {
    let mut text = Vec::from_slice(alloc, row.bytes("before"))?;
    push_times(&mut text, row.bytes("line"), row.number("lines"))?;
    text.extend_from_slice(row.bytes("after"))?;
    Ok(text)
}

fn check_row(rt: &impl Abort, alloc: Global, row: &Row) -> Result<(), Fail> {
    let mut input = Text::new(row.bytes("fields"), SIZE);
    let mut out = Page::new(alloc, SIZE)?;
    let mut err = Page::new(alloc, SIZE)?;
    let parts = [file(rt, alloc, row)?];
    let status = run_pack(alloc, &mut input, &mut out, &mut err, b"b", &parts);
    assert_eq!(rt; status, Status::Well, "{}", row.shows);
    assert!(rt;
        out.bytes() == output(alloc, row)?.as_slice(),
        "{}",
        row.shows
    );
    assert_eq!(rt; out.finishes(), 1, "{}", row.shows);
    Ok(())
}

#[test]
fn long_files_are_packed_in_pieces(rt: HostRuntime) -> Result<(), Fail> {
    for row in &rows(rt.alloc(), ROWS)? {
        check_row(&rt, rt.alloc(), row)?;
    }
    Ok(())
}

// A part alone has its lines after the empty line, and no ending after the last.
fn check_alone(rt: &impl Abort, alloc: Global, row: &Row) -> Result<(), Fail> {
    let mut out = Page::new(alloc, SIZE)?;
    let mut err = Page::new(alloc, SIZE)?;
    let part = file(rt, alloc, row)?;
    let done = try_part(alloc, &mut out, &mut err, AttachOptions::default(), &part);
    assert_eq!(rt; done, Ok(Status::Well), "{}", row.shows);
    assert!(rt;
        out.bytes() == output(alloc, row)?.as_slice(),
        "{}",
        row.shows
    );
    assert_eq!(rt; out.finishes(), 1, "{}", row.shows);
    Ok(())
}

const ALONE: &str = r#"
== a piece of 1,024 lines, as base64
file: image/gif:x
first:
unit: \x00
units: 58368
before: Content-Type: image/gif; name="x"\nContent-Disposition: attachment; filename="x"\nContent-Transfer-Encoding: base64\n\n
line: AAAAAAAAAAAAAAAAAAAAAAAAAAAAAAAAAAAAAAAAAAAAAAAAAAAAAAAAAAAAAAAAAAAAAAAAAAAA\n
lines: 1023
after: AAAAAAAAAAAAAAAAAAAAAAAAAAAAAAAAAAAAAAAAAAAAAAAAAAAAAAAAAAAAAAAAAAAAAAAAAAAA

== a byte more
file: image/gif:x
first:
unit: \x00
units: 58369
before: Content-Type: image/gif; name="x"\nContent-Disposition: attachment; filename="x"\nContent-Transfer-Encoding: base64\n\n
line: AAAAAAAAAAAAAAAAAAAAAAAAAAAAAAAAAAAAAAAAAAAAAAAAAAAAAAAAAAAAAAAAAAAAAAAAAAAA\n
lines: 1024
after: AA==
"#;

#[test]
fn long_parts_go_out_in_pieces(rt: HostRuntime) -> Result<(), Fail> {
    for row in &rows(rt.alloc(), ALONE)? {
        check_alone(&rt, rt.alloc(), row)?;
    }
    Ok(())
}
