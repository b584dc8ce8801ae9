//! Messages packed with names in UTF-8, and unpacked again. The expected bytes are worked out by hand, from RFC 2231.

use super::check_left;
use super::devices::{Page, Text};
use super::packed::parts;
use super::shelf::Shelf;
use mk_mail::{NameForm, Sink, Storing};
use mk_pack::{PackOptions, try_pack};
use mk_rows::{Row, rows};
use mk_run::{Folder, Status, UnpackOptions, try_unpack};
use std::alloc::Global;
use std::process::Abort;
use std::test::Fail;

/// Files with names, the messages that they are packed into, and the names that they get when these are unpacked.
const NAMES: &str = r#"
== letters of two bytes
fields:
boundary: b
file: text/plain:d/Grüße.txt
holds: hi\n
output: MIME-Version: 1.0\nContent-Type: multipart/mixed; boundary="b"\n\n--b\nContent-Type: text/plain; name="Gr____e.txt"\nContent-Disposition: attachment; filename="Gr____e.txt"; filename*=utf-8''Gr%C3%BC%C3%9Fe.txt\nContent-Transfer-Encoding: quoted-printable\n\nhi\n\n--b--\n
status: Well
unpacked: Grüße.txt

== an ASCII name says nothing more
fields:
boundary: b
file: text/plain:d/n.txt
holds: hi\n
output: MIME-Version: 1.0\nContent-Type: multipart/mixed; boundary="b"\n\n--b\nContent-Type: text/plain; name="n.txt"\nContent-Disposition: attachment; filename="n.txt"\nContent-Transfer-Encoding: quoted-printable\n\nhi\n\n--b--\n
status: Well
unpacked: n.txt

== letters of three bytes, and a space
fields:
boundary: b
file: text/plain:中 a
holds: hi\n
output: MIME-Version: 1.0\nContent-Type: multipart/mixed; boundary="b"\n\n--b\nContent-Type: text/plain; name="___ a"\nContent-Disposition: attachment; filename="___ a"; filename*=utf-8''%E4%B8%AD%20a\nContent-Transfer-Encoding: quoted-printable\n\nhi\n\n--b--\n
status: Well
unpacked: 中_a

== a quote, a backslash and a percent sign beside a letter
fields:
boundary: b
file: text/plain:"\\%é
holds: hi\n
output: MIME-Version: 1.0\nContent-Type: multipart/mixed; boundary="b"\n\n--b\nContent-Type: text/plain; name="__%__"\nContent-Disposition: attachment; filename="__%__"; filename*=utf-8''%22%5C%25%C3%A9\nContent-Transfer-Encoding: quoted-printable\n\nhi\n\n--b--\n
status: Well
unpacked: _é

== an apostrophe, an asterisk and a plus sign beside a letter
fields:
boundary: b
file: text/plain:é'*+
holds: hi\n
output: MIME-Version: 1.0\nContent-Type: multipart/mixed; boundary="b"\n\n--b\nContent-Type: text/plain; name="__'*+"\nContent-Disposition: attachment; filename="__'*+"; filename*=utf-8''%C3%A9%27%2A+\nContent-Transfer-Encoding: quoted-printable\n\nhi\n\n--b--\n
status: Well
unpacked: é___

== a line feed makes no line
fields:
boundary: b
file: text/plain:a\nb
holds: hi\n
output: MIME-Version: 1.0\nContent-Type: multipart/mixed; boundary="b"\n\n--b\nContent-Type: text/plain; name="a_b"\nContent-Disposition: attachment; filename="a_b"; filename*=utf-8''a%0Ab\nContent-Transfer-Encoding: quoted-printable\n\nhi\n\n--b--\n
status: Well
unpacked: a_b

== 101 letters of two bytes: 100 bytes in quotes, all with percent signs
fields:
boundary: b
file: text/plain:ééééééééééééééééééééééééééééééééééééééééééééééééééééééééééééééééééééééééééééééééééééééééééééééééééééé
holds: hi\n
output: MIME-Version: 1.0\nContent-Type: multipart/mixed; boundary="b"\n\n--b\nContent-Type: text/plain; name="____________________________________________________________________________________________________"\nContent-Disposition: attachment; filename="____________________________________________________________________________________________________"; filename*=utf-8''%C3%A9%C3%A9%C3%A9%C3%A9%C3%A9%C3%A9%C3%A9%C3%A9%C3%A9%C3%A9%C3%A9%C3%A9%C3%A9%C3%A9%C3%A9%C3%A9%C3%A9%C3%A9%C3%A9%C3%A9%C3%A9%C3%A9%C3%A9%C3%A9%C3%A9%C3%A9%C3%A9%C3%A9%C3%A9%C3%A9%C3%A9%C3%A9%C3%A9%C3%A9%C3%A9%C3%A9%C3%A9%C3%A9%C3%A9%C3%A9%C3%A9%C3%A9%C3%A9%C3%A9%C3%A9%C3%A9%C3%A9%C3%A9%C3%A9%C3%A9%C3%A9%C3%A9%C3%A9%C3%A9%C3%A9%C3%A9%C3%A9%C3%A9%C3%A9%C3%A9%C3%A9%C3%A9%C3%A9%C3%A9%C3%A9%C3%A9%C3%A9%C3%A9%C3%A9%C3%A9%C3%A9%C3%A9%C3%A9%C3%A9%C3%A9%C3%A9%C3%A9%C3%A9%C3%A9%C3%A9%C3%A9%C3%A9%C3%A9%C3%A9%C3%A9%C3%A9%C3%A9%C3%A9%C3%A9%C3%A9%C3%A9%C3%A9%C3%A9%C3%A9%C3%A9%C3%A9%C3%A9%C3%A9%C3%A9%C3%A9%C3%A9\nContent-Transfer-Encoding: quoted-printable\n\nhi\n\n--b--\n
status: Well
unpacked: éééééééééééééééééééééééééééééééééééééééééééééééééé

== the longest: 255 bytes
fields:
boundary: b
file: text/plain:éééééééééééééééééééééééééééééééééééééééééééééééééééééééééééééééééééééééééééééééééééééééééééééééééééééééééééééééééééééééééééééééa
holds: hi\n
output: MIME-Version: 1.0\nContent-Type: multipart/mixed; boundary="b"\n\n--b\nContent-Type: text/plain; name="____________________________________________________________________________________________________"\nContent-Disposition: attachment; filename="____________________________________________________________________________________________________"; filename*=utf-8''%C3%A9%C3%A9%C3%A9%C3%A9%C3%A9%C3%A9%C3%A9%C3%A9%C3%A9%C3%A9%C3%A9%C3%A9%C3%A9%C3%A9%C3%A9%C3%A9%C3%A9%C3%A9%C3%A9%C3%A9%C3%A9%C3%A9%C3%A9%C3%A9%C3%A9%C3%A9%C3%A9%C3%A9%C3%A9%C3%A9%C3%A9%C3%A9%C3%A9%C3%A9%C3%A9%C3%A9%C3%A9%C3%A9%C3%A9%C3%A9%C3%A9%C3%A9%C3%A9%C3%A9%C3%A9%C3%A9%C3%A9%C3%A9%C3%A9%C3%A9%C3%A9%C3%A9%C3%A9%C3%A9%C3%A9%C3%A9%C3%A9%C3%A9%C3%A9%C3%A9%C3%A9%C3%A9%C3%A9%C3%A9%C3%A9%C3%A9%C3%A9%C3%A9%C3%A9%C3%A9%C3%A9%C3%A9%C3%A9%C3%A9%C3%A9%C3%A9%C3%A9%C3%A9%C3%A9%C3%A9%C3%A9%C3%A9%C3%A9%C3%A9%C3%A9%C3%A9%C3%A9%C3%A9%C3%A9%C3%A9%C3%A9%C3%A9%C3%A9%C3%A9%C3%A9%C3%A9%C3%A9%C3%A9%C3%A9%C3%A9%C3%A9%C3%A9%C3%A9%C3%A9%C3%A9%C3%A9%C3%A9%C3%A9%C3%A9%C3%A9%C3%A9%C3%A9%C3%A9%C3%A9%C3%A9%C3%A9%C3%A9%C3%A9%C3%A9%C3%A9%C3%A9%C3%A9%C3%A9%C3%A9%C3%A9%C3%A9%C3%A9a\nContent-Transfer-Encoding: quoted-printable\n\nhi\n\n--b--\n
status: Well
unpacked: éééééééééééééééééééééééééééééééééééééééééééééééééé
"#;

/// Files whose names can't be written.
const REFUSED: &str = r#"
== 256 bytes
fields:
boundary: b
file: text/plain:éééééééééééééééééééééééééééééééééééééééééééééééééééééééééééééééééééééééééééééééééééééééééééééééééééééééééééééééééééééééééééééééé
holds: hi\n
errors: pack: BadName 0\n
status: Refused

== bytes that are no text in UTF-8
fields:
boundary: b
file: text/plain:d/\xff.txt
holds: hi\n
errors: pack: BadName 0\n
status: Refused

== an ASCII name with a quote
fields:
boundary: b
file: text/plain:d/a"b
holds: hi\n
errors: pack: BadName 0\n
status: Refused

== an ASCII name of 101 bytes
fields:
boundary: b
file: text/plain:aaaaaaaaaaaaaaaaaaaaaaaaaaaaaaaaaaaaaaaaaaaaaaaaaaaaaaaaaaaaaaaaaaaaaaaaaaaaaaaaaaaaaaaaaaaaaaaaaaaaa
holds: hi\n
errors: pack: BadName 0\n
status: Refused

== no name
fields:
boundary: b
file: text/plain:d/
holds: hi\n
errors: pack: BadName 0\n
status: Refused
"#;

const SIZES: [usize; 2] = [1, 1_000];

// Packs what a row has with names in UTF-8, and unpacks what came out where the row says a name for that.
fn check_row(rt: &impl Abort, alloc: Global, row: &Row) -> Result<(), Fail> {
    let parts = parts(rt, alloc, row)?;
    let options = PackOptions {
        utf8_names: true,
        boundary: Some(row.bytes("boundary")),
        ..PackOptions::default()
    };
    for size in SIZES {
        let mut input = Text::new(row.bytes("fields"), size);
        let mut out = Page::new(alloc, size)?;
        let mut err = Page::new(alloc, size)?;
        let done = try_pack(alloc, &mut input, &mut out, &mut err, options, &parts, &[]);
        let status = done.unwrap_or(Status::Fault);
        check_left(rt, alloc, row, status, &out, &err)?;
        if let Some(name) = row.get("unpacked") {
            check_unpacked(rt, alloc, row, out.bytes(), &name.bytes)?;
        }
    }
    Ok(())
}

// A message is unpacked into one file, with a name and what the row's file holds.
fn check_unpacked(
    rt: &impl Abort,
    alloc: Global,
    row: &Row,
    message: &[u8],
    name: &[u8],
) -> Result<(), Fail> {
    let mut input = Text::new(message, 1_000);
    let mut out = Page::new(alloc, 1_000)?;
    let mut err = Page::new(alloc, 1_000)?;
    let mut dir = Shelf::new(alloc);
    let options = UnpackOptions {
        storing: Storing {
            form: NameForm::Utf8,
            ..Storing::default()
        },
        ..UnpackOptions::default()
    };
    let done = try_unpack(alloc, &mut input, &mut out, &mut err, &mut dir, options);
    assert!(rt; done == Ok(Status::Well), "{}", row.shows);
    assert_eq!(rt; dir.text(name), Some(row.bytes("holds")), "{}", row.shows);
    assert_eq!(rt; dir.count(), 1, "{}", row.shows);
    Ok(())
}

#[test]
fn names_are_packed_in_utf8(rt: HostRuntime) -> Result<(), Fail> {
    for row in &rows(rt.alloc(), NAMES)? {
        check_row(&rt, rt.alloc(), row)?;
    }
    Ok(())
}

#[test]
fn bad_names_are_refused_in_utf8_too(rt: HostRuntime) -> Result<(), Fail> {
    for row in &rows(rt.alloc(), REFUSED)? {
        check_row(&rt, rt.alloc(), row)?;
    }
    Ok(())
}
