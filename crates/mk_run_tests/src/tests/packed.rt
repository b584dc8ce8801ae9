//! Messages packed from fields and files, over devices in memory. The expected bytes are worked out by hand.

use super::devices::{Page, Text};
use super::{SIZES, check_left};
use mk_mail::{Attach, Sink, Source};
use mk_rows::{Row, rows};
use mk_run::{Spec, Status, run_extract, run_pack};
use mk_script::numbers;
use std::alloc::Global;
use std::process::Abort;
use std::test::Fail;

/// A message of a note.
const NOTED: &[u8] =
    b"Subject: s\nMIME-Version: 1.0\nContent-Type: multipart/mixed; boundary=\"b\"\n\n--b\nContent-Type: text/plain; name=\"n.txt\"\nContent-Disposition: attachment; filename=\"n.txt\"\nContent-Transfer-Encoding: quoted-printable\n\nhi\n\n--b--\n";

const PICTURED: &[u8] =
    b"MIME-Version: 1.0\nContent-Type: multipart/mixed; boundary=\"b\"\n\n--b\nContent-Type: image/gif; name=\"x\"\nContent-Disposition: attachment; filename=\"x\"\nContent-Transfer-Encoding: base64\n\naGk=\n--b--\n";

const MESSAGES: &str = r#"
== a field with its ending
fields: Subject: s\n
boundary: b
file: text/plain:d/n.txt
holds: hi\n
output: Subject: s\nMIME-Version: 1.0\nContent-Type: multipart/mixed; boundary="b"\n\n--b\nContent-Type: text/plain; name="n.txt"\nContent-Disposition: attachment; filename="n.txt"\nContent-Transfer-Encoding: quoted-printable\n\nhi\n\n--b--\n
status: Well

== a field without an ending gets one
fields: Subject: s
boundary: b
file: text/plain:d/n.txt
holds: hi\n
output: Subject: s\nMIME-Version: 1.0\nContent-Type: multipart/mixed; boundary="b"\n\n--b\nContent-Type: text/plain; name="n.txt"\nContent-Disposition: attachment; filename="n.txt"\nContent-Transfer-Encoding: quoted-printable\n\nhi\n\n--b--\n
status: Well

== fields may end in an empty line
fields: Subject: s\n\n
boundary: b
file: text/plain:d/n.txt
holds: hi\n
output: Subject: s\nMIME-Version: 1.0\nContent-Type: multipart/mixed; boundary="b"\n\n--b\nContent-Type: text/plain; name="n.txt"\nContent-Disposition: attachment; filename="n.txt"\nContent-Transfer-Encoding: quoted-printable\n\nhi\n\n--b--\n
status: Well

== no fields
fields:
boundary: b
file: image/gif:d/x
holds: hi
output: MIME-Version: 1.0\nContent-Type: multipart/mixed; boundary="b"\n\n--b\nContent-Type: image/gif; name="x"\nContent-Disposition: attachment; filename="x"\nContent-Transfer-Encoding: base64\n\naGk=\n--b--\n
status: Well

== an empty line alone
fields: \n
boundary: b
file: image/gif:d/x
holds: hi
output: MIME-Version: 1.0\nContent-Type: multipart/mixed; boundary="b"\n\n--b\nContent-Type: image/gif; name="x"\nContent-Disposition: attachment; filename="x"\nContent-Transfer-Encoding: base64\n\naGk=\n--b--\n
status: Well

== fields that end in CR LF
fields: A: b\r\n
boundary: b
file: text/plain:d/n.txt
holds: hi\n
output: A: b\r\nMIME-Version: 1.0\r\nContent-Type: multipart/mixed; boundary="b"\r\n\r\n--b\r\nContent-Type: text/plain; name="n.txt"\r\nContent-Disposition: attachment; filename="n.txt"\r\nContent-Transfer-Encoding: quoted-printable\r\n\r\nhi=0A\r\n--b--\r\n
status: Well

== CR LF, and an empty line
fields: A: b\r\n\r\n
boundary: b
file: text/plain:d/n.txt
holds: hi\n
output: A: b\r\nMIME-Version: 1.0\r\nContent-Type: multipart/mixed; boundary="b"\r\n\r\n--b\r\nContent-Type: text/plain; name="n.txt"\r\nContent-Disposition: attachment; filename="n.txt"\r\nContent-Transfer-Encoding: quoted-printable\r\n\r\nhi=0A\r\n--b--\r\n
status: Well
"#;

// The part that a word TYPE:FILE asks for, where the file holds a text.
fn part(rt: &impl Abort, alloc: Global, word: &[u8], text: &[u8]) -> Result<Attach, Fail> {
    let spec = Spec::of(word).expect(rt, "a colon");
    Ok(spec.attach(alloc, Vec::from_slice(alloc, text)?)?)
}

/// The files of a row: after each cell `file` comes what it holds.
pub fn parts(rt: &impl Abort, alloc: Global, row: &Row) -> Result<Vec<Attach>, Fail> {
    let mut parts = Vec::new(alloc);
    let mut word: &[u8] = &[];
    for cell in &row.cells {
        match cell.key {
            "file" => word = &cell.bytes,
            "holds" => parts.push(part(rt, alloc, word, &cell.bytes)?)?,
            _ => {}
        }
    }
    Ok(parts)
}

// A note alone.
fn note(rt: &impl Abort, alloc: Global) -> Result<Vec<Attach>, Fail> {
    let mut parts = Vec::new(alloc);
    parts.push(part(rt, alloc, b"text/plain:d/n.txt", b"hi\n")?)?;
    Ok(parts)
}

/// Packs what a table has, over devices of each size. A row has fields, a boundary, files, and what must come out.
pub fn check_rows(rt: &impl Abort, alloc: Global, table: &'static str) -> Result<(), Fail> {
    for row in &rows(alloc, table)? {
        check_row(rt, alloc, row)?;
    }
    Ok(())
}

fn check_row(rt: &impl Abort, alloc: Global, row: &Row) -> Result<(), Fail> {
    let parts = parts(rt, alloc, row)?;
    let boundary = row.bytes("boundary");
    for size in SIZES {
        let mut input = Text::new(row.bytes("fields"), size);
        let mut out = Page::new(alloc, size)?;
        let mut err = Page::new(alloc, size)?;
        let status = run_pack(alloc, &mut input, &mut out, &mut err, boundary, &parts);
        check_left(rt, alloc, row, status, &out, &err)?;
    }
    Ok(())
}

#[test]
fn messages_are_packed(rt: HostRuntime) -> Result<(), Fail> {
    check_rows(&rt, rt.alloc(), MESSAGES)
}

const WORDS: &str = "
== a text in a folder
word: text/plain:d/n.txt
type: text/plain
name: n.txt
encoding: quoted-printable

== the letters of a type are kept
word: Text/html:n
type: Text/html
name: n
encoding: quoted-printable

== a picture in a folder of folders
word: image/gif:/a/b/c
type: image/gif
name: c
encoding: base64

== a type that only begins like a text, and a colon in a name
word: texts/plain:a:b
type: texts/plain
name: a:b
encoding: base64

== text as a subtype, and a folder without a name
word: application/text:d/
type: application/text
name:
encoding: base64

== a picture whose name is that of a text
word: image/gif:n.txt
type: image/gif
name: n.txt
encoding: base64

== a text whose name is that of a picture
word: text/plain:p.gif
type: text/plain
name: p.gif
encoding: quoted-printable

== a type without a subtype
word: text:f
type: text
name: f
encoding: base64

== a colon alone
word: :
type:
name:
encoding: base64
";

// The part that the word of a row asks for.
fn check_word(rt: &impl Abort, alloc: Global, row: &Row) -> Result<(), Fail> {
    let part = part(rt, alloc, row.bytes("word"), b"")?;
    let encoding = if part.base64 {
        "base64"
    } else {
        "quoted-printable"
    };
    assert_eq!(rt; part.media.as_slice(), row.bytes("type"), "{}", row.shows);
    assert_eq!(rt;
        part.name.as_deref(),
        Some(row.bytes("name")),
        "{}",
        row.shows
    );
    assert_eq!(rt; encoding, row.text("encoding"), "{}", row.shows);
    Ok(())
}

#[test]
fn words_name_files(rt: HostRuntime) -> Result<(), Fail> {
    for row in &rows(rt.alloc(), WORDS)? {
        check_word(&rt, rt.alloc(), row)?;
    }
    assert!(rt; Spec::of(b"").is_none());
    assert!(rt; Spec::of(b"text/plain").is_none());
    Ok(())
}

#[test]
fn a_packed_file_is_extracted(rt: HostRuntime) -> Result<(), Fail> {
    let alloc = rt.alloc();
    let path = numbers(alloc, b"1.1")?.expect(&rt, "a path");
    let mut out = Page::new(alloc, 7)?;
    let mut err = Page::new(alloc, 7)?;
    let status = run_extract(
        alloc,
        &mut Text::new(PICTURED, 7),
        &mut out,
        &mut err,
        &path,
    );
    assert_eq!(rt; status, Status::Well);
    assert_eq!(rt; out.bytes(), b"hi".as_slice());
    Ok(())
}
