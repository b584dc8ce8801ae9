//! Messages unpacked into folders, over devices in memory. The expected bytes are worked out by hand.

use super::check_left;
use super::devices::{Page, Text};
use super::shelf::Shelf;
use mk_mail::{NameForm, Sink, Storing};
use mk_rows::{Row, rows};
use mk_run::{Clash, Folder, Manner, Report, Status, UnpackOptions, try_unpack, unpack};
use std::alloc::Global;
use std::process::Abort;
use std::test::Fail;

/// A message with one attached text.
const ATTACHED: &[u8] =
    b"Subject: s\nMIME-Version: 1.0\nContent-Type: multipart/mixed; boundary=\"b\"\n\n--b\nContent-Type: text/plain; name=\"n.txt\"\nContent-Disposition: attachment; filename=\"n.txt\"\nContent-Transfer-Encoding: quoted-printable\n\nhi\n\n--b--\n";

/// Two parts that can't be decoded, and one after each that can.
const SPOILT: &[u8] =
    b"Content-Type: multipart/mixed; boundary=b\n\n--b\nContent-Transfer-Encoding: base64\n\naGl=\n--b\n\ntwo\n--b\nContent-Transfer-Encoding: x-uuencode\n\nx\n--b\nContent-Transfer-Encoding: base64\n\naGk\n--b--\n";

const ROWS: &str = r#"
== an attached text
message: Subject: s\nMIME-Version: 1.0\nContent-Type: multipart/mixed; boundary="b"\n\n--b\nContent-Type: text/plain; name="n.txt"\nContent-Disposition: attachment; filename="n.txt"\nContent-Transfer-Encoding: quoted-printable\n\nhi\n\n--b--\n
texts: no
over: no
silent: no
after n.txt: hi\n
output: n.txt (text/plain)\n
status: Well

== the name is taken, so the file gets another
message: Subject: s\nMIME-Version: 1.0\nContent-Type: multipart/mixed; boundary="b"\n\n--b\nContent-Type: text/plain; name="n.txt"\nContent-Disposition: attachment; filename="n.txt"\nContent-Transfer-Encoding: quoted-printable\n\nhi\n\n--b--\n
before n.txt: old
texts: no
over: no
silent: no
after n.txt: old
after n.txt.1: hi\n
output: n.txt.1 (text/plain)\n
status: Well

== the file is written over, and nothing is said
message: Subject: s\nMIME-Version: 1.0\nContent-Type: multipart/mixed; boundary="b"\n\n--b\nContent-Type: text/plain; name="n.txt"\nContent-Disposition: attachment; filename="n.txt"\nContent-Transfer-Encoding: quoted-printable\n\nhi\n\n--b--\n
before n.txt: old
before n.txt.1: old
texts: no
over: yes
silent: yes
after n.txt: hi\n
after n.txt.1: old
status: Well

== two images of one name, and one with the name that the second gets
message: Content-Type: multipart/mixed; boundary=b\n\n--b\nContent-Type: image/gif; name=x\n\n1\n--b\nContent-Type: image/gif; name=x\n\n2\n--b\nContent-Type: image/gif; name=x.1\n\n3\n--b--\n
before x: old
texts: no
over: no
silent: no
after x: old
after x.1: 1
after x.1.1: 2
after x.1.1.1: 3
output: x.1 (image/gif)\nx.1.1 (image/gif)\nx.1.1.1 (image/gif)\n
status: Well

== two parts that can't be decoded, and one after each that can
message: Content-Type: multipart/mixed; boundary=b\n\n--b\nContent-Transfer-Encoding: base64\n\naGl=\n--b\n\ntwo\n--b\nContent-Transfer-Encoding: x-uuencode\n\nx\n--b\nContent-Transfer-Encoding: base64\n\naGk\n--b--\n
texts: yes
over: no
silent: no
after part-1.2: two
after part-1.4: hi
output: part-1.2 (text/plain)\npart-1.4 (text/plain)\n
errors: 1.1: BadBase64\n1.3: UnknownEncoding\n
status: Refused

== base64 of a length that it can't have
message: Content-Transfer-Encoding: base64\n\naGkAa\n
texts: yes
over: no
silent: no
errors: 1: BadBase64\n
status: Refused

== no texts are asked for
message:
texts: no
over: no
silent: no
status: Well

== an empty text
message:
texts: yes
over: no
silent: no
after part-1:
output: part-1 (text/plain)\n
status: Well
"#;

const SIZES: [usize; 2] = [1, 1_000];

/// The files that a folder has before. A key has the name of a file after the word.
pub(super) fn fill(dir: &mut Shelf, row: &Row) -> Result<(), Fail> {
    for cell in &row.cells {
        if let Some(name) = cell.key.strip_prefix("before ") {
            dir.add(name.as_bytes(), &cell.bytes)?;
        }
    }
    Ok(())
}

/// A folder has the files that a row has after a run, and no others.
pub(super) fn check_files(rt: &impl Abort, dir: &Shelf, row: &Row) {
    let mut count: usize = 0;
    for cell in &row.cells {
        if let Some(name) = cell.key.strip_prefix("after ") {
            let text = dir.text(name.as_bytes());
            assert_eq!(rt; text, Some(cell.bytes.as_slice()), "{}: {name}", row.shows);
            count = count.saturating_add(1);
        }
    }
    assert_eq!(rt; dir.count(), count, "{}", row.shows);
}

fn check_row(rt: &impl Abort, alloc: Global, row: &Row) -> Result<(), Fail> {
    let texts = row.text("texts") == "yes";
    let over = row.text("over") == "yes";
    let silent = row.text("silent") == "yes";
    for size in SIZES {
        let mut input = Text::new(row.bytes("message"), size);
        let mut out = Page::new(alloc, size)?;
        let mut err = Page::new(alloc, size)?;
        let mut dir = Shelf::new(alloc);
        fill(&mut dir, row)?;
        let status = unpack(
            alloc, &mut input, &mut out, &mut err, &mut dir, texts, over, silent,
        );
        check_left(rt, alloc, row, status, &out, &err)?;
        check_files(rt, &dir, row);
    }
    Ok(())
}

#[test]
fn leaves_are_put_under_their_names(rt: HostRuntime) -> Result<(), Fail> {
    for row in &rows(rt.alloc(), ROWS)? {
        check_row(&rt, rt.alloc(), row)?;
    }
    Ok(())
}

/// Names as a message writes them in quotes, and those of the files that come of them.
const NAMES: &str = r#"
== a dash in front
name: -rf
file: _rf

== a dot in front
name: .bashrc
file: _bashrc

== the path to another folder
name: a/../../x
file: x

== a path with backslashes
name: c:\\\\d\\\\e
file: e

== control characters and a bracket
name: \x00\x1b[31m
file: ___31m

== a fold
name: a\n b
file: a_b

== bytes that aren't ASCII
name: \xc3\xa9
file: __

== the folder above
name: ..
file: _.

== a path without a name
name: a/
file: part-1
"#;

// Unpacks an image with a name, and says whether it was put under another.
fn is_put(alloc: Global, raw: &[u8], name: &[u8]) -> Result<bool, Fail> {
    let mut message = Vec::from_slice(alloc, b"Content-Type: image/gif; name=\"")?;
    message.extend_from_slice(raw)?;
    message.extend_from_slice(b"\"\n\nx")?;
    let mut input = Text::new(&message, 1_000);
    let mut out = Page::new(alloc, 1_000)?;
    let mut err = Page::new(alloc, 1_000)?;
    let mut dir = Shelf::new(alloc);
    let status = unpack(
        alloc, &mut input, &mut out, &mut err, &mut dir, false, false, false,
    );
    Ok(status == Status::Well && dir.count() == 1 && dir.text(name) == Some(b"x".as_slice()))
}

#[test]
fn no_name_leads_out_of_the_folder(rt: HostRuntime) -> Result<(), Fail> {
    for row in &rows(rt.alloc(), NAMES)? {
        let (raw, name) = (row.bytes("name"), row.bytes("file"));
        assert!(rt; is_put(rt.alloc(), raw, name)?, "{}", row.shows);
    }
    let kept = vec![in rt.alloc(); b'a'; 100]?;
    for length in [300usize, 5_000] {
        let long = vec![in rt.alloc(); b'a'; length]?;
        assert!(rt; is_put(rt.alloc(), &long, &kept)?);
    }
    Ok(())
}

/// Dispositions, and the names of the files that come of them where names are in UTF-8.
const TEXT_NAMES: &str = r#"
== percent signs
says: inline; filename*=utf-8''na%C3%AFve.pdf
file: na\xc3\xafve.pdf

== the path to another folder
says: inline; filename*=utf-8''%2e%2e%2f..%5c%e4%b8%ad
file: \xe4\xb8\xad

== a plain name
says: inline; filename=a.gif
file: a.gif

== no name
says: inline
file: part-1
"#;

// Unpacks an image with a disposition and names in UTF-8, and says whether it was put under a name.
fn is_put_in_utf8(alloc: Global, said: &[u8], name: &[u8]) -> Result<bool, Fail> {
    let mut message = Vec::from_slice(alloc, b"Content-Type: image/gif\nContent-Disposition: ")?;
    message.extend_from_slice(said)?;
    message.extend_from_slice(b"\n\nx")?;
    let mut input = Text::new(&message, 1_000);
    let mut out = Page::new(alloc, 1_000)?;
    let mut err = Page::new(alloc, 1_000)?;
    let mut dir = Shelf::new(alloc);
    let options = UnpackOptions {
        storing: Storing {
            form: NameForm::Utf8,
            ..Storing::default()
        },
        ..UnpackOptions::default()
    };
    let done = try_unpack(alloc, &mut input, &mut out, &mut err, &mut dir, options);
    Ok(done == Ok(Status::Well) && dir.count() == 1 && dir.text(name) == Some(b"x".as_slice()))
}

#[test]
fn names_in_utf8_are_those_of_files(rt: HostRuntime) -> Result<(), Fail> {
    for row in &rows(rt.alloc(), TEXT_NAMES)? {
        let (said, name) = (row.bytes("says"), row.bytes("file"));
        assert!(rt; is_put_in_utf8(rt.alloc(), said, name)?, "{}", row.shows);
    }
    Ok(())
}

// A folder in which files have a name, and the same with the numbers to 99.
fn hundred_names(alloc: Global) -> Result<Shelf, Fail> {
    let mut dir = Shelf::new(alloc);
    dir.add(b"n.txt", b"")?;
    for number in 1..100u32 {
        dir.add(format!(in alloc; "n.txt.{number}")?.as_bytes(), b"")?;
    }
    Ok(dir)
}

#[test]
fn a_hundred_names_are_tried(rt: HostRuntime) -> Result<(), Fail> {
    let alloc = rt.alloc();
    let mut input = Text::new(ATTACHED, 1_000);
    let mut out = Page::new(alloc, 1_000)?;
    let mut err = Page::new(alloc, 1_000)?;
    let mut dir = hundred_names(alloc)?;
    let status = unpack(
        alloc, &mut input, &mut out, &mut err, &mut dir, false, false, false,
    );
    assert_eq!(rt; status, Status::Refused);
    assert_eq!(rt; out.bytes(), b"".as_slice());
    assert_eq!(rt; err.bytes(), b"n.txt: exists\n".as_slice());
    assert_eq!(rt; dir.count(), 100);
    Ok(())
}

#[test]
fn numbers_go_on_after_a_hundred_names(rt: HostRuntime) -> Result<(), Fail> {
    let alloc = rt.alloc();
    let mut input = Text::new(ATTACHED, 1_000);
    let mut out = Page::new(alloc, 1_000)?;
    let mut err = Page::new(alloc, 1_000)?;
    let mut dir = hundred_names(alloc)?;
    let manner = Manner {
        clash: Clash::Counted,
        report: Report::Names,
    };
    let options = UnpackOptions {
        manner,
        ..UnpackOptions::default()
    };
    let done = try_unpack(alloc, &mut input, &mut out, &mut err, &mut dir, options);
    assert!(rt; done == Ok(Status::Well));
    assert_eq!(rt; out.bytes(), b"n.txt.100 (text/plain)\n".as_slice());
    assert_eq!(rt; err.bytes(), b"".as_slice());
    assert_eq!(rt; dir.text(b"n.txt.100"), Some(b"hi\n".as_slice()));
    assert_eq!(rt; dir.count(), 101);
    Ok(())
}
