//! Contents put in other transfer encodings, and pieces that get the endings of the message. What comes of a run is worked
//! out by hand.

use super::devices::{Page, Text};
use super::{SIZES, check_left, check_lines, check_rows, pieces_of};
use mk_rows::{Row, rows};
use mk_run::{Journal, Pieces, Script, give_up, try_edit};
use std::alloc::Global;
use std::process::Abort;
use std::test::Fail;

const ROWS: &str = r#"
== quoted-printable becomes base64
message: A: 1\nContent-Transfer-Encoding: quoted-printable\n\na=3Db\n
script: encode 1 base64\n
output: A: 1\nContent-Transfer-Encoding: base64\n\nYT1iCg==
status: Well

== base64 becomes plain, and the ending before a delimiter isn't content
message: Content-Type: multipart/mixed; boundary=b\n\n--b\nContent-Transfer-Encoding: base64\n\nYT1i\n--b--\n
script: encode 1.1 8bit\n
output: Content-Type: multipart/mixed; boundary=b\n\n--b\nContent-Transfer-Encoding: 8bit\n\na=b\n--b--\n
status: Well

== a message that says no encoding gets a field that does
message: A: 1\n\nh\xe9\n
script: encode 1 qp\n
output: A: 1\nContent-Transfer-Encoding: quoted-printable\n\nh=E9\n
status: Well

== the words of the listing
message: A: 1\n\nh\xe9\n
script: encode 1 quoted-printable\n
output: A: 1\nContent-Transfer-Encoding: quoted-printable\n\nh=E9\n
status: Well

== identity is 8bit
message: A: 1\nContent-Transfer-Encoding: quoted-printable\n\nh=E9\n
script: encode 1 identity\n
output: A: 1\nContent-Transfer-Encoding: 8bit\n\nh\xe9\n
status: Well

== identity of a NUL
message: A: 1\nContent-Transfer-Encoding: base64\n\nAA==\n
script: encode 1 identity\n
output: A: 1\nContent-Transfer-Encoding: base64\n\nAA==\n
errors: line 1: BinaryContent\n
status: Refused

== lines end as in the message
message: A: 1\r\n\r\nx
script: encode 1 qp\n
output: A: 1\r\nContent-Transfer-Encoding: quoted-printable\r\n\r\nx
status: Well

== of several fields the first counts, and the others go
message: Content-Transfer-Encoding: base64\nX: 1\ncontent-transfer-encoding: 7bit\n\nYQ==\n
script: encode 1 qp\n
output: Content-Transfer-Encoding: quoted-printable\nX: 1\n\na
status: Well

== it is one step
message: A: 1\n\nx\n
script: encode 1 base64\nundo\nundo\n
output: A: 1\n\nx\n
errors: line 3: NothingToUndo\n
status: Refused

== base64 that isn't, and an encoding that is unknown
message: Content-Type: multipart/mixed; boundary=b\n\n--b\nContent-Transfer-Encoding: base64\n\nY\n--b\nContent-Transfer-Encoding: x-uuencode\n\nx\n--b--\n
script: encode 1.1 8bit\nencode 1.2 8bit\n
output: Content-Type: multipart/mixed; boundary=b\n\n--b\nContent-Transfer-Encoding: base64\n\nY\n--b\nContent-Transfer-Encoding: x-uuencode\n\nx\n--b--\n
errors: line 1: BadBase64\nline 2: UnknownEncoding\n
status: Refused

== only a leaf is encoded
message: Content-Type: multipart/mixed; boundary=b\n\n--b\n\none\n--b--\n
script: encode 1 qp\nencode 1.2 qp\n
output: Content-Type: multipart/mixed; boundary=b\n\n--b\n\none\n--b--\n
errors: line 1: NotLeaf\nline 2: NoSuchSection\n
status: Refused

== a content that is a delimiter stays encoded
message: Content-Type: multipart/mixed; boundary=b\n\n--b\nContent-Transfer-Encoding: quoted-printable\n\n=2D-b\n--b--\n
script: encode 1.1 8bit\n
output: Content-Type: multipart/mixed; boundary=b\n\n--b\nContent-Transfer-Encoding: quoted-printable\n\n=2D-b\n--b--\n
errors: line 1: HoldsBoundary 1\n
status: Refused

== an encoded message doesn't become a section
message: Content-Type: message/rfc822\nContent-Transfer-Encoding: base64\n\nQTogMQo=\n
script: encode 1 8bit\n
output: Content-Type: message/rfc822\nContent-Transfer-Encoding: base64\n\nQTogMQo=\n
errors: line 1: Recut\n
status: Refused
"#;

#[test]
fn contents_are_put_in_other_encodings(rt: HostRuntime) -> Result<(), Fail> {
    check_rows(&rt, rt.alloc(), ROWS)
}

/// Lines without pieces.
const LINES: &str = r"
== a path and an encoding
step: encode 1 qp
step: encode 1.2 base64
step: encode 1.2.3 8bit
step: encode 1 quoted-printable
step: encode 1 identity

== no such encoding
fault: encode 1 7bit
fault: encode 1 QP
fault: encode 1 Quoted-Printable
fault: encode 1 other
fault: encode 1\x20
fault: encode 1

== a space too many
fault: encode  1 qp
fault: encode 1  qp
fault: encode 1 qp\x20
";

#[test]
fn lines_name_an_encoding_or_none(rt: HostRuntime) -> Result<(), Fail> {
    check_lines(&rt, rt.alloc(), LINES, 0)
}

/// Runs in which the lines of pieces end as those of the message do.
const TURNED: &str = r#"
== a body
message: A: 1\r\n\r\nx\r\n
script: body 1 1\n
piece: a\nb\r\nc
output: A: 1\r\n\r\na\r\nb\r\nc
status: Well

== carriage returns before a line feed go, in a message with line feeds
message: A: 1\n\nx\n
script: body 1 1\n
piece: one\r\r\ntwo\rthree\r\r\r\n\r\n\r
output: A: 1\n\none\ntwo\rthree\n\n\r
status: Well

== they stay in a message with CR LF
message: A: 1\r\n\r\nx\r\n
script: body 1 1\n
piece: one\r\r\n
output: A: 1\r\n\r\none\r\r\n
status: Well

== a folded field, in a message with line feeds
message: A: 1\n\nx\n
script: put-piece 1 1\n
piece: B: 1\r\n 2\r\n
output: A: 1\nB: 1\n 2\n\nx\n
status: Well

== a part
message: Content-Type: multipart/mixed; boundary=b\r\n\r\n--b\r\n\r\none\r\n--b--\r\n
script: append 1 1\n
piece: \ntwo\n
output: Content-Type: multipart/mixed; boundary=b\r\n\r\n--b\r\n\r\none\r\n--b\r\n\r\ntwo\r\n--b--\r\n
status: Well

== a content, before it is encoded
message: A: 1\r\nContent-Transfer-Encoding: quoted-printable\r\n\r\nx\r\n
script: content 1 1\n
piece: b=\n
output: A: 1\r\nContent-Transfer-Encoding: quoted-printable\r\n\r\nb=3D\r\n
status: Well

== a content in base64 stays as it is
message: A: 1\r\nContent-Transfer-Encoding: base64\r\n\r\nYQ==\r\n
script: content 1 1\n
piece: b\n
output: A: 1\r\nContent-Transfer-Encoding: base64\r\n\r\nYgo=
status: Well

== a text that is attached
message: Content-Type: multipart/mixed; boundary=b\r\n\r\n--b\r\n\r\none\r\n--b--\r\n
script: attach 1 TEXT/x-c n.c 1\n
piece: a\n
output: Content-Type: multipart/mixed; boundary=b\r\n\r\n--b\r\n\r\none\r\n--b\r\nContent-Type: TEXT/x-c; name="n.c"\r\nContent-Disposition: attachment; filename="n.c"\r\nContent-Transfer-Encoding: quoted-printable\r\n\r\na\r\n\r\n--b--\r\n
status: Well

== another file that is attached stays as it is
message: Content-Type: multipart/mixed; boundary=b\r\n\r\n--b\r\n\r\none\r\n--b--\r\n
script: attach 1 image/gif n.gif 1\n
piece: a\n
output: Content-Type: multipart/mixed; boundary=b\r\n\r\n--b\r\n\r\none\r\n--b\r\nContent-Type: image/gif; name="n.gif"\r\nContent-Disposition: attachment; filename="n.gif"\r\nContent-Transfer-Encoding: base64\r\n\r\nYQo=\r\n--b--\r\n
status: Well
"#;

fn check_turned(rt: &impl Abort, alloc: Global, row: &Row, size: usize) -> Result<(), Fail> {
    let script = Script {
        text: row.bytes("script"),
        as_one: false,
    };
    let texts = pieces_of(alloc, row)?;
    let pieces = Pieces {
        texts: &texts,
        turned: true,
    };
    let mut input = Text::new(row.bytes("message"), size);
    let mut out = Page::new(alloc, size)?;
    let mut err = Page::new(alloc, size)?;
    let mut jout = Page::new(alloc, size)?;
    let journal = Journal::Off;
    let done = try_edit(
        alloc, &mut input, &mut out, &mut err, script, pieces, journal, &mut jout,
    );
    let status = match done {
        Ok(status) => status,
        Err(cause) => give_up(&mut err, cause),
    };
    check_left(rt, alloc, row, status, &out, &err)
}

#[test]
fn pieces_get_the_endings_of_the_message(rt: HostRuntime) -> Result<(), Fail> {
    for row in &rows(rt.alloc(), TURNED)? {
        for size in SIZES {
            check_turned(&rt, rt.alloc(), row, size)?;
        }
    }
    Ok(())
}
