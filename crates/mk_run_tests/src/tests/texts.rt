//! Words of scripts that put texts into a message: in a charset, and as parts that hold nothing else. What comes of a run is
//! worked out by hand from RFC 2045, 2046 and 6657.

use super::devices::{Page, Text};
use super::{check_lines, check_rows};
use mk_run::{Journal, Pieces, Script, try_edit};
use std::alloc::Global;
use std::test::Fail;

const APPENDED: &str = r#"
== a text whose first line looks like a field is the content
message: Content-Type: multipart/mixed; boundary=b\n\n--b\n\none\n--b--\n
script: append-text 1 1\n
piece: Note: two\nthree\n
output: Content-Type: multipart/mixed; boundary=b\n\n--b\n\none\n--b\n\nNote: two\nthree\n\n--b--\n
status: Well

== a text that ends in a CR keeps it
message: Content-Type: multipart/mixed; boundary=b\n\n--b\n\none\n--b--\n
script: append-text 1 1\n
piece: two\r
output: Content-Type: multipart/mixed; boundary=b\n\n--b\n\none\n--b\n\ntwo\r\r\n--b--\n
status: Well

== no line follows the last part
message: Content-Type: multipart/mixed; boundary=b\r\n\r\n--b\r\n\r\none
script: append-text 1 1\n
piece: two
output: Content-Type: multipart/mixed; boundary=b\r\n\r\n--b\r\n\r\none\r\n--b\r\n\r\ntwo
status: Well

== an empty text
message: Content-Type: multipart/mixed; boundary=b\n\n--b\n\none\n--b--\n
script: append-text 1 1\n
piece: 
output: Content-Type: multipart/mixed; boundary=b\n\n--b\n\none\n--b\n\n\n--b--\n
status: Well

== a text in a multipart without parts, where nothing follows
message: Content-Type: multipart/mixed; boundary=b\n\npreamble\n
script: append-text 1 1\n
piece: two
output: Content-Type: multipart/mixed; boundary=b\n\npreamble\n--b\n\ntwo
status: Well

== a text beside a text, one after both, and one that has no place
message: A: 1\n\none\n
script: append-text 1 1\nattach-text 1 text/plain 1\nappend-text 2 1\n
piece: two\n
output: A: 1\nMIME-Version: 1.0\nContent-Type: multipart/mixed; boundary="=_146ee66050d3a2a407d8a28c"\n\n--=_146ee66050d3a2a407d8a28c\n\none\n\n--=_146ee66050d3a2a407d8a28c\n\ntwo\n\n--=_146ee66050d3a2a407d8a28c\nContent-Type: text/plain\nContent-Transfer-Encoding: quoted-printable\n\ntwo\n\n--=_146ee66050d3a2a407d8a28c--\n
errors: line 3: NoSuchSection\n
status: Refused

== a text holds a delimiter of the multipart
message: Content-Type: multipart/mixed; boundary=b\n\n--b\n\none\n--b--\n
script: append-text 1 1\nattach-text 1 text/plain 1\n
piece: --b\n
output: Content-Type: multipart/mixed; boundary=b\n\n--b\n\none\n--b\nContent-Type: text/plain\nContent-Transfer-Encoding: quoted-printable\n\n=2D-b\n\n--b--\n
errors: line 1: HoldsBoundary 1\n
status: Refused
"#;

const ATTACHED: &str = r#"
== a text in ASCII names no charset
message: Content-Type: multipart/mixed; boundary=b\n\n--b\n\none\n--b--\n
script: attach-text 1 text/plain 1\n
piece: two\n
output: Content-Type: multipart/mixed; boundary=b\n\n--b\n\none\n--b\nContent-Type: text/plain\nContent-Transfer-Encoding: quoted-printable\n\ntwo\n\n--b--\n
status: Well

== a text in UTF-8 names its charset
message: Content-Type: multipart/mixed; boundary=b\r\n\r\n--b\r\n\r\none\r\n--b--\r\n
script: attach-text 1 text/html 1\n
piece: \xc3\xa9
output: Content-Type: multipart/mixed; boundary=b\r\n\r\n--b\r\n\r\none\r\n--b\r\nContent-Type: text/html; charset=utf-8\r\nContent-Transfer-Encoding: quoted-printable\r\n\r\n=C3=A9\r\n--b--\r\n
status: Well

== what is neither, what isn't a text, and what isn't a type
message: Content-Type: multipart/mixed; boundary=b\n\n--b\n\none\n--b--\n
script: attach-text 1 text/plain 1\nattach-text 1 image/gif 1\nattach-text 1 text/ 1\n
piece: \xe9
output: Content-Type: multipart/mixed; boundary=b\n\n--b\n\none\n--b--\n
errors: line 1: BadCharset\nline 2: BadType\nline 3: BadCharset\n
status: Refused

== a type that can't be written
message: Content-Type: multipart/mixed; boundary=b\n\n--b\n\none\n--b--\n
script: attach-text 1 text/ 1\n
piece: x
output: Content-Type: multipart/mixed; boundary=b\n\n--b\n\none\n--b--\n
errors: line 1: BadType\n
status: Refused
"#;

const CONTENTS: &str = r#"
== letters that a charset can't have
message: Content-Type: multipart/mixed; boundary=b\n\n--b\n\none\n--b\nContent-Type: text/html; charset=US-ASCII\n\ntwo\n--b\nContent-Type: text/plain; charset=UTF-8\n\nthree\n--b--\n
script: content 1.1 1\ncontent 1.2 1\ncontent 1.3 1\n
piece: \xe9
output: Content-Type: multipart/mixed; boundary=b\n\n--b\n\none\n--b\nContent-Type: text/html; charset=US-ASCII\n\ntwo\n--b\nContent-Type: text/plain; charset=UTF-8\n\nthree\n--b--\n
errors: line 1: BadCharset\nline 2: BadCharset\nline 3: BadCharset\n
status: Refused

== letters that a charset may have, or of which nothing is known
message: Content-Type: multipart/mixed; boundary=b\n\n--b\nContent-Type: text/html\n\n1\n--b\nContent-Type: text/plain; charset=koi8-r\n\n2\n--b\nContent-Type: image/gif; charset=utf-8\n\n3\n--b--\n
script: content 1.1 1\ncontent 1.2 1\ncontent 1.3 1\n
piece: \xe9
output: Content-Type: multipart/mixed; boundary=b\n\n--b\nContent-Type: text/html\n\n\xe9\n--b\nContent-Type: text/plain; charset=koi8-r\n\n\xe9\n--b\nContent-Type: image/gif; charset=utf-8\n\n\xe9\n--b--\n
status: Well

== a charset is put, too
message: A: 1\r\n\r\nx\r\n
script: content --charset utf-8 1 1\n
piece: \xc3\xa9
output: A: 1\r\nContent-Type: text/plain; charset=utf-8\r\n\r\n\xc3\xa9
status: Well

== another charset takes its place, and the other parameters stay
message: Content-Type: Text/Plain; Format=flowed; charset=us-ascii; name="a \\"b\\".txt" (a comment)\nContent-Transfer-Encoding: quoted-printable\n\nx\n
script: content --charset utf-8 1 1\n
piece: \xc3\xa9\n
output: Content-Type: text/plain; format=flowed; name="a \\"b\\".txt"; charset=utf-8\nContent-Transfer-Encoding: quoted-printable\n\n=C3=A9\n
status: Well

== no text in the charset, no charset, no text, no leaf, and no section
message: Content-Type: multipart/mixed; boundary=b\n\n--b\n\none\n--b\nContent-Type: image/gif\n\ntwo\n--b--\n
script: content --charset utf-8 1.1 1\ncontent --charset a/b 1.1 1\ncontent --charset utf-8 1.2 1\ncontent --charset utf-8 1 1\ncontent --charset utf-8 1.3 1\n
piece: \xe9
output: Content-Type: multipart/mixed; boundary=b\n\n--b\n\none\n--b\nContent-Type: image/gif\n\ntwo\n--b--\n
errors: line 1: BadCharset\nline 2: BadCharset\nline 3: BadType\nline 4: NotLeaf\nline 5: NoSuchSection\n
status: Refused

== it is one step
message: A: 1\n\nx\n
script: content --charset utf-8 1 1\nundo\nundo\n
piece: y\n
output: A: 1\n\nx\n
errors: line 3: NothingToUndo\n
status: Refused
"#;

const EIGHT_BIT: &str = r#"
== a NUL doesn't stand unencoded
message: Content-Transfer-Encoding: base64\n\nAA==\n
script: encode 1 8bit\nencode 1 qp\n
output: Content-Transfer-Encoding: quoted-printable\n\n=00
errors: line 1: BinaryContent\n
status: Refused
"#;

#[test]
fn texts_are_appended_as_they_are(rt: HostRuntime) -> Result<(), Fail> {
    check_rows(&rt, rt.alloc(), APPENDED)
}

#[test]
fn texts_are_attached_in_their_charset(rt: HostRuntime) -> Result<(), Fail> {
    check_rows(&rt, rt.alloc(), ATTACHED)
}

#[test]
fn contents_fit_their_charset(rt: HostRuntime) -> Result<(), Fail> {
    check_rows(&rt, rt.alloc(), CONTENTS)
}

#[test]
fn binary_contents_stay_encoded(rt: HostRuntime) -> Result<(), Fail> {
    check_rows(&rt, rt.alloc(), EIGHT_BIT)
}

/// The longest line that stands unencoded, in bytes without its ending (RFC 2045, 2.8).
const LONGEST: usize = 998;

/// More bytes than a device is given at once.
const WHOLE: usize = 4_096;

// What is reported where a content of one line, this many bytes long, is to stand unencoded.
fn reported(alloc: Global, length: usize) -> Result<Vec<u8>, Fail> {
    let mut message = Vec::from_slice(alloc, b"A: 1\n\n")?;
    message.resize(message.len().saturating_add(length), b'x')?;
    message.push(b'\n')?;
    let script = Script {
        text: b"encode 1 8bit\n",
        as_one: false,
    };
    let pieces = Pieces::as_given(&[]);
    let mut input = Text::new(&message, WHOLE);
    let mut out = Page::new(alloc, WHOLE)?;
    let mut err = Page::new(alloc, WHOLE)?;
    let mut jout = Page::new(alloc, WHOLE)?;
    let journal = Journal::Off;
    let _status = try_edit(
        alloc, &mut input, &mut out, &mut err, script, pieces, journal, &mut jout,
    );
    Ok(Vec::from_slice(alloc, err.bytes())?)
}

#[test]
fn long_lines_stay_encoded(rt: HostRuntime) -> Result<(), Fail> {
    assert_eq!(rt; reported(rt.alloc(), LONGEST)?.as_slice(), b"".as_slice());
    let too_long = reported(rt.alloc(), LONGEST + 1)?;
    assert_eq!(rt; too_long.as_slice(), b"line 1: BinaryContent\n".as_slice());
    Ok(())
}

/// Lines with one piece.
const LINES: &str = r"
== a path and a piece, with a type or a charset
step: append-text 1 1
step: attach-text 1.2 text/plain 1
step: content --charset utf-8 1.2 1

== a name with its colon, or without it
step: drop 1 Subject:
step: drop 1 Subject
step: drop 1 X-Y_Z:

== what can't be a name
fault: drop 1 Subject::
fault: drop 1 :
fault: drop 1 A:B
fault: drop 1 \xc3\xa9

== something is left out, or stands twice
fault: append-text 1
fault: append-text 1 1 1
fault: append-text 1 2
fault: attach-text 1 text/plain
fault: attach-text 1 text/plain n 1
fault: attach-text 1  1
fault: content --charset utf-8 1
fault: content --charset 1 1
fault: content --charset  1 1
fault: content 1 --charset utf-8 1
";

#[test]
fn lines_give_a_text_or_none(rt: HostRuntime) -> Result<(), Fail> {
    check_lines(&rt, rt.alloc(), LINES, 1)
}
