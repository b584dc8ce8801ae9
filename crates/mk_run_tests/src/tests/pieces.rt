//! Scripts that put pieces into a message, and take parts out.

use super::{check_lines, check_rows};
use std::test::Fail;

const ROWS: &str = r#"
== a part before the first
message: Subject: t\nContent-Type: multipart/mixed; boundary="b"\n\npre\n--b\n\none\n--b \t\nContent-Type: text/html\n\ntwo\n--b--\nepi\n
script: insert 1 0 1
piece: Content-Transfer-Encoding: base64\n\naGk=\n
output: Subject: t\nContent-Type: multipart/mixed; boundary="b"\n\npre\n--b\nContent-Transfer-Encoding: base64\n\naGk=\n--b\n\none\n--b \t\nContent-Type: text/html\n\ntwo\n--b--\nepi\n
status: Well

== a part between two
message: Subject: t\nContent-Type: multipart/mixed; boundary="b"\n\npre\n--b\n\none\n--b \t\nContent-Type: text/html\n\ntwo\n--b--\nepi\n
script: insert 1 1 1
piece: Content-Transfer-Encoding: base64\n\naGk=\n
output: Subject: t\nContent-Type: multipart/mixed; boundary="b"\n\npre\n--b\n\none\n--b\nContent-Transfer-Encoding: base64\n\naGk=\n--b \t\nContent-Type: text/html\n\ntwo\n--b--\nepi\n
status: Well

== a part after the last
message: Subject: t\nContent-Type: multipart/mixed; boundary="b"\n\npre\n--b\n\none\n--b \t\nContent-Type: text/html\n\ntwo\n--b--\nepi\n
script: insert 1 2 1
piece: Content-Transfer-Encoding: base64\n\naGk=\n
output: Subject: t\nContent-Type: multipart/mixed; boundary="b"\n\npre\n--b\n\none\n--b \t\nContent-Type: text/html\n\ntwo\n--b\nContent-Transfer-Encoding: base64\n\naGk=\n--b--\nepi\n
status: Well

== there is no such place among the parts
message: Subject: t\nContent-Type: multipart/mixed; boundary="b"\n\npre\n--b\n\none\n--b \t\nContent-Type: text/html\n\ntwo\n--b--\nepi\n
script: insert 1 3 1
piece: Content-Transfer-Encoding: base64\n\naGk=\n
output: Subject: t\nContent-Type: multipart/mixed; boundary="b"\n\npre\n--b\n\none\n--b \t\nContent-Type: text/html\n\ntwo\n--b--\nepi\n
errors: line 1: BadPlace\n
status: Refused

== a piece with an outer close line
message: Subject: t\nContent-Type: multipart/mixed; boundary="b"\n\npre\n--b\n\none\n--b \t\nContent-Type: text/html\n\ntwo\n--b--\nepi\n
script: insert 1 1 1
piece: Content-Type: multipart/mixed; boundary=c\n\n--c\n\n--b--\n--c--\n
output: Subject: t\nContent-Type: multipart/mixed; boundary="b"\n\npre\n--b\n\none\n--b \t\nContent-Type: text/html\n\ntwo\n--b--\nepi\n
errors: line 1: HoldsBoundary 1\n
status: Refused

== a delimiter that is one of the multipart around
message: Content-Type: multipart/mixed; boundary="b"\n\n--b\nContent-Type: multipart/mixed; boundary="b"\n\n--b\n\nx\n--b--\n
script: insert 1.1 0 1
piece: Content-Transfer-Encoding: base64\n\naGk=\n
output: Content-Type: multipart/mixed; boundary="b"\n\n--b\nContent-Type: multipart/mixed; boundary="b"\n\n--b\n\nx\n--b--\n
errors: line 1: HoldsBoundary 1\n
status: Refused

== no part goes after an open line
message: Content-Type: multipart/mixed; boundary="b"\n\n--b\n\nx\ny
script: insert 1 1 1
piece: Content-Transfer-Encoding: base64\n\naGk=\n
output: Content-Type: multipart/mixed; boundary="b"\n\n--b\n\nx\ny
errors: line 1: OpenLine\n
status: Refused

== a part goes and comes back
message: Content-Type: multipart/mixed; boundary="b"\n\n--b\n\nx\n--b--\n
script: remove 1.1\nundo\nremove 1.1
output: Content-Type: multipart/mixed; boundary="b"\n\n--b--\n
status: Well

== a body after fields alone
message: A: b\n
script: body 1 1
piece: hi\n
output: A: b\n\nhi\n
status: Well

== the reasons of the sections
message: Subject: t\nContent-Type: multipart/mixed; boundary="b"\n\npre\n--b\n\none\n--b \t\nContent-Type: text/html\n\ntwo\n--b--\nepi\n
script: insert 1.1 0 1\nbody 1 1\nremove 1\nremove 1.3
piece: Content-Transfer-Encoding: base64\n\naGk=\n
output: Subject: t\nContent-Type: multipart/mixed; boundary="b"\n\npre\n--b\n\none\n--b \t\nContent-Type: text/html\n\ntwo\n--b--\nepi\n
errors: line 1: NotMultipart\nline 2: NotLeaf\nline 3: NotPart\nline 4: NoSuchSection\n
status: Refused

== a section in the place of a part
message: Subject: t\nContent-Type: multipart/mixed; boundary="b"\n\npre\n--b\n\none\n--b \t\nContent-Type: text/html\n\ntwo\n--b--\nepi\n
script: replace 1.2 1
piece: Content-Transfer-Encoding: base64\n\naGk=\n
output: Subject: t\nContent-Type: multipart/mixed; boundary="b"\n\npre\n--b\n\none\n--b \t\nContent-Transfer-Encoding: base64\n\naGk=\n--b--\nepi\n
status: Well

== the first part goes
message: Subject: t\nContent-Type: multipart/mixed; boundary="b"\n\npre\n--b\n\none\n--b \t\nContent-Type: text/html\n\ntwo\n--b--\nepi\n
script: remove 1.1
output: Subject: t\nContent-Type: multipart/mixed; boundary="b"\n\npre\n--b \t\nContent-Type: text/html\n\ntwo\n--b--\nepi\n
status: Well

== an open line of a piece before another
message: Subject: t\nContent-Type: multipart/mixed; boundary="b"\n\npre\n--b\n\none\n--b \t\nContent-Type: text/html\n\ntwo\n--b--\nepi\n
script: insert 1 0 1
piece: \nx\r
output: Subject: t\nContent-Type: multipart/mixed; boundary="b"\n\npre\n--b\n\none\n--b \t\nContent-Type: text/html\n\ntwo\n--b--\nepi\n
errors: line 1: OpenLine\n
status: Refused

== an open line of a piece at the end
message: Content-Type: multipart/mixed; boundary="b"\n\n--b\n\ny\n
script: insert 1 1 1
piece: \nx\r
output: Content-Type: multipart/mixed; boundary="b"\n\n--b\n\ny\n--b\n\nx\r
status: Well

== pieces are named by number
message: A: b\n\nx\n
script: body 1 2\nreplace 1 1
piece: C: d\n
piece: y\n
output: C: d\n
status: Well

== there is no piece of the number
message: A: b\n\nx\n
script: body 1 1\nbody 1 3
piece: C: d\n
piece: y\n
errors: script: line 2: syntax\n
status: Usage

== a leaf wrapped
message: hello\n
script: wrap 1 mixed b
output: MIME-Version: 1.0\nContent-Type: multipart/mixed; boundary="b"\n\n--b\n\nhello\n\n--b--\n
status: Well

== a line of the body would be a delimiter
message: x\n--b\n
script: wrap 1 mixed b
output: x\n--b\n
errors: line 1: HoldsBoundary 1\n
status: Refused

== a carriage return would meet the made ending
message: x\r
script: wrap 1 mixed b
output: x\r
errors: line 1: Recut\n
status: Refused

== an open field would not be the last line
message: A: b
script: wrap 1 mixed b
output: A: b
errors: line 1: OpenLine\n
status: Refused

== a carriage return in a text of carriage returns and line feeds
message: A: b\r\n\r\nx\r
script: wrap 1 mixed z
output: A: b\r\nMIME-Version: 1.0\r\nContent-Type: multipart/mixed; boundary="z"\r\n\r\n--z\r\n\r\nx\r\r\n--z--\r\n
status: Well

== an invalid boundary, and an invalid subtype
message: x\n
script: wrap 1 mixed b"\nwrap 1 a/b c\nwrap 1 mixed\x20
output: x\n
errors: line 1: BadBoundary\nline 2: BadSubtype\nline 3: BadBoundary\n
status: Refused
"#;

#[test]
fn pieces_are_put_in_place(rt: HostRuntime) -> Result<(), Fail> {
    check_rows(&rt, rt.alloc(), ROWS)
}

/// Lines where there are two pieces.
const LINES: &str = r"
== a piece is named by its number
step: body 1 1
step: replace 1.2 2

== a place and a piece
step: insert 1 0 1
step: insert 1.4294967295 4294967295 2

== a path alone
step: remove 1
step: remove 7.1

== a boundary is all that follows
step: wrap 1 mixed b
step: wrap 1 mixed\x20
step: wrap 1 mixed b c

== something is missing
fault: body 1
fault: insert 1 1
fault: remove
fault: wrap 1 mixed
fault: wrap 1

== there is no such piece
fault: body 1 0
fault: body 1 3
fault: insert 1 0 3

== numbers that aren't plain ones
fault: body 1 01
fault: replace 1 x
fault: insert 1 01 1
fault: insert 1 4294967296 1
fault: remove 0

== a space too many
fault: body 1  1
fault: body 1 1\x20
fault: remove 1\x20
fault: wrap 1  b
";

#[test]
fn lines_with_pieces_are_words_or_not(rt: HostRuntime) -> Result<(), Fail> {
    check_lines(&rt, rt.alloc(), LINES, 2)
}
