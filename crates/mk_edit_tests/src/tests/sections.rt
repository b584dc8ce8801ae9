//! Bodies and sections in the place of others. What comes of an edit is worked out by hand.

use super::checks::check_rows;
use std::test::Fail;

const ROWS: &str = r#"
== a body with a made separator
message: A: b\n
at: 1
edit: body
with: hi\n
gives: A: b\n\nhi\n

== a body goes
message: A: b\n\nx\n
at: 1
edit: body
with:
gives: A: b\n\n

== an open body in an empty message
message:
at: 1
edit: body
with: hi
gives: \nhi

== a made separator ends as the message does
message: A: b\r\nx
at: 1
edit: body
with: hi\n
gives: A: b\r\n\r\nhi\n

== the envelope tells how the message ends
message: From a\r\nA: b\n
at: 1
edit: body
with: hi\n
gives: From a\r\nA: b\n\r\nhi\n

== a separator stays as it is
message: A: b\n\r\nx\n
at: 1
edit: body
with: A: b\n
gives: A: b\n\r\nA: b\n

== a body in place of one without a separator
message: x\ny\n
at: 1
edit: body
with: z\n
gives: \nz\n

== no separator goes after an open field
message: A: b
at: 1
edit: body
with:
refused: OpenLine

== the body of a part
message: Subject: t\nContent-Type: multipart/mixed; boundary="b"\n\npre\n--b\n\none\n--b \t\nContent-Type: text/html\n\ntwo\n--b--\nepi\n
at: 1.1
edit: body
with: hi\n
gives: Subject: t\nContent-Type: multipart/mixed; boundary="b"\n\npre\n--b\n\nhi\n--b \t\nContent-Type: text/html\n\ntwo\n--b--\nepi\n

== an open body before other lines
message: Subject: t\nContent-Type: multipart/mixed; boundary="b"\n\npre\n--b\n\none\n--b \t\nContent-Type: text/html\n\ntwo\n--b--\nepi\n
at: 1.1
edit: body
with: hi
refused: OpenLine

== an open body of the last part
message: Content-Type: multipart/mixed; boundary="b"\n\n--b\n\nx\n
at: 1.1
edit: body
with: y
gives: Content-Type: multipart/mixed; boundary="b"\n\n--b\n\ny

== a line of a body is a close line around
message: Subject: t\nContent-Type: multipart/mixed; boundary="b"\n\npre\n--b\n\none\n--b \t\nContent-Type: text/html\n\ntwo\n--b--\nepi\n
at: 1.1
edit: body
with: x\n--b--\n
refused: HoldsBoundary { level: 1 }

== an open line before a delimiter around
message: Subject: t\nContent-Type: multipart/mixed; boundary="b"\n\npre\n--b\n\none\n--b \t\nContent-Type: text/html\n\ntwo\n--b--\nepi\n
at: 1.1
edit: body
with: --b
refused: OpenLine

== a delimiter of the inner multipart
message: Content-Type: multipart/mixed; boundary="b"\n\n--b\nContent-Type: multipart/mixed; boundary=c\n\n--c\n\nx\n--c--\n--b--\n
at: 1.1.1
edit: body
with: --c \nx\n
refused: HoldsBoundary { level: 2 }

== a delimiter of the outer comes before one of the inner
message: Content-Type: multipart/mixed; boundary="b"\n\n--b\nContent-Type: multipart/mixed; boundary=c\n\n--c\n\nx\n--c--\n--b--\n
at: 1.1.1
edit: body
with: --c\n--b\n
refused: HoldsBoundary { level: 1 }

== a line that only begins as a delimiter
message: Subject: t\nContent-Type: multipart/mixed; boundary="b"\n\npre\n--b\n\none\n--b \t\nContent-Type: text/html\n\ntwo\n--b--\nepi\n
at: 1.1
edit: body
with: --bx\n --b\n
gives: Subject: t\nContent-Type: multipart/mixed; boundary="b"\n\npre\n--b\n\n--bx\n --b\n--b \t\nContent-Type: text/html\n\ntwo\n--b--\nepi\n

== the body of a multipart
message: Subject: t\nContent-Type: multipart/mixed; boundary="b"\n\npre\n--b\n\none\n--b \t\nContent-Type: text/html\n\ntwo\n--b--\nepi\n
at: 1
edit: body
with: x\n
refused: NotLeaf

== the body of a message
message: Content-Type: message/rfc822\n\nA: b\n\nx\n
at: 1
edit: body
with: x\n
refused: NotLeaf

== the body of no section
message: Subject: t\nContent-Type: multipart/mixed; boundary="b"\n\npre\n--b\n\none\n--b \t\nContent-Type: text/html\n\ntwo\n--b--\nepi\n
at: 1.3
edit: body
with: x\n
refused: NoSuchSection

== the body of a message inside
message: Content-Type: message/rfc822\n\nA: b\n\nx\n
at: 1.1
edit: body
with: y
gives: Content-Type: message/rfc822\n\nA: b\n\ny

== the header around would take the made separator
message: Content-Type: message/rfc822\nx\n
at: 1.1
edit: body
with: y\n
refused: Recut

== another part
message: Subject: t\nContent-Type: multipart/mixed; boundary="b"\n\npre\n--b\n\none\n--b \t\nContent-Type: text/html\n\ntwo\n--b--\nepi\n
at: 1.2
edit: section
with: Content-Transfer-Encoding: base64\n\naGk=\n
gives: Subject: t\nContent-Type: multipart/mixed; boundary="b"\n\npre\n--b\n\none\n--b \t\nContent-Transfer-Encoding: base64\n\naGk=\n--b--\nepi\n

== another message
message: A: b\n
at: 1
edit: section
with: x\n
gives: x\n

== a message without a line
message: A: b\n
at: 1
edit: section
with:
gives:

== a part without a line
message: Subject: t\nContent-Type: multipart/mixed; boundary="b"\n\npre\n--b\n\none\n--b \t\nContent-Type: text/html\n\ntwo\n--b--\nepi\n
at: 1.1
edit: section
with:
gives: Subject: t\nContent-Type: multipart/mixed; boundary="b"\n\npre\n--b\n--b \t\nContent-Type: text/html\n\ntwo\n--b--\nepi\n

== the first line would be an envelope
message: A: b\n
at: 1
edit: section
with: From x\n
refused: Recut

== an envelope stays
message: From a\nA: b\n
at: 1
edit: section
with: From x\n
gives: From a\nFrom x\n

== an open part before other lines
message: Subject: t\nContent-Type: multipart/mixed; boundary="b"\n\npre\n--b\n\none\n--b \t\nContent-Type: text/html\n\ntwo\n--b--\nepi\n
at: 1.1
edit: section
with: x
refused: OpenLine

== an open last part
message: Content-Type: multipart/mixed; boundary="b"\n\n--b\n\nx\n
at: 1.1
edit: section
with: A: b
gives: Content-Type: multipart/mixed; boundary="b"\n\n--b\nA: b

== a part that closes the multipart around
message: Subject: t\nContent-Type: multipart/mixed; boundary="b"\n\npre\n--b\n\none\n--b \t\nContent-Type: text/html\n\ntwo\n--b--\nepi\n
at: 1.1
edit: section
with: Content-Type: multipart/mixed; boundary=c\n\n--c\n\n--b--\n--c--\n
refused: HoldsBoundary { level: 1 }

== lines of the old boundary of the section
message: Subject: t\nContent-Type: multipart/mixed; boundary="b"\n\npre\n--b\n\none\n--b \t\nContent-Type: text/html\n\ntwo\n--b--\nepi\n
at: 1
edit: section
with: x\n--b\n
gives: x\n--b\n

== a leaf becomes a multipart
message: Subject: t\nContent-Type: multipart/mixed; boundary="b"\n\npre\n--b\n\none\n--b \t\nContent-Type: text/html\n\ntwo\n--b--\nepi\n
at: 1.1
edit: section
with: Content-Type: multipart/mixed; boundary=c\n\n--c\n\nx\n
gives: Subject: t\nContent-Type: multipart/mixed; boundary="b"\n\npre\n--b\nContent-Type: multipart/mixed; boundary=c\n\n--c\n\nx\n--b \t\nContent-Type: text/html\n\ntwo\n--b--\nepi\n

== a part of a digest is read as a message
message: Content-Type: multipart/digest; boundary=b\n\n--b\n\nSubject: s\n\nx\n--b--\n
at: 1.1
edit: section
with: \nA: b\n
gives: Content-Type: multipart/digest; boundary=b\n\n--b\n\nA: b\n--b--\n

== the message inside a message
message: Content-Type: message/rfc822\n\nA: b\n\nx\n
at: 1.1
edit: section
with: \x20x\n
gives: Content-Type: message/rfc822\n\n x\n

== the header around would take the first field
message: Content-Type: message/rfc822\nx\n
at: 1.1
edit: section
with: A: b\n
refused: Recut

== the header around ends before another line
message: Content-Type: message/rfc822\nx\n
at: 1.1
edit: section
with: y\n
gives: Content-Type: message/rfc822\ny\n

== no section to be replaced
message: Subject: t\nContent-Type: multipart/mixed; boundary="b"\n\npre\n--b\n\none\n--b \t\nContent-Type: text/html\n\ntwo\n--b--\nepi\n
at: 2
edit: section
with:
refused: NoSuchSection
"#;

#[test]
fn bodies_and_sections_are_set(rt: HostRuntime) -> Result<(), Fail> {
    check_rows(&rt, rt.alloc(), ROWS, 37)
}
