//! Parts that are put in or taken out. What comes of an edit is worked out by hand.

use super::checks::check_rows;
use std::test::Fail;

const ROWS: &str = r#"
== a part before the first
message: Subject: t\nContent-Type: multipart/mixed; boundary="b"\n\npre\n--b\n\none\n--b \t\nContent-Type: text/html\n\ntwo\n--b--\nepi\n
at: 1
edit: insert
place: 0
with: Content-Transfer-Encoding: base64\n\naGk=\n
gives: Subject: t\nContent-Type: multipart/mixed; boundary="b"\n\npre\n--b\nContent-Transfer-Encoding: base64\n\naGk=\n--b\n\none\n--b \t\nContent-Type: text/html\n\ntwo\n--b--\nepi\n

== a part between two
message: Subject: t\nContent-Type: multipart/mixed; boundary="b"\n\npre\n--b\n\none\n--b \t\nContent-Type: text/html\n\ntwo\n--b--\nepi\n
at: 1
edit: insert
place: 1
with: Content-Transfer-Encoding: base64\n\naGk=\n
gives: Subject: t\nContent-Type: multipart/mixed; boundary="b"\n\npre\n--b\n\none\n--b\nContent-Transfer-Encoding: base64\n\naGk=\n--b \t\nContent-Type: text/html\n\ntwo\n--b--\nepi\n

== a part after the last
message: Subject: t\nContent-Type: multipart/mixed; boundary="b"\n\npre\n--b\n\none\n--b \t\nContent-Type: text/html\n\ntwo\n--b--\nepi\n
at: 1
edit: insert
place: 2
with: Content-Transfer-Encoding: base64\n\naGk=\n
gives: Subject: t\nContent-Type: multipart/mixed; boundary="b"\n\npre\n--b\n\none\n--b \t\nContent-Type: text/html\n\ntwo\n--b\nContent-Transfer-Encoding: base64\n\naGk=\n--b--\nepi\n

== fewer parts than are to stand before
message: Subject: t\nContent-Type: multipart/mixed; boundary="b"\n\npre\n--b\n\none\n--b \t\nContent-Type: text/html\n\ntwo\n--b--\nepi\n
at: 1
edit: insert
place: 3
with: Content-Transfer-Encoding: base64\n\naGk=\n
refused: BadPlace

== a part in a leaf
message: Subject: t\nContent-Type: multipart/mixed; boundary="b"\n\npre\n--b\n\none\n--b \t\nContent-Type: text/html\n\ntwo\n--b--\nepi\n
at: 1.1
edit: insert
place: 0
with: Content-Transfer-Encoding: base64\n\naGk=\n
refused: NotMultipart

== a part in a message
message: Content-Type: message/rfc822\n\nA: b\n\nx\n
at: 1
edit: insert
place: 0
with: Content-Transfer-Encoding: base64\n\naGk=\n
refused: NotMultipart

== a part in no section
message: Subject: t\nContent-Type: multipart/mixed; boundary="b"\n\npre\n--b\n\none\n--b \t\nContent-Type: text/html\n\ntwo\n--b--\nepi\n
at: 1.3
edit: insert
place: 0
with: Content-Transfer-Encoding: base64\n\naGk=\n
refused: NoSuchSection

== a part without a line between two
message: Subject: t\nContent-Type: multipart/mixed; boundary="b"\n\npre\n--b\n\none\n--b \t\nContent-Type: text/html\n\ntwo\n--b--\nepi\n
at: 1
edit: insert
place: 1
with:
gives: Subject: t\nContent-Type: multipart/mixed; boundary="b"\n\npre\n--b\n\none\n--b\n--b \t\nContent-Type: text/html\n\ntwo\n--b--\nepi\n

== a part holds a close line of the multipart
message: Subject: t\nContent-Type: multipart/mixed; boundary="b"\n\npre\n--b\n\none\n--b \t\nContent-Type: text/html\n\ntwo\n--b--\nepi\n
at: 1
edit: insert
place: 1
with: Content-Type: multipart/mixed; boundary=c\n\n--c\n\n--b--\n--c--\n
refused: HoldsBoundary { level: 1 }

== a made delimiter is one of the multipart around
message: Content-Type: multipart/mixed; boundary="b"\n\n--b\nContent-Type: multipart/mixed; boundary="b"\n\n--b\n\nx\n--b--\n
at: 1.1
edit: insert
place: 0
with: Content-Transfer-Encoding: base64\n\naGk=\n
refused: HoldsBoundary { level: 1 }

== a part holds a delimiter of the multipart itself
message: Content-Type: multipart/mixed; boundary="b"\n\n--b\nContent-Type: multipart/mixed; boundary=c\n\n--c\n\nx\n--c--\n--b--\n
at: 1.1
edit: insert
place: 1
with: \n--c\n
refused: HoldsBoundary { level: 2 }

== a part holds delimiters of both
message: Content-Type: multipart/mixed; boundary="b"\n\n--b\nContent-Type: multipart/mixed; boundary=c\n\n--c\n\nx\n--c--\n--b--\n
at: 1.1
edit: insert
place: 0
with: \n--c\n--b--\n
refused: HoldsBoundary { level: 1 }

== no delimiter after an open line
message: Content-Type: multipart/mixed; boundary="b"\n\n--b\n\nx\ny
at: 1
edit: insert
place: 1
with: Content-Transfer-Encoding: base64\n\naGk=\n
refused: OpenLine

== a delimiter after a line that is ended
message: Content-Type: multipart/mixed; boundary="b"\n\n--b\n\nx\ny\n
at: 1
edit: insert
place: 1
with: Content-Transfer-Encoding: base64\n\naGk=\n
gives: Content-Type: multipart/mixed; boundary="b"\n\n--b\n\nx\ny\n--b\nContent-Transfer-Encoding: base64\n\naGk=\n

== a part whose last line ends in CR before another
message: Subject: t\nContent-Type: multipart/mixed; boundary="b"\n\npre\n--b\n\none\n--b \t\nContent-Type: text/html\n\ntwo\n--b--\nepi\n
at: 1
edit: insert
place: 0
with: \nx\r
refused: OpenLine

== a part whose last line ends in CR
message: Content-Type: multipart/mixed; boundary="b"\n\n--b\n\ny\n
at: 1
edit: insert
place: 1
with: \nx\r
gives: Content-Type: multipart/mixed; boundary="b"\n\n--b\n\ny\n--b\n\nx\r

== a made delimiter ends as the message does
message: A: b\r\nContent-Type: multipart/mixed; boundary="b"\n\n--b\n\nx\n--b--\n
at: 1
edit: insert
place: 1
with: \ny\n
gives: A: b\r\nContent-Type: multipart/mixed; boundary="b"\n\n--b\n\nx\n--b\r\n\ny\n--b--\n

== the first part before a close line
message: Content-Type: multipart/mixed; boundary="b"\n\n--b--\n
at: 1
edit: insert
place: 0
with: Content-Transfer-Encoding: base64\n\naGk=\n
gives: Content-Type: multipart/mixed; boundary="b"\n\n--b\nContent-Transfer-Encoding: base64\n\naGk=\n--b--\n

== the first part after an open preamble
message: Content-Type: multipart/mixed; boundary="b"\n\npre
at: 1
edit: insert
place: 0
with: Content-Transfer-Encoding: base64\n\naGk=\n
refused: OpenLine

== the first part after a preamble
message: Content-Type: multipart/mixed; boundary="b"\n\npre\n
at: 1
edit: insert
place: 0
with: Content-Transfer-Encoding: base64\n\naGk=\n
gives: Content-Type: multipart/mixed; boundary="b"\n\npre\n--b\nContent-Transfer-Encoding: base64\n\naGk=\n

== a part after fields alone
message: Content-Type: multipart/mixed; boundary=b\n
at: 1
edit: insert
place: 0
with: \nx\n
gives: Content-Type: multipart/mixed; boundary=b\n--b\n\nx\n

== the delimiter would be a field
message: Content-Type: multipart/mixed; boundary="a:b"\n
at: 1
edit: insert
place: 0
with: \nx\n
refused: Recut

== a message in a digest
message: Content-Type: multipart/digest; boundary=b\n\n--b\n\nSubject: s\n\nx\n--b--\n
at: 1
edit: insert
place: 1
with: \nA: b\n
gives: Content-Type: multipart/digest; boundary=b\n\n--b\n\nSubject: s\n\nx\n--b\n\nA: b\n--b--\n

== a part begins with a From-line
message: Subject: t\nContent-Type: multipart/mixed; boundary="b"\n\npre\n--b\n\none\n--b \t\nContent-Type: text/html\n\ntwo\n--b--\nepi\n
at: 1
edit: insert
place: 0
with: From x\n
gives: Subject: t\nContent-Type: multipart/mixed; boundary="b"\n\npre\n--b\nFrom x\n--b\n\none\n--b \t\nContent-Type: text/html\n\ntwo\n--b--\nepi\n

== the only part goes
message: Content-Type: multipart/mixed; boundary="b"\n\n--b\n\nx\n--b--\n
at: 1.1
edit: remove part
gives: Content-Type: multipart/mixed; boundary="b"\n\n--b--\n

== the first of two parts goes
message: Subject: t\nContent-Type: multipart/mixed; boundary="b"\n\npre\n--b\n\none\n--b \t\nContent-Type: text/html\n\ntwo\n--b--\nepi\n
at: 1.1
edit: remove part
gives: Subject: t\nContent-Type: multipart/mixed; boundary="b"\n\npre\n--b \t\nContent-Type: text/html\n\ntwo\n--b--\nepi\n

== the last of two parts goes
message: Subject: t\nContent-Type: multipart/mixed; boundary="b"\n\npre\n--b\n\none\n--b \t\nContent-Type: text/html\n\ntwo\n--b--\nepi\n
at: 1.2
edit: remove part
gives: Subject: t\nContent-Type: multipart/mixed; boundary="b"\n\npre\n--b\n\none\n--b--\nepi\n

== an open part goes
message: Content-Type: multipart/mixed; boundary="b"\n\n--b\n\nx\n--b\n\ny
at: 1.2
edit: remove part
gives: Content-Type: multipart/mixed; boundary="b"\n\n--b\n\nx\n

== a multipart goes
message: Content-Type: multipart/mixed; boundary="b"\n\n--b\nContent-Type: multipart/mixed; boundary=c\n\n--c\n\nx\n--c--\n--b--\n
at: 1.1
edit: remove part
gives: Content-Type: multipart/mixed; boundary="b"\n\n--b--\n

== a part of an inner multipart goes
message: Content-Type: multipart/mixed; boundary="b"\n\n--b\nContent-Type: multipart/mixed; boundary=c\n\n--c\n\nx\n--c--\n--b--\n
at: 1.1.1
edit: remove part
gives: Content-Type: multipart/mixed; boundary="b"\n\n--b\nContent-Type: multipart/mixed; boundary=c\n\n--c--\n--b--\n

== the root is no part
message: Subject: t\nContent-Type: multipart/mixed; boundary="b"\n\npre\n--b\n\none\n--b \t\nContent-Type: text/html\n\ntwo\n--b--\nepi\n
at: 1
edit: remove part
refused: NotPart

== the message inside a message is no part
message: Content-Type: message/rfc822\n\nA: b\n\nx\n
at: 1.1
edit: remove part
refused: NotPart

== no part to be removed
message: Subject: t\nContent-Type: multipart/mixed; boundary="b"\n\npre\n--b\n\none\n--b \t\nContent-Type: text/html\n\ntwo\n--b--\nepi\n
at: 1.3
edit: remove part
refused: NoSuchSection
"#;

#[test]
fn parts_are_inserted_and_removed(rt: HostRuntime) -> Result<(), Fail> {
    check_rows(&rt, rt.alloc(), ROWS, 33)
}
