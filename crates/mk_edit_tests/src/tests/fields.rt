//! Fields that are added. What comes of an edit is worked out by hand.

use super::checks::check_rows;
use std::test::Fail;

const ROWS: &str = r#"
== a field in an empty message
message:
at: 1
edit: add
with: A: b\n
gives: A: b\n

== an open field in an empty message
message:
at: 1
edit: add
with: A: b
gives: A: b

== no field goes after an open line
message: A: b
at: 1
edit: add
with: C: d\n
refused: OpenLine

== a field goes before an open line
message: A: b
at: 1
edit: add at the top
with: C: d\n
gives: C: d\nA: b

== an open field may be the last line
message: A: b\n
at: 1
edit: add
with: C: d
gives: A: b\nC: d

== an open field goes before no line
message: A: b\n
at: 1
edit: add at the top
with: C: d
refused: OpenLine

== the body would go on with the field
message: \x20x\n
at: 1
edit: add
with: A: b\n
refused: Recut

== a tab goes on with a field as well
message: \tx\n
at: 1
edit: add at the top
with: A: b\n
refused: Recut

== a body of blanks after a separator stays
message: \n x\n
at: 1
edit: add
with: A: b\n
gives: A: b\n\n x\n

== a field before a body without a separator
message: x\n
at: 1
edit: add
with: A: b\n
gives: A: b\nx\n

== a field after one that goes on
message: A: b\n c\n\nx\n
at: 1
edit: add
with: C: d\n
gives: A: b\n c\nC: d\n\nx\n

== a field of two lines with CRLF
message: A: b\r\n\r\nx
at: 1
edit: add
with: C: d\r\n e\r\n
gives: A: b\r\nC: d\r\n e\r\n\r\nx

== a field after the envelope
message: From a\nx\n
at: 1
edit: add
with: A: b\n
gives: From a\nA: b\nx\n

== the first field stands after the envelope
message: From a\nA: b\n
at: 1
edit: add at the top
with: C: d\n
gives: From a\nC: d\nA: b\n

== no field goes after an open envelope
message: From a
at: 1
edit: add at the top
with: A: b\n
refused: OpenLine

== nothing is no field
message:
at: 1
edit: add
with:
refused: BadField

== a line without a colon is no field
message:
at: 1
edit: add
with: x\n
refused: BadField

== two fields are not one
message:
at: 1
edit: add
with: A: b\nC: d\n
refused: BadField

== a field and an empty line are not one field
message:
at: 1
edit: add
with: A: b\n\n
refused: BadField

== a bad field comes before an open line
message: A: b
at: 1
edit: add
with: \x20x
refused: BadField

== no section at 2
message: Subject: t\nContent-Type: multipart/mixed; boundary="b"\n\npre\n--b\n\none\n--b \t\nContent-Type: text/html\n\ntwo\n--b--\nepi\n
at: 2
edit: add
with: A: b\n
refused: NoSuchSection

== no section at no number
message: Subject: t\nContent-Type: multipart/mixed; boundary="b"\n\npre\n--b\n\none\n--b \t\nContent-Type: text/html\n\ntwo\n--b--\nepi\n
at:
edit: add
with: A: b\n
refused: NoSuchSection

== no section at 0
message: Subject: t\nContent-Type: multipart/mixed; boundary="b"\n\npre\n--b\n\none\n--b \t\nContent-Type: text/html\n\ntwo\n--b--\nepi\n
at: 0
edit: add
with: x
refused: NoSuchSection

== no part 0
message: Subject: t\nContent-Type: multipart/mixed; boundary="b"\n\npre\n--b\n\none\n--b \t\nContent-Type: text/html\n\ntwo\n--b--\nepi\n
at: 1.0
edit: add
with: A: b\n
refused: NoSuchSection

== no part after the last
message: Subject: t\nContent-Type: multipart/mixed; boundary="b"\n\npre\n--b\n\none\n--b \t\nContent-Type: text/html\n\ntwo\n--b--\nepi\n
at: 1.3
edit: add
with: A: b\n
refused: NoSuchSection

== no section below a leaf
message: Subject: t\nContent-Type: multipart/mixed; boundary="b"\n\npre\n--b\n\none\n--b \t\nContent-Type: text/html\n\ntwo\n--b--\nepi\n
at: 1.1.1
edit: add
with: A: b\n
refused: NoSuchSection

== the first field of a part
message: Subject: t\nContent-Type: multipart/mixed; boundary="b"\n\npre\n--b\n\none\n--b \t\nContent-Type: text/html\n\ntwo\n--b--\nepi\n
at: 1.1
edit: add
with: A: b\n
gives: Subject: t\nContent-Type: multipart/mixed; boundary="b"\n\npre\n--b\nA: b\n\none\n--b \t\nContent-Type: text/html\n\ntwo\n--b--\nepi\n

== a field before the others of a part
message: Subject: t\nContent-Type: multipart/mixed; boundary="b"\n\npre\n--b\n\none\n--b \t\nContent-Type: text/html\n\ntwo\n--b--\nepi\n
at: 1.2
edit: add at the top
with: A: b\n
gives: Subject: t\nContent-Type: multipart/mixed; boundary="b"\n\npre\n--b\n\none\n--b \t\nA: b\nContent-Type: text/html\n\ntwo\n--b--\nepi\n

== a field after the others of a part
message: Subject: t\nContent-Type: multipart/mixed; boundary="b"\n\npre\n--b\n\none\n--b \t\nContent-Type: text/html\n\ntwo\n--b--\nepi\n
at: 1.2
edit: add
with: A: b\n
gives: Subject: t\nContent-Type: multipart/mixed; boundary="b"\n\npre\n--b\n\none\n--b \t\nContent-Type: text/html\nA: b\n\ntwo\n--b--\nepi\n

== a field after those of a multipart
message: Subject: t\nContent-Type: multipart/mixed; boundary="b"\n\npre\n--b\n\none\n--b \t\nContent-Type: text/html\n\ntwo\n--b--\nepi\n
at: 1
edit: add
with: A: b\n
gives: Subject: t\nContent-Type: multipart/mixed; boundary="b"\nA: b\n\npre\n--b\n\none\n--b \t\nContent-Type: text/html\n\ntwo\n--b--\nepi\n

== a field that is a delimiter around
message: Content-Type: multipart/mixed; boundary="a:b"\n\n--a:b\n\nx\n--a:b--\n
at: 1.1
edit: add
with: --a:b\n
refused: HoldsBoundary { level: 1 }

== a field that is a close line around
message: Content-Type: multipart/mixed; boundary="a:b"\n\n--a:b\n\nx\n--a:b--\n
at: 1.1
edit: add
with: --a:b-- \n
refused: HoldsBoundary { level: 1 }

== a delimiter of the own boundary is a field
message: Content-Type: multipart/mixed; boundary="a:b"\n\n--a:b\n\nx\n--a:b--\n
at: 1
edit: add
with: --a:b\n
gives: Content-Type: multipart/mixed; boundary="a:b"\n--a:b\n\n--a:b\n\nx\n--a:b--\n

== an open line comes before a delimiter around
message: Content-Type: multipart/mixed; boundary="a:b"\n\n--a:b\n\nx\n--a:b--\n
at: 1.1
edit: add
with: --a:b
refused: OpenLine

== a field of the message inside
message: Content-Type: message/rfc822\n\nA: b\n\nx\n
at: 1.1
edit: add
with: C: d\n
gives: Content-Type: message/rfc822\n\nA: b\nC: d\n\nx\n

== the header around would take the field
message: Content-Type: message/rfc822\nx\n
at: 1.1
edit: add
with: C: d\n
refused: Recut
"#;

#[test]
fn fields_are_added(rt: HostRuntime) -> Result<(), Fail> {
    check_rows(&rt, rt.alloc(), ROWS, 36)
}
