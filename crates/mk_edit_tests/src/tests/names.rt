//! Fields that get another name, and fields in the place of others. What comes of an edit is worked out by hand.

use super::checks::check_rows;
use std::test::Fail;

const ROWS: &str = r#"
== the name of a field is changed
message: Subject: t\nContent-Type: multipart/mixed; boundary="b"\n\npre\n--b\n\none\n--b \t\nContent-Type: text/html\n\ntwo\n--b--\nepi\n
at: 1
edit: rename
name: subject
number: 1
to: Topic
gives: Topic: t\nContent-Type: multipart/mixed; boundary="b"\n\npre\n--b\n\none\n--b \t\nContent-Type: text/html\n\ntwo\n--b--\nepi\n

== blanks before the colon stay
message: A \t: b\n c\n
at: 1
edit: rename
name: A
number: 1
to: Long-Name
gives: Long-Name \t: b\n c\n

== the last of three, which is open
message: A:1\nB:2\na:3
at: 1
edit: rename
name: A
number: 2
to: C
gives: A:1\nB:2\nC:3

== a field of a part
message: Subject: t\nContent-Type: multipart/mixed; boundary="b"\n\npre\n--b\n\none\n--b \t\nContent-Type: text/html\n\ntwo\n--b--\nepi\n
at: 1.2
edit: rename
name: content-type
number: 1
to: X
gives: Subject: t\nContent-Type: multipart/mixed; boundary="b"\n\npre\n--b\n\none\n--b \t\nX: text/html\n\ntwo\n--b--\nepi\n

== a field is called From
message: A : b\n
at: 1
edit: rename
name: A
number: 1
to: From
gives: From : b\n

== a name has at least one byte
message: A: b\n
at: 1
edit: rename
name: A
number: 1
to:
refused: BadName

== a colon is in no name
message: A: b\n
at: 1
edit: rename
name: A
number: 1
to: a:b
refused: BadName

== a blank is in no name
message: A: b\n
at: 1
edit: rename
name: A
number: 1
to: a b
refused: BadName

== byte 126 is the last of a name
message: A: b\n
at: 1
edit: rename
name: A
number: 1
to: !~
gives: !~: b\n

== byte 127 is in no name
message: A: b\n
at: 1
edit: rename
name: A
number: 1
to: a\x7f
refused: BadName

== no field before a bad name
message: A: b\n
at: 1
edit: rename
name: Z
number: 1
to:
refused: NoSuchField

== renamed fields are counted from 1
message: A: b\n
at: 1
edit: rename
name: A
number: 0
to: C
refused: NoSuchField

== a renamed line is a delimiter around
message: Content-Type: multipart/mixed; boundary="a:b"\n\n--a:b\nX:b\n\nx\n--a:b--\n
at: 1.1
edit: rename
name: X
number: 1
to: --a
refused: HoldsBoundary { level: 1 }

== no section with a field to be renamed
message: Subject: t\nContent-Type: multipart/mixed; boundary="b"\n\npre\n--b\n\none\n--b \t\nContent-Type: text/html\n\ntwo\n--b--\nepi\n
at: 1.1.1
edit: rename
name: A
number: 1
to:
refused: NoSuchSection

== a field in place of another
message: A: 1\nB: 2\n
at: 1
edit: set
name: a
number: 1
with: C: 3\n d\n
gives: C: 3\n d\nB: 2\n

== a field with CRLF in place of one of two lines
message: A: 1\r\n 2\r\nB: 2\r\n
at: 1
edit: set
name: A
number: 1
with: C: 3\r\n
gives: C: 3\r\nB: 2\r\n

== an open field in place of an open one
message: A: b\nC: d
at: 1
edit: set
name: C
number: 1
with: E: f
gives: A: b\nE: f

== an open field in place of a field before others
message: Subject: t\nContent-Type: multipart/mixed; boundary="b"\n\npre\n--b\n\none\n--b \t\nContent-Type: text/html\n\ntwo\n--b--\nepi\n
at: 1
edit: set
name: Subject
number: 1
with: A: b
refused: OpenLine

== a line in place of a field
message: Subject: t\nContent-Type: multipart/mixed; boundary="b"\n\npre\n--b\n\none\n--b \t\nContent-Type: text/html\n\ntwo\n--b--\nepi\n
at: 1
edit: set
name: Subject
number: 1
with: x
refused: BadField

== no field before a bad field
message: Subject: t\nContent-Type: multipart/mixed; boundary="b"\n\npre\n--b\n\none\n--b \t\nContent-Type: text/html\n\ntwo\n--b--\nepi\n
at: 1
edit: set
name: Z
number: 1
with: x
refused: NoSuchField

== set fields are counted from 1
message: Subject: t\nContent-Type: multipart/mixed; boundary="b"\n\npre\n--b\n\none\n--b \t\nContent-Type: text/html\n\ntwo\n--b--\nepi\n
at: 1
edit: set
name: Subject
number: 0
with: A: b\n
refused: NoSuchField

== no section with a field to be set
message: Subject: t\nContent-Type: multipart/mixed; boundary="b"\n\npre\n--b\n\none\n--b \t\nContent-Type: text/html\n\ntwo\n--b--\nepi\n
at: 1.3
edit: set
name: Z
number: 1
with: x
refused: NoSuchSection

== a set field is a close line around
message: Content-Type: multipart/mixed; boundary="a:b"\n\n--a:b\nX:b\n\nx\n--a:b--\n
at: 1.1
edit: set
name: X
number: 1
with: --a:b--\t\n
refused: HoldsBoundary { level: 1 }
"#;

#[test]
fn fields_are_renamed_and_set(rt: HostRuntime) -> Result<(), Fail> {
    check_rows(&rt, rt.alloc(), ROWS, 23)
}
