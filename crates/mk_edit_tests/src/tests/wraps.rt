//! Sections wrapped into a multipart.
use super::checks::check_rows;
use std::test::Fail;

const ROWS: &str = r#"
== a leaf that isn't followed gets an ending more
message: hello\n
at: 1
edit: wrap
subtype: mixed
boundary: b
gives: MIME-Version: 1.0\nContent-Type: multipart/mixed; boundary="b"\n\n--b\n\nhello\n\n--b--\n

== fields of the content go inside, the others stay
message: Content-Type: text/html\r\nSubject: s\r\ncontent-id:\r\n <x>\r\nMIME-Version: 1.0\r\n\r\nx
at: 1
edit: wrap
subtype: mixed
boundary: c d
gives: Subject: s\r\nMIME-Version: 1.0\r\nContent-Type: multipart/mixed; boundary="c d"\r\n\r\n--c d\r\nContent-Type: text/html\r\ncontent-id:\r\n <x>\r\n\r\nx\r\n--c d--\r\n

== a part keeps its ending
message: Subject: t\nContent-Type: multipart/mixed; boundary="b"\n\npre\n--b\n\none\n--b \t\nContent-Type: text/html\n\ntwo\n--b--\nepi\n
at: 1.1
edit: wrap
subtype: mixed
boundary: c
gives: Subject: t\nContent-Type: multipart/mixed; boundary="b"\n\npre\n--b\nContent-Type: multipart/mixed; boundary="c"\n\n--c\n\none\n--c--\n--b \t\nContent-Type: text/html\n\ntwo\n--b--\nepi\n

== a return before a made line feed
message: x\r
at: 1
edit: wrap
subtype: mixed
boundary: b
refused: Recut

== a return before a made ending of both bytes
message: A: b\r\n\r\nx\r
at: 1
edit: wrap
subtype: mixed
boundary: z
gives: A: b\r\nMIME-Version: 1.0\r\nContent-Type: multipart/mixed; boundary="z"\r\n\r\n--z\r\n\r\nx\r\r\n--z--\r\n

== a line of the body is the new delimiter
message: x\n--b\n
at: 1
edit: wrap
subtype: mixed
boundary: b
refused: HoldsBoundary { level: 1 }

== a made line is the delimiter of the multipart around
message: Subject: t\nContent-Type: multipart/mixed; boundary="b"\n\npre\n--b\n\none\n--b \t\nContent-Type: text/html\n\ntwo\n--b--\nepi\n
at: 1.1
edit: wrap
subtype: mixed
boundary: b
refused: HoldsBoundary { level: 1 }

== an open part before the made close line
message: Content-Type: multipart/mixed; boundary=b\n\n--b\n\ny
at: 1
edit: wrap
subtype: mixed
boundary: z
refused: OpenLine

== an open line of fields
message: A: b
at: 1
edit: wrap
subtype: mixed
boundary: b
refused: OpenLine

== a message of a digest without a type
message: Content-Type: multipart/digest; boundary=b\n\n--b\n\nSubject: s\n\nx\n--b--\n
at: 1.1
edit: wrap
subtype: mixed
boundary: c
refused: Recut

== no boundary
message: Subject: t\nContent-Type: multipart/mixed; boundary="b"\n\npre\n--b\n\none\n--b \t\nContent-Type: text/html\n\ntwo\n--b--\nepi\n
at: 1.1
edit: wrap
subtype: mixed
boundary: b"
refused: BadBoundary

== no subtype
message: Subject: t\nContent-Type: multipart/mixed; boundary="b"\n\npre\n--b\n\none\n--b \t\nContent-Type: text/html\n\ntwo\n--b--\nepi\n
at: 1.1
edit: wrap
subtype: a/b
boundary: c
refused: BadSubtype

== no section
message: Subject: t\nContent-Type: multipart/mixed; boundary="b"\n\npre\n--b\n\none\n--b \t\nContent-Type: text/html\n\ntwo\n--b--\nepi\n
at: 1.3
edit: wrap
subtype: mixed
boundary: b"
refused: NoSuchSection
"#;

#[test]
fn sections_are_wrapped(rt: HostRuntime) -> Result<(), Fail> {
    check_rows(&rt, rt.alloc(), ROWS, 13)
}
