//! Edits of fields that tell the kind of a section. What comes of an edit is worked out by hand.

use super::checks::check_rows;
use std::test::Fail;

const ROWS: &str = r#"
== a type that makes a message of a leaf
message: \nx\n
at: 1
edit: add
with: Content-Type: message/rfc822\n
refused: Recut

== a second type counts for nothing
message: Content-Type: text/plain\n\nx\n
at: 1
edit: add
with: Content-Type: message/rfc822\n
gives: Content-Type: text/plain\nContent-Type: message/rfc822\n\nx\n

== a type before the first counts
message: Content-Type: text/plain\n\nx\n
at: 1
edit: add at the top
with: Content-Type: message/rfc822\n
refused: Recut

== the type of a multipart stays
message: Subject: t\nContent-Type: multipart/mixed; boundary="b"\n\npre\n--b\n\none\n--b \t\nContent-Type: text/html\n\ntwo\n--b--\nepi\n
at: 1
edit: remove
name: Content-Type
number: 1
refused: Recut

== the type of a leaf may go
message: Subject: t\nContent-Type: multipart/mixed; boundary="b"\n\npre\n--b\n\none\n--b \t\nContent-Type: text/html\n\ntwo\n--b--\nepi\n
at: 1.2
edit: remove
name: content-type
number: 1
gives: Subject: t\nContent-Type: multipart/mixed; boundary="b"\n\npre\n--b\n\none\n--b \t\n\ntwo\n--b--\nepi\n

== the type of a message stays
message: Content-Type: message/rfc822\n\nA: b\n\nx\n
at: 1
edit: remove
name: Content-Type
number: 1
refused: Recut

== a leaf in a digest needs its type
message: Content-Type: multipart/digest; boundary=b\n\n--b\nContent-Type: text/plain\n\nx\n--b--\n
at: 1.1
edit: remove
name: Content-Type
number: 1
refused: Recut

== a leaf would be read by the next type
message: Content-Type: text/plain\nContent-Type: message/rfc822\n\nx\n
at: 1
edit: remove
name: Content-Type
number: 1
refused: Recut

== mixed would become a digest with an untyped part
message: Content-Type: multipart/mixed; boundary=b\nContent-Type: multipart/digest; boundary=b\n\n--b\n\nx\n
at: 1
edit: remove
name: Content-Type
number: 1
refused: Recut

== mixed becomes a digest with typed parts
message: Content-Type: multipart/mixed; boundary=b\nContent-Type: multipart/digest; boundary=b\n\n--b\nContent-Type: text/plain\n\nx\n
at: 1
edit: remove
name: Content-Type
number: 1
gives: Content-Type: multipart/digest; boundary=b\n\n--b\nContent-Type: text/plain\n\nx\n

== an encoded message is a leaf in a digest too
message: Content-Type: multipart/mixed; boundary=b\nContent-Type: multipart/digest; boundary=b\n\n--b\nContent-Transfer-Encoding: base64\n\nx\n
at: 1
edit: remove
name: Content-Type
number: 1
gives: Content-Type: multipart/digest; boundary=b\n\n--b\nContent-Transfer-Encoding: base64\n\nx\n

== the encoding of a message inside
message: Content-Type: message/rfc822\nContent-Transfer-Encoding: base64\n\nQTogYgo=\n
at: 1
edit: remove
name: Content-Transfer-Encoding
number: 1
refused: Recut

== another spelling of the type
message: Subject: t\nContent-Type: multipart/mixed; boundary="b"\n\npre\n--b\n\none\n--b \t\nContent-Type: text/html\n\ntwo\n--b--\nepi\n
at: 1
edit: rename
name: Content-Type
number: 1
to: CONTENT-type
gives: Subject: t\nCONTENT-type: multipart/mixed; boundary="b"\n\npre\n--b\n\none\n--b \t\nContent-Type: text/html\n\ntwo\n--b--\nepi\n

== a multipart keeps its type
message: Subject: t\nContent-Type: multipart/mixed; boundary="b"\n\npre\n--b\n\none\n--b \t\nContent-Type: text/html\n\ntwo\n--b--\nepi\n
at: 1
edit: rename
name: Content-Type
number: 1
to: X
refused: Recut

== a field would be the type
message: X: message/rfc822\n\nA: b\n
at: 1
edit: rename
name: X
number: 1
to: Content-Type
refused: Recut

== another type of a leaf
message: Subject: t\nContent-Type: multipart/mixed; boundary="b"\n\npre\n--b\n\none\n--b \t\nContent-Type: text/html\n\ntwo\n--b--\nepi\n
at: 1.2
edit: set
name: Content-Type
number: 1
with: Content-Type: image/gif\n
gives: Subject: t\nContent-Type: multipart/mixed; boundary="b"\n\npre\n--b\n\none\n--b \t\nContent-Type: image/gif\n\ntwo\n--b--\nepi\n

== another multipart with the same boundary
message: Subject: t\nContent-Type: multipart/mixed; boundary="b"\n\npre\n--b\n\none\n--b \t\nContent-Type: text/html\n\ntwo\n--b--\nepi\n
at: 1
edit: set
name: Content-Type
number: 1
with: Content-Type: multipart/related; boundary=b\n
gives: Subject: t\nContent-Type: multipart/related; boundary=b\n\npre\n--b\n\none\n--b \t\nContent-Type: text/html\n\ntwo\n--b--\nepi\n

== another boundary
message: Subject: t\nContent-Type: multipart/mixed; boundary="b"\n\npre\n--b\n\none\n--b \t\nContent-Type: text/html\n\ntwo\n--b--\nepi\n
at: 1
edit: set
name: Content-Type
number: 1
with: Content-Type: multipart/mixed; boundary=c\n
refused: Recut

== another boundary where there are no marks
message: Content-Type: multipart/mixed; boundary="b"\n\nx\n
at: 1
edit: set
name: Content-Type
number: 1
with: Content-Type: multipart/mixed; boundary=c\n
refused: Recut

== a leaf would be a multipart
message: A: b\n\nx\n
at: 1
edit: set
name: A
number: 1
with: Content-Type: multipart/mixed; boundary=b\n
refused: Recut

== a digest with an untyped part would be mixed
message: Content-Type: multipart/digest; boundary=b\n\n--b\n\nSubject: s\n\nx\n--b--\n
at: 1
edit: set
name: Content-Type
number: 1
with: Content-Type: multipart/mixed; boundary=b\n
refused: Recut

== a digest with typed parts becomes mixed
message: Content-Type: multipart/digest; boundary=b\n\n--b\nContent-Type: text/plain\n\nx\n--b--\n
at: 1
edit: set
name: Content-Type
number: 1
with: Content-Type: multipart/mixed; boundary=b\n
gives: Content-Type: multipart/mixed; boundary=b\n\n--b\nContent-Type: text/plain\n\nx\n--b--\n

== the type of an untyped part is set back
message: Content-Type: multipart/digest; boundary=b\n\n--b\nX: y\n\nSubject: s\n\nx\n--b--\n
at: 1.1
edit: set
name: X
number: 1
with: Content-Type: message/rfc822\n
gives: Content-Type: multipart/digest; boundary=b\n\n--b\nContent-Type: message/rfc822\n\nSubject: s\n\nx\n--b--\n
"#;

#[test]
fn sections_keep_their_kinds(rt: HostRuntime) -> Result<(), Fail> {
    check_rows(&rt, rt.alloc(), ROWS, 23)
}
