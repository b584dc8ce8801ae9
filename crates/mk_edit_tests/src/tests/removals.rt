//! Fields that are taken out. What comes of an edit is worked out by hand.

use super::checks::check_rows;
use std::test::Fail;

const ROWS: &str = r#"
== the second of a name goes
message: A: 1\nB: 2\na: 3\n
at: 1
edit: remove
name: A
number: 2
gives: A: 1\nB: 2\n

== names are alike in upper and lower case
message: A: 1\nB: 2\na: 3\n
at: 1
edit: remove
name: a
number: 1
gives: B: 2\na: 3\n

== fields are counted from 1
message: A: 1\n
at: 1
edit: remove
name: A
number: 0
refused: NoSuchField

== there are fewer fields of the name
message: A: 1\nB: 2\n
at: 1
edit: remove
name: A
number: 2
refused: NoSuchField

== no field of the name
message: Subject: t\nContent-Type: multipart/mixed; boundary="b"\n\npre\n--b\n\none\n--b \t\nContent-Type: text/html\n\ntwo\n--b--\nepi\n
at: 1
edit: remove
name: Z
number: 1
refused: NoSuchField

== no section before no field
message: Subject: t\nContent-Type: multipart/mixed; boundary="b"\n\npre\n--b\n\none\n--b \t\nContent-Type: text/html\n\ntwo\n--b--\nepi\n
at: 1.3
edit: remove
name: Z
number: 1
refused: NoSuchSection

== a field goes with the lines that continue it
message: A : 1\n 2\n\t3\nB: 4\n
at: 1
edit: remove
name: A
number: 1
gives: B: 4\n

== an open field goes
message: A: b\nC: d
at: 1
edit: remove
name: C
number: 1
gives: A: b\n

== the open field stays
message: A: b\nC: d
at: 1
edit: remove
name: A
number: 1
gives: C: d

== the separator stays without fields
message: A: b\n\n x\n
at: 1
edit: remove
name: A
number: 1
gives: \n x\n

== the body would be an envelope
message: A: b\nFrom x\n
at: 1
edit: remove
name: A
number: 1
refused: Recut

== after an envelope it would not
message: From a\nA: b\nFrom x\n
at: 1
edit: remove
name: A
number: 1
gives: From a\nFrom x\n

== the first line of a part is no envelope
message: Content-Type: multipart/mixed; boundary="b"\n\n--b\nA: b\nFrom x\n
at: 1.1
edit: remove
name: A
number: 1
gives: Content-Type: multipart/mixed; boundary="b"\n\n--b\nFrom x\n

== a field of a multipart
message: Subject: t\nContent-Type: multipart/mixed; boundary="b"\n\npre\n--b\n\none\n--b \t\nContent-Type: text/html\n\ntwo\n--b--\nepi\n
at: 1
edit: remove
name: subject
number: 1
gives: Content-Type: multipart/mixed; boundary="b"\n\npre\n--b\n\none\n--b \t\nContent-Type: text/html\n\ntwo\n--b--\nepi\n
"#;

#[test]
fn fields_are_removed(rt: HostRuntime) -> Result<(), Fail> {
    check_rows(&rt, rt.alloc(), ROWS, 14)
}
