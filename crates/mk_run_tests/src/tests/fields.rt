//! Scripts that take fields out, rename them and put others in their place.

use super::{check_lines, check_rows};
use std::test::Fail;

const CASES: &str = r#"
== two steps, taken back and made again, and taken back
message: A: b\n\nx\n
script: add 1 C: d\ndel 1 A 1\nundo\nundo\nredo\nredo\nundo\nundo\nundo\n
output: A: b\n\nx\n
errors: line 9: NothingToUndo\n
status: Refused

== a refused edit keeps what was undone, and an accepted one drops it
message: A: b\n\nx\n
script: add 1 C: d\nundo\ndel 1 Z 1\nredo\nundo\nadd 1 E: f\nredo\n
output: A: b\nE: f\n\nx\n
errors: line 3: NoSuchField\nline 7: NothingToRedo\n
status: Refused

== each reason against a field of a multipart
message: Subject: t\nContent-Type: multipart/mixed; boundary=b\n\n--b\n\nhi\n--b--\n
script: del 1 Subject 0\nset 1 Subject 1 x\nren 1 Subject 1 a:b\ndel 1 Content-Type 1\n
output: Subject: t\nContent-Type: multipart/mixed; boundary=b\n\n--b\n\nhi\n--b--\n
errors: line 1: NoSuchField\nline 2: BadField\nline 3: BadName\nline 4: Recut\n
status: Refused

== what follows a lone field would be an envelope
message: A: b\nFrom x\n
script: del 1 A 1
output: A: b\nFrom x\n
errors: line 1: Recut\n
status: Refused

== a field that is a delimiter of the multipart around it
message: Content-Type: multipart/mixed; boundary="a:b"\n\n--a:b\n\nx\n--a:b--\n
script: add 1.1 --a:b
output: Content-Type: multipart/mixed; boundary="a:b"\n\n--a:b\n\nx\n--a:b--\n
errors: line 1: HoldsBoundary 1\n
status: Refused

== a field that is a delimiter of the inner multipart around it
message: Content-Type: multipart/mixed; boundary=o\n\n--o\nContent-Type: multipart/mixed; boundary="a:b"\n\n--a:b\nC: d\n\nx\n--a:b--\n--o--\n
script: set 1.1.1 C 1 --a:b
output: Content-Type: multipart/mixed; boundary=o\n\n--o\nContent-Type: multipart/mixed; boundary="a:b"\n\n--a:b\nC: d\n\nx\n--a:b--\n--o--\n
errors: line 1: HoldsBoundary 1.1\n
status: Refused

== the fields of a part
message: Subject: t\nContent-Type: multipart/mixed; boundary=b\n\n--b\n\nhi\n--b--\n
script: add 1.1 A: b\nren 1.1 a 1 B\nset 1.1 B 1 C: d e\nundo\n
output: Subject: t\nContent-Type: multipart/mixed; boundary=b\n\n--b\nB: b\n\nhi\n--b--\n
status: Well

== fields are counted by name, from 1
message: A: 1\nB: 2\na: 3\nA: 4\n\n
script: del 1 A 2\nset 1 a 2 A: 5\ndel 1 A 3\n
output: A: 1\nB: 2\nA: 5\n\n
errors: line 3: NoSuchField\n
status: Refused

== a new name goes before what followed the old one
message: A : b\n c\n\n
script: ren 1 a 1 Long-Name
output: Long-Name : b\n c\n\n
status: Well

== a field of several lines gives way to another
message: A: b\n c\nD: e\n\n
script: set 1 A 1 F: g
output: F: g\nD: e\n\n
status: Well

== a field of several lines goes whole
message: A: b\n c\nD: e\n\n
script: del 1 A 1
output: D: e\n\n
status: Well

== a field in the place of another gets the ending of the message
message: A: b\r\nC: d\n\r\nx
script: set 1 C 1 E: f
output: A: b\r\nE: f\r\n\r\nx
status: Well

== an open field goes, stays open under another name, or is ended
message: A: b\nC: d
script: ren 1 C 1 E\ndel 1 A 1\nadd 1 G: h\nset 1 E 1 F: g\n
output: F: g\n
errors: line 3: OpenLine\n
status: Refused

== another name may make another kind of section
message: X: multipart/mixed; boundary=b\n\n--b\n\nhi\n
script: ren 1 X 1 Content-Type
output: X: multipart/mixed; boundary=b\n\n--b\n\nhi\n
errors: line 1: Recut\n
status: Refused

== there is no such section
message: A: b\n
script: del 2 A 1\nren 1.1 A 1 B\nset 1.1 A 1 B: c\n
output: A: b\n
errors: line 1: NoSuchSection\nline 2: NoSuchSection\nline 3: NoSuchSection\n
status: Refused

== that there is no such field comes before what is wrong with the new one
message: A: b\n
script: ren 1 Z 1 a:b\nset 1 Z 1 x\nren 1 A 2 a:b\nset 1 A 0 x\n
output: A: b\n
errors: line 1: NoSuchField\nline 2: NoSuchField\nline 3: NoSuchField\nline 4: NoSuchField\n
status: Refused

== a field may be empty in a script, and isn't a field then
message: A: b\n
script: set 1 A 1\x20
output: A: b\n
errors: line 1: BadField\n
status: Refused

== a tab isn't a space, so it may stand in a name
message: A: b\n
script: del 1 A\t 1\nren 1 A 1 B\t\n
output: A: b\n
errors: line 1: NoSuchField\nline 2: BadName\n
status: Refused

== the syntax of the whole script comes first
message: A: b\n\nx\n
script: del 1 A 1\nren 1 A 1 B C\n
errors: script: line 2: syntax\n
status: Usage
"#;

#[test]
fn fields_are_changed(rt: HostRuntime) -> Result<(), Fail> {
    check_rows(&rt, rt.alloc(), CASES)
}

const LINES: &str = r"
== words with a path, a name and a number
step: del 1 A 1
step: del 1.2 A 0
step: del 1 A 4294967295

== a new name is one more word
step: ren 1 A 10 B
step: ren 1 A 1 a:b
step: ren 1 1 1 1

== a new field is all that follows
step: set 1 A 1\x20
step: set 1 A 1 x y
step: set 1 A 1 \x20

== something is missing
fault: del
fault: del\x20
fault: del 1
fault: del 1 A
fault: del 1 A\x20
fault: ren 1 A 1
fault: ren 1 A 1\x20
fault: set 1 A 1
fault: set 1 A
fault: set 1 A: b

== the number is not a plain one
fault: del 1 A 01
fault: del 1 A 00
fault: del 1 A x
fault: del 1 A -1
fault: del 1 A 4294967296
fault: ren 1 A B 1
fault: set 1 A 01 B: c

== something follows
fault: del 1 A 1\x20
fault: del 1 A 1 B
fault: ren 1 A 1 B\x20
fault: ren 1 A 1 B C

== two spaces
fault: del  1 A 1
fault: del 1  A 1
fault: del 1 A  1
fault: del 1  1
fault: ren 1 A 1  B
fault: set 1  1 B: c

== texts that aren't paths
fault: del 0 A 1
fault: del 1. A 1

== other words
fault: Del 1 A 1
fault: dele 1 A 1
";

#[test]
fn lines_are_words_or_not(rt: HostRuntime) -> Result<(), Fail> {
    check_lines(&rt, rt.alloc(), LINES, 0)
}
