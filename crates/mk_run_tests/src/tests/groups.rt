//! Groups of edits in scripts, worked out by hand.

use super::{check_rows, check_scripts};
use std::test::Fail;

const CASES: &str = r#"
== a refused group changes nothing
message:
script: begin\nadd 1 A: b\ndel 1 Z 1\nend\n
errors: line 3: NoSuchField\n
status: Refused

== a group is taken back as one step
message:
script: begin\nadd 1 A: b\nadd 1 C: d\nend\nundo\nredo\nundo\nundo\n
errors: line 8: NothingToUndo\n
status: Refused

== a group of no edits is a step, after which the script goes on
message: A: b\n
script: begin\n# nothing\nend\nundo\nbegin\ndel 2 A 1\nend\nredo\nadd 1 C: d\n
output: A: b\nC: d\n
errors: line 6: NoSuchSection\n
status: Refused

== fields get the ending of the message before the group
message: A: b\r\n
script: begin\nset 1 A 1 C: d\nadd 1 E: f\ndel 1 C 1\nadd 1 G: h\nend\n
output: E: f\r\nG: h\r\n
status: Well

== the multipart of which a line of a group would be a delimiter
message: Content-Type: multipart/mixed; boundary="a:b"\n\n--a:b\n\nx\n--a:b--\n
script: \nbegin\nadd 1 A: b\n\nadd 1.1 --a:b\nend
output: Content-Type: multipart/mixed; boundary="a:b"\n\n--a:b\n\nx\n--a:b--\n
errors: line 5: HoldsBoundary 1\n
status: Refused
"#;

#[test]
fn groups_are_done(rt: HostRuntime) -> Result<(), Fail> {
    check_rows(&rt, rt.alloc(), CASES)
}

/// Scripts, each after the number of the line with its first fault, which is 0 where there is none.
const SCRIPTS: &str = r"
== two groups
0: begin\nend\nbegin\nend

== a group without an end
1: begin\nadd 1 A: b
1: begin\nbogus
4: undo\nbegin\nend\nbegin\nundo

== a fault in a group
2: begin\nbogus\nend

== a group in a group
2: begin\nbegin\nend
1: begin\nbegin

== what was done is not taken back in a group
2: begin\nundo\nend
3: begin\n\nredo\nend

== an end without a group
3: begin\nend\nend
1: end\nbegin

== a space after the word
1: begin \nend
2: begin\nend \nend
";

#[test]
fn faults_of_groups_are_named(rt: HostRuntime) -> Result<(), Fail> {
    check_scripts(&rt, rt.alloc(), SCRIPTS)
}
