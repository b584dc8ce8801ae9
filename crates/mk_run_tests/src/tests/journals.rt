//! Runs that keep a journal, and later ones that go on with it.

use super::check_rows;
use std::test::Fail;

const ROWS: &str = r#"
== a new journal has the steps that were done
message: A: b\n\nx\n
script: add 1 C: d
new:
output: A: b\nC: d\n\nx\n
left: mimejournal 2\nffa85b235308dbbe11aaddd971ba5b28529a258c87c62ecc8efbcf789b5128ef\n1 0\n1\n5 0 5\nC: d\n\n
status: Well

== a later run takes the step back
message: A: b\nC: d\n\nx\n
script: undo
old: mimejournal 2\nffa85b235308dbbe11aaddd971ba5b28529a258c87c62ecc8efbcf789b5128ef\n1 0\n1\n5 0 5\nC: d\n\n
output: A: b\n\nx\n
left: mimejournal 2\nc951ce7b67bdf1fc725f0b506422637c56104e24cd5177b0230f679e11b0dc84\n0 1\n1\n5 0 5\nC: d\n\n
status: Well

== and another makes it again
message: A: b\n\nx\n
script: redo
old: mimejournal 2\nc951ce7b67bdf1fc725f0b506422637c56104e24cd5177b0230f679e11b0dc84\n0 1\n1\n5 0 5\nC: d\n\n
output: A: b\nC: d\n\nx\n
left: mimejournal 2\nffa85b235308dbbe11aaddd971ba5b28529a258c87c62ecc8efbcf789b5128ef\n1 0\n1\n5 0 5\nC: d\n\n
status: Well

== an edit in place of what was undone
message: A: b\n\nx\n
script: top 1 C: d
old: mimejournal 2\nc951ce7b67bdf1fc725f0b506422637c56104e24cd5177b0230f679e11b0dc84\n0 1\n1\n5 0 5\nC: d\n\n
output: C: d\nA: b\n\nx\n
left: mimejournal 2\n8a0bae473be7dc8482d42ce83f37a367e505221feffcf6010fbfa86ba2fa688b\n1 0\n1\n0 0 5\nC: d\n\n
status: Well

== a journal of version 1 goes on in version 2
message: A: b\nC: d\n\nx\n
script:
old: mimejournal 1\n1 0\n5 0 5\nC: d\n\n
output: A: b\nC: d\n\nx\n
left: mimejournal 2\nffa85b235308dbbe11aaddd971ba5b28529a258c87c62ecc8efbcf789b5128ef\n1 0\n1\n5 0 5\nC: d\n\n
status: Well

== nothing was done that could be undone
message: A: b\n\nx\n
script: undo
new:
output: A: b\n\nx\n
errors: line 1: NothingToUndo\n
left: mimejournal 2\nc951ce7b67bdf1fc725f0b506422637c56104e24cd5177b0230f679e11b0dc84\n0 0\n
status: Refused

== an empty file is no journal
message: A: b\n\nx\n
script: add 1 C: d
old:
errors: journal: JournalSyntax 0\n
status: Refused

== a number with a leading zero
message: A: b\n\nx\n
script: add 1 C: d
old: mimejournal 1\n01 0\n
errors: journal: JournalSyntax 15\n
status: Refused

== the journal of another text
message: A: b\n\nx\n
script: add 1 C: d
old: mimejournal 2\nffa85b235308dbbe11aaddd971ba5b28529a258c87c62ecc8efbcf789b5128ef\n0 0\n
errors: journal: JournalOther\n
status: Refused

== a step that doesn't find its bytes
message: A: b\n\nx\n
script: add 1 C: d
old: mimejournal 1\n0 1\n5 1 0\nx\n
errors: journal: JournalMismatch 1\n
status: Refused

== a fault of the script comes before the journal
message: A: b\n\nx\n
script: add
old: x
errors: script: line 1: syntax\n
status: Usage

== a fault of the script leaves no journal
message: A: b\n\nx\n
script: add
new:
errors: script: line 1: syntax\n
status: Usage

== without a journal none is left
message: A: b\n\nx\n
script: add 1 C: d
output: A: b\nC: d\n\nx\n
status: Well
"#;

#[test]
fn journals_are_kept(rt: HostRuntime) -> Result<(), Fail> {
    check_rows(&rt, rt.alloc(), ROWS)
}
