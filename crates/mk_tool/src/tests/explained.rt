//! Reasons in words, before the lines that name them.

use super::check_rows;
use std::test::Fail;

const ROWS: &str = r"
== a refused line of a script
words: edit|--explain|-e|del 1 X 1|-e|wrap 1 mixed b
message: A: b\n\n--b\n
output: A: b\n\n--b\n
errors: line 1: the section has no field of this name and number\nline 1: NoSuchField\nline 2: a line would be read as a delimiter of a multipart; change that line, or use another boundary\nline 2: HoldsBoundary 1\n
status: Refused

== letters that are refused
words: field|--explain|-A|X: y
message: A: b
output: A: b
errors: message 1: a line without a line ending would come before another line; put the field at the top, or end that line first\nmessage 1: OpenLine\n
status: Refused

== a section that isn't there
words: extract|--explain|-s|2
message: A: b\n\nx\n
errors: 2: there is no section at this path; 'sections' lists the paths\n2: NoSuchSection\n
status: Refused

== several that aren't there
words: unpack|--explain|-s|2|-s|3
message: A: b\n\nx\n
errors: 2: there is no section at this path; 'sections' lists the paths\n2: NoSuchSection\n3: there is no section at this path; 'sections' lists the paths\n3: NoSuchSection\n
status: Refused

== a message that isn't there
words: sections|--explain|-n|2
message: A: b\n\nx\n
errors: message 2: the mailbox has fewer messages than that\nmessage 2: NoSuchMessage\n
status: Refused

== a line that is no word of scripts
words: edit|--explain|-e|no
message: A: b\n\nx\n
errors: script: line 1: unknown word\nscript: line 1: syntax\n
status: Usage

== nothing is refused
words: field|--explain|-A|X: y
message: A: b\n\nx\n
output: A: b\nX: y\n\nx\n
status: Well
";

#[test]
fn reasons_are_told_in_words(rt: HostRuntime) -> Result<(), Fail> {
    check_rows(&rt, ROWS)
}
