//! The messages of a mailbox in turn (`--each`).

use super::{check_entries, check_refused, check_rows, gives, holds, prints};
use mk_each::{Buffer, SectionLines, try_each};
use mk_mail::FromLines;
use mk_messages::InMemory;
use mk_run::Status;
use std::fs;
use std::test::Fail;

const LISTED: &str = r#"
== the sections of each message, after its number
words: sections|--each
message: From a\nA: 1\n\nx\n\nFrom b\nContent-Type: message/rfc822\n\nA: b\n\ny\n
output: 1 1 leaf text/plain identity 7 13 15 1 1\n2 1 message message/rfc822 identity 7 37 45 1 3\n2 1.1 leaf text/plain identity 37 43 45 1 1\n
status: Well

== no message, no line
words: sections|--each
message:
status: Well

== as JSON
words: sections|--each|--json
message: From a\nA: 1\n\nx\n\nFrom b\n\n
output: {"message":1,"path":"1","kind":"leaf","type":"text/plain","encoding":"identity","start":7,"body":13,"end":15,"field_lines":1,"body_lines":1,"stored_as":"part-1","size":2}\n{"message":2,"path":"1","kind":"leaf","type":"text/plain","encoding":"identity","start":7,"body":7,"end":7,"field_lines":0,"body_lines":0,"stored_as":"part-1","size":0}\n
status: Well

== only at dates
words: sections|--each|--rfc4155
message: From a Fri Jul  8 12:08:34 2011\n\nx\n\nFrom here on\n
output: 1 1 leaf text/plain identity 32 33 49 0 3\n
status: Well
"#;

const EXTRACTED: &str = r"
== the content of a section of each message
words: extract|--each|-s|1
message: From a\nA: 1\n\nx\n\nFrom b\nContent-Transfer-Encoding: base64\n\neQo=\n
output: x\ny\n
status: Well

== messages without it are reported
words: extract|--each|-s|2
message: From a\n\nx\n\nFrom b\n\ny\n
errors: message 1: 2: NoSuchSection\nmessage 2: 2: NoSuchSection\n
status: Refused

== the others are given
words: extract|--each|-s|1
message: From a\nContent-Transfer-Encoding: base64\n\naGl=\n\nFrom b\n\ny\n
output: y\n
errors: message 1: 1: BadBase64\n
status: Refused

== several sections of each
words: extract|--each|-s|1|-s|2|-s|1
message: From a\n\nx\n\nFrom b\n\ny\n
output: x\nx\ny\ny\n
errors: message 1: 2: NoSuchSection\nmessage 2: 2: NoSuchSection\n
status: Refused

== the fields of each
words: extract|--each|--head|-s|1
message: From a\nA: 1\n\nx\n\nFrom b\nB: 2\n\ny\n
output: A: 1\nB: 2\n
status: Well

== lines lose a mark
words: extract|--each|--unquote|-s|1
message: From a\n\n>From x\n\nFrom b\n\n>>From y\n
output: From x\n>From y\n
status: Well

== the reason in words
words: extract|--each|--explain|-s|2
message: From a\n\nx\n
errors: message 1: 2: there is no section at this path; 'sections' lists the paths\nmessage 1: 2: NoSuchSection\n
status: Refused
";

const EDITED: &str = r"
== each message is edited, and the mailbox is printed
words: edit|--each|-e|add 1 X: y
message: From a\nA: 1\n\nx\n\nFrom b\r\n\r\ny\r\n\r\n
output: From a\nA: 1\nX: y\n\nx\n\nFrom b\r\nX: y\r\n\r\ny\r\n\r\n
status: Well

== an edit that is refused for one is made for the others
words: edit|--each|-e|drop 1 X|-e|del 1 A 1
message: From a\nA: 1\nX: 1\n\nx\n\nFrom b\nX: 2\n\ny\n
output: From a\n\nx\n\nFrom b\n\ny\n
errors: message 2: line 2: NoSuchField\n
status: Refused

== all or none for each
words: edit|--each|--all|-e|drop 1 X|-e|del 1 A 1
message: From a\nA: 1\nX: 1\n\nx\n\nFrom b\nX: 2\n\ny\n
output: From a\n\nx\n\nFrom b\nX: 2\n\ny\n
errors: message 2: line 2: NoSuchField\n
status: Refused

== steps are undone within a message
words: edit|--each|-e|add 1 X: y|-e|undo|-e|undo
message: From a\n\nx\n\nFrom b\n\ny\n
output: From a\n\nx\n\nFrom b\n\ny\n
errors: message 1: line 3: NothingToUndo\nmessage 2: line 3: NothingToUndo\n
status: Refused

== the empty line that ends a message isn't edited, and an open line before it is ended
words: edit|--each|-e|encode 1 base64
message: From a\n\nx\n\nFrom b\n\ny\n
output: From a\nContent-Transfer-Encoding: base64\n\neAo=\n\nFrom b\nContent-Transfer-Encoding: base64\n\neQo=
status: Well

== line endings are those of the mailbox
words: edit|--each|-e|encode 1 base64
message: From a\r\n\r\nx\r\n\r\nFrom b\r\n\r\ny\r\n
output: From a\r\nContent-Transfer-Encoding: base64\r\n\r\neA0K\r\n\r\nFrom b\r\nContent-Transfer-Encoding: base64\r\n\r\neQ0K
status: Well

== a message that would be cut in two goes out as it came
words: edit|--each|-e|encode 1 8bit
message: From a\nContent-Transfer-Encoding: base64\n\neAoKRnJvbSBiCg==\n\nFrom c\n\ny\n
output: From a\nContent-Transfer-Encoding: base64\n\neAoKRnJvbSBiCg==\n\nFrom c\nContent-Transfer-Encoding: 8bit\n\ny\n
errors: message 1: Recut\n
status: Refused

== an invalid script is reported once
words: edit|--each|-e|no
message: From a\n\nx\n\nFrom b\n\ny\n
errors: script: line 1: unknown word\nscript: line 1: syntax\n
status: Usage

== empty lines before the first message stay, where a From-line needs a date
words: edit|--each|--rfc4155|-e|add 1 X: y
message: \nFrom a Fri Jul  8 12:08:34 2011\n\nx\n
output: \nFrom a Fri Jul  8 12:08:34 2011\nX: y\n\nx\n
status: Well

== no message
words: edit|--each|-e|add 1 X: y
message:
status: Well

== the reason in words
words: edit|--each|--explain|-e|del 1 Z 1
message: From a\n\nx\n
output: From a\n\nx\n
errors: message 1: line 1: the section has no field of this name and number\nmessage 1: line 1: NoSuchField\n
status: Refused

== another name of -s
words: field|--each|-A|X: y
message: From a\n\nx\n\nFrom b\n\ny\n
output: From a\nX: y\n\nx\n\nFrom b\nX: y\n\ny\n
status: Well
";

const REFUSED: &str = r"
== --each beside -n
words: sections|--each|-n|1
words: extract|--each|-n|1|-s|1
words: unpack|--each|-n|1
words: edit|--each|-n|1|-e|undo

== a journal keeps the steps of one message
words: edit|--each|-j|journal|-e|undo

== the result stands in a mailbox, which needs the marks
words: edit|--each|--unquote|-e|undo

== words without it
words: messages|--each
words: split|--each
words: pack|--each
words: undo|--each
";

#[test]
fn sections_of_each_message(rt: HostRuntime) -> Result<(), Fail> {
    let alloc = rt.alloc();
    let mut input = InMemory::new(b"From a\nA: 1\n\nx\n\nFrom b\nA: 2\n\ny\n");
    let (mut out, mut err) = (Buffer::new(alloc), Buffer::new(alloc));
    let work = SectionLines { unquote: false };
    let way = FromLines::Any;
    let status = try_each(alloc, &mut input, &mut out, &mut err, &mut (), way, &work)?;
    assert_eq!(rt; status, Status::Well);
    let first = b"1 1 leaf text/plain identity 7 13 15 1 1\n";
    assert!(rt; out.text.starts_with(first));
    Ok(())
}

#[test]
fn each_message_is_listed(rt: HostRuntime) -> Result<(), Fail> {
    check_rows(&rt, LISTED)
}

#[test]
fn a_section_of_each_is_extracted(rt: HostRuntime) -> Result<(), Fail> {
    check_rows(&rt, EXTRACTED)
}

#[test]
fn each_message_is_unpacked(rt: HostRuntime) -> Result<(), Fail> {
    let folder = "mimetool_each_test";
    let mailbox =
        b"From a\nContent-Type: x/y; name=a\n\n1\n\nFrom b\n\nx\n\nFrom c\nContent-Type: x/y; name=a\n\n3\n";
    let _ = fs::remove_dir_all(&rt, folder);
    let words = ["unpack", "--each", "-C", folder];
    prints(&rt, &words, mailbox, b"1 a (x/y)\n3 a.1 (x/y)\n")?;
    holds(&rt, "mimetool_each_test/a", "1\n")?;
    holds(&rt, "mimetool_each_test/a.1", "3\n")?;
    check_entries(&rt, folder, 2)?;
    let words = ["unpack", "--each", "--explain", "-s", "2", "-C", folder];
    let missing =
        b"message 1: 2: there is no section at this path; 'sections' lists the paths\nmessage 1: 2: NoSuchSection\n";
    gives(&rt, &words, b"From a\n\nx\n", b"", missing, Status::Refused)?;
    let words = [
        "unpack",
        "--each",
        "-t",
        "--paths",
        "--unquote",
        "-C",
        folder,
    ];
    prints(
        &rt,
        &words,
        b"From d\n\n>From x\n",
        b"1 1 part-1 (text/plain)\n",
    )?;
    holds(&rt, "mimetool_each_test/part-1", "From x\n")?;
    fs::remove_dir_all(&rt, folder)?;
    Ok(())
}

#[test]
fn each_message_is_edited(rt: HostRuntime) -> Result<(), Fail> {
    check_rows(&rt, EDITED)
}

#[test]
fn invalid_words_with_each_are_refused(rt: HostRuntime) -> Result<(), Fail> {
    check_refused(&rt, REFUSED)
}
