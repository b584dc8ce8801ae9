//! Several files in one run, each taken by itself. Expected values are from docs/FORMATS.md.

use super::{check_entries, check_refused, obeyed, words_in};
use mk_rows::{Row, rows};
use std::fs;
use std::fs::File;
use std::process::Abort;
use std::rt::{Clock, Files};
use std::test::Fail;

const FOLDER: &str = "several_test";

const ONE: &str = "A: 1\n\nx\n";

const TWO: &str = "A: 2\nA: 3\n\n";

const MAILBOX: &str = "From a\nA: 4\n\nFrom b\nA: 5\n";

const READ: &str = r"
== what each file gives comes one after another
words: field|-x|A:|--from|several_test/one|several_test/two
output: \x201\n 2\n 3\n
status: Well

== the option may be given again; words come last
words: field|-x|A:|--from|several_test/two|several_test/box|--from|several_test/one
output: \x202\n 3\n 1\n 4\n
status: Well

== each line after the name of its file
words: field|-x|A:|-H|--from|several_test/one|several_test/two
output: several_test/one: 1\nseveral_test/two: 2\nseveral_test/two: 3\n
status: Well

== also of one file
words: field|-X|A:|-H|--from|several_test/one
output: several_test/one:A: 1\n
status: Well

== and of each message of a mailbox
words: field|-s|-x|A:|-H|--from|several_test/box
output: several_test/box: 4\nseveral_test/box: 5\n
status: Well

== messages of files, one after another
words: field|-I|A:|--from|several_test/one|several_test/two
output: \nx\n\n
status: Well

== contents
words: extract|-s|1|--from|several_test/one|several_test/two
output: x\n
status: Well

== listings
words: messages|-H|--from|several_test/one|several_test/box
output: several_test/one:1 0 8 1\nseveral_test/box:1 0 13 1\nseveral_test/box:2 13 25 1\n
status: Well

== objects
words: check|--json|--from|several_test/two|several_test/one
output:
status: Well

== a refusal names its file, and the run goes on
words: extract|-s|2|--from|several_test/one|several_test/two
errors: several_test/one: 2: NoSuchSection\nseveral_test/two: 2: NoSuchSection\n
status: Refused

== also in words
words: extract|--explain|-s|2|--from|several_test/one|several_test/two
errors: several_test/one: 2: there is no section at this path; 'sections' lists the paths\nseveral_test/one: 2: NoSuchSection\nseveral_test/two: 2: there is no section at this path; 'sections' lists the paths\nseveral_test/two: 2: NoSuchSection\n
status: Refused

== so does a run without one of the files, whose status is that of the worst
words: field|-x|A:|--from|several_test/one|several_test/none|several_test/two
output: \x201\n 2\n 3\n
errors: mimetool: several_test/none: No such file or directory (os error 2)\nmimetool: read fault\n
status: Fault
";

const IN_PLACE: &str = r"
== fields of several files
words: field|-I|A: 0|--in-place|several_test/one|several_test/two
one: A: 0\n\nx\n
two: A: 0\n\n
status: Well

== edits of several files
words: edit|-e|del 1 A 2|--in-place|several_test/one|--in-place|several_test/two
one: A: 1\n\nx\n
two: A: 2\n\n
errors: several_test/one: line 1: NoSuchField\n
status: Refused

== a file that is missing
words: field|-I|A: 0|--in-place|several_test/none|several_test/one
one: A: 0\n\nx\n
two: A: 2\nA: 3\n\n
errors: mimetool: several_test/none: No such file or directory (os error 2)\nmimetool: read fault\n
status: Fault

== an invalid script ends the run at once
words: edit|-e|add 1|--in-place|several_test/one|--in-place|several_test/two
one: A: 1\n\nx\n
two: A: 2\nA: 3\n\n
errors: several_test/one: script: line 1: too few arguments\nseveral_test/one: script: line 1: syntax\n
status: Usage
";

/// Invalid words.
const REFUSED: &str = r"
== a journal of several messages
words: edit|-e|undo|-j|j|--in-place|a|--in-place|b
begins: error: -j goes with one file: a journal is that of one message\n\nUsage: mimetool edit\x20

== names before lines without files
words: sections|-H
words: field|-H|-x|A:
words: check|-H
words: messages|-H
begins: error: -H goes only with --from: it prints the name of the file before each line\n\nUsage: mimetool\x20

== names before the lines of messages
words: field|-H|-A|A: 1|--from|m
begins: error: -H goes only with -x or -X, whose lines it puts the name of the file before\n\nUsage: mimetool field\x20

== names before objects
words: sections|-H|--json|--from|m
begins: error: the argument '-H' cannot be used with '--json'

== seconds without an equals sign, beside files
words: field|--in-place|m|--wait|5
begins: error: unexpected argument '5' found\n\n  tip: to wait that many seconds, write '--wait=5'\n

== several files for a command that takes one
words: reply|--from|a|b
begins: error: unexpected argument 'b' found

== files to read and to replace
words: field|--in-place|a|--from|b
begins: error: the argument '--in-place <FILE>' cannot be used with '--from <FILE>'
";

/// Puts the files into a folder of their own.
fn prepare<R: Files + AllocGlobal>(rt: &R) -> Result<(), Fail> {
    let _ = fs::remove_dir_all(rt, FOLDER);
    fs::create_dir_all(rt, FOLDER)?;
    fs::write(rt, "several_test/one", ONE)?;
    fs::write(rt, "several_test/two", TWO)?;
    fs::write(rt, "several_test/box", MAILBOX)?;
    Ok(())
}

/// Runs the program as a row says, and compares what it prints.
fn check_run<R: Files<File = File> + Clock + AllocGlobal + Abort>(
    rt: &R,
    row: &Row,
) -> Result<(), Fail> {
    let alloc = rt.alloc();
    let words = words_in(alloc, row.text("words"))?;
    let found = obeyed(rt, &words, b"not read")?;
    let status = found.status;
    let status = format!(in alloc; "{status:?}")?;
    assert_eq!(rt; status.as_str(), row.text("status"), "{}", row.shows);
    assert_eq!(rt; found.output.bytes(), row.bytes("output"), "{}", row.shows);
    assert_eq!(rt; found.errors.bytes(), row.bytes("errors"), "{}", row.shows);
    Ok(())
}

#[test]
fn several_files_are_read_or_replaced(rt: HostRuntime) -> Result<(), Fail> {
    let alloc = rt.alloc();
    prepare(&rt)?;
    for row in &rows(alloc, READ)? {
        check_run(&rt, row)?;
    }
    for row in &rows(alloc, IN_PLACE)? {
        prepare(&rt)?;
        check_run(&rt, row)?;
        for (file, name) in [("several_test/one", "one"), ("several_test/two", "two")] {
            let left = fs::read(&rt, file)?;
            assert_eq!(rt; left.as_slice(), row.bytes(name), "{}", row.shows);
        }
        check_entries(&rt, FOLDER, 3)?;
    }
    fs::remove_dir_all(&rt, FOLDER)?;
    Ok(())
}

#[test]
fn invalid_words_on_files_are_refused(rt: HostRuntime) -> Result<(), Fail> {
    check_refused(&rt, REFUSED)
}
