//! The steps of a journal listed (`journal`), and all of them taken back or made again (`undo --all`, `redo --all`). Expected
//! values are from docs/FORMATS.md.

use super::{check_entries, check_refused, gives, holds, obeyed, prints};
use mk_rows::{Row, rows};
use mk_run::Status;
use std::fs;
use std::fs::File;
use std::process::Abort;
use std::rt::{Clock, Files};
use std::test::Fail;

const MESSAGE: &[u8] = b"A: b\n\nx\n";

const ONCE: &[u8] = b"A: b\nC: d\n\nx\n";

const TWICE: &[u8] = b"A: b\nC: d\nE: f\n\nx\n";

const NOTHING: &str =
    "mimejournal 2\nc951ce7b67bdf1fc725f0b506422637c56104e24cd5177b0230f679e11b0dc84\n0 0\n";

const LISTED: &str = r"
== no steps
journal: mimejournal 1\n0 0\n
output:
status: Well

== a step that is done, and one that is undone
journal: mimejournal 1\n1 1\n1 2 3\nbcxyz\n0 0 2\nno\n
output: 1 done; 2 bytes at 1 became 3\n2 undone; 0 bytes at 0 became 2\n
status: Well

== the splices of a group in the order in which they were made, and a group of none
journal: mimejournal 2\n0000000000000000000000000000000000000000000000000000000000000000\n2 0\n2\n57 1 0\nx\n0 0 1\ny\n0\n
output: 1 done; 1 bytes at 57 became 0; 0 bytes at 0 became 1\n2 done\n
status: Well

== bytes that look like steps, and a place beyond 64 bits
journal: mimejournal 1\n0 1\n99999999999999999999 6 1\n0 0 0\n\n\n
output: 1 undone; 6 bytes at 18446744073709551615 became 1\n
status: Well

== an empty file
journal:
errors: journal: JournalSyntax 0\n
status: Refused

== a journal that is cut
journal: mimejournal 1\n1 0\n
errors: journal: JournalSyntax 18\n
status: Refused

== bytes after a journal
journal: mimejournal 1\n0 0\n\n
errors: journal: JournalSyntax 18\n
status: Refused

== another version, with the reason in words
journal: mimejournal 3\n
words: --explain
errors: journal: this file isn't a journal\njournal: JournalSyntax 12\n
status: Refused
";

/// Invalid words.
const REFUSED: &str = r"
== no journal
words: journal
words: undo|--all
words: redo|--all
begins: error: the following required arguments were not provided:\n\x20

== a message
words: journal|-j|j|--from|m
begins: error: unexpected argument '--from' found

== all steps of a listing
words: journal|-j|j|--all
begins: error: unexpected argument '--all' found
";

/// Lists the journal of a row, and compares what the run leaves. No message is read.
fn check_listing<R: Files<File = File> + Clock + AllocGlobal + Abort>(
    rt: &R,
    journal: &str,
    row: &Row,
) -> Result<(), Fail> {
    let alloc = rt.alloc();
    fs::write(rt, journal, row.bytes("journal"))?;
    let mut words = Vec::from_slice(alloc, &["journal", "-j", journal])?;
    if row.get("words").is_some() {
        words.push(row.text("words"))?;
    }
    let found = obeyed(rt, &words, MESSAGE)?;
    let status = found.status;
    let status = format!(in alloc; "{status:?}")?;
    assert_eq!(rt; status.as_str(), row.text("status"), "{}", row.shows);
    assert_eq!(rt; found.output.bytes(), row.bytes("output"), "{}", row.shows);
    assert_eq!(rt; found.errors.bytes(), row.bytes("errors"), "{}", row.shows);
    Ok(())
}

#[test]
fn the_steps_of_a_journal_are_listed(rt: HostRuntime) -> Result<(), Fail> {
    let folder = "mimetool_steps_test";
    let journal = "mimetool_steps_test/journal";
    let _ = fs::remove_dir_all(&rt, folder);
    fs::create_dir_all(&rt, folder)?;
    for row in &rows(rt.alloc(), LISTED)? {
        check_listing(&rt, journal, row)?;
    }
    check_entries(&rt, folder, 1)?;
    fs::remove_dir_all(&rt, folder)?;
    Ok(())
}

#[test]
fn a_journal_that_is_missing_is_a_fault(rt: HostRuntime) -> Result<(), Fail> {
    gives(
        &rt,
        &["journal", "-j", "mimetool_no_such_journal"],
        MESSAGE,
        b"",
        b"mimetool: mimetool_no_such_journal: No such file or directory (os error 2)\nmimetool: read fault\n",
        Status::Fault,
    )
}

#[test]
fn all_steps_are_taken_back_and_made_again(rt: HostRuntime) -> Result<(), Fail> {
    let folder = "mimetool_all_steps_test";
    let journal = "mimetool_all_steps_test/journal";
    let _ = fs::remove_dir_all(&rt, folder);
    fs::create_dir_all(&rt, folder)?;
    let script = [
        "edit",
        "-j",
        journal,
        "-e",
        "add 1 C: d",
        "-e",
        "add 1 E: f",
    ];
    prints(&rt, &script, MESSAGE, TWICE)?;
    prints(&rt, &["undo", "--all", "-j", journal], TWICE, MESSAGE)?;
    prints(&rt, &["undo", "--all", "-j", journal], MESSAGE, MESSAGE)?;
    prints(&rt, &["redo", "--all", "-j", journal], MESSAGE, TWICE)?;
    prints(&rt, &["redo", "--all", "-j", journal], TWICE, TWICE)?;
    prints(&rt, &["undo", "-j", journal], TWICE, ONCE)?;
    prints(&rt, &["redo", "--all", "-j", journal], ONCE, TWICE)?;
    prints(&rt, &["undo", "-j", journal], TWICE, ONCE)?;
    prints(&rt, &["undo", "--all", "-j", journal], ONCE, MESSAGE)?;
    check_entries(&rt, folder, 1)?;
    fs::remove_dir_all(&rt, folder)?;
    Ok(())
}

#[test]
fn all_steps_of_no_journal_are_none(rt: HostRuntime) -> Result<(), Fail> {
    let folder = "mimetool_no_steps_test";
    let journal = "mimetool_no_steps_test/journal";
    let _ = fs::remove_dir_all(&rt, folder);
    fs::create_dir_all(&rt, folder)?;
    for command in ["undo", "redo"] {
        prints(&rt, &[command, "--all", "-j", journal], MESSAGE, MESSAGE)?;
        holds(&rt, journal, NOTHING)?;
        fs::write(&rt, journal, "x")?;
        gives(
            &rt,
            &[command, "--all", "-j", journal],
            MESSAGE,
            b"",
            b"journal: JournalSyntax 0\n",
            Status::Refused,
        )?;
        holds(&rt, journal, "x")?;
        fs::remove_file(&rt, journal)?;
    }
    fs::remove_dir_all(&rt, folder)?;
    Ok(())
}

#[test]
fn invalid_words_on_steps_are_refused(rt: HostRuntime) -> Result<(), Fail> {
    check_refused(&rt, REFUSED)
}
