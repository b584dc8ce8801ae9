//! `field -j`: the edits of a run as one step of a journal. Expected values are from docs/FORMATS.md.

use super::{check_entries, check_refused, field_words, gives, holds, obeyed, prints, words_in};
use mk_line::line_count;
use mk_rows::{Row, rows};
use mk_run::Status;
use std::fs;
use std::fs::File;
use std::process::Abort;
use std::rt::{Clock, Files};
use std::test::Fail;

const MESSAGE: &[u8] = b"A: b\n\nx\n";

const ADDED: &[u8] = b"A: b\nC: d\n\nx\n";

/// The journal of one step that adds a field.
const DONE: &str =
    "mimejournal 2\nffa85b235308dbbe11aaddd971ba5b28529a258c87c62ecc8efbcf789b5128ef\n1 0\n1\n5 0 5\nC: d\n\n";

/// The same, taken back.
const UNDONE: &str =
    "mimejournal 2\nc951ce7b67bdf1fc725f0b506422637c56104e24cd5177b0230f679e11b0dc84\n0 1\n1\n5 0 5\nC: d\n\n";

/// Runs that make a step, which is then taken back and made again, and the listing of the journal.
const STEPS: &str = r"
== letters of one round are one step
words: field|-I|A: 9|-A|B: 8
message: A: 1\nA: 2\n\nx\n
output: B: 8\nA: 9\n\nx\n
lines: 1

== so are those of several rounds
words: field|-A|A: 9|-A|B: 8|-I|A: 7
message: C: 1\r\n\r\nx\r\n
output: C: 1\r\nB: 8\r\nA: 7\r\n\r\nx\r\n
lines: 1

== a round on what the one before it left
words: field|--rename|A:B|--rename|C:D|--drop|B:
message: A: 1\nC: 2\n\nx\n
output: D: 2\n\nx\n
lines: 1

== a run that changes nothing is a step too
words: field|-a|A: 9
message: A: 1\n\nx\n
output: A: 1\n\nx\n
lines: 1

== fields of a section
words: field|-p|1.1|-A|A: 9|-A|B: 8
message: Content-Type: multipart/mixed; boundary=b\n\n--b\n\none\n--b--\n
output: Content-Type: multipart/mixed; boundary=b\n\n--b\nA: 9\nB: 8\n\none\n--b--\n
lines: 1
";

/// Runs in which an edit is refused: the message stays, and the journal has no step.
const REFUSALS: &str = r"
== no such section
words: field|-p|1.1|-A|C: d
message: A: b\n\nx\n
errors: message 1: NoSuchSection\n
status: Refused

== a round that is refused takes back those before it
words: field|-A|C: d|-A|E: f|-I|Content-Type:
message: Content-Type: multipart/mixed; boundary=b\n\n--b\n\none\n--b--\n
errors: message 1: Recut\n
status: Refused

== the reason in words
words: field|--explain|-p|1.1|-A|C: d
message: A: b\n\nx\n
errors: message 1: there is no section at this path; 'sections' lists the paths\nmessage 1: NoSuchSection\n
status: Refused

== refusals that are well
words: field|--refused-ok|-p|1.1|-A|C: d
message: A: b\n\nx\n
errors: message 1: NoSuchSection\n
status: Well
";

/// Invalid words.
const INVALID: &str = r"
== messages of a mailbox have one journal each
words: field|-j|j|-s|-A|C: d
words: field|-j|j|--each|-A|C: d
begins: error: the argument '-j <JOURNAL>' cannot be used with '--each'

== printing is no step
words: field|-j|j|-x|A:
begins: error: the argument '-j <JOURNAL>' cannot be used with '-x <NAME:>'

== several files
words: field|-j|j|-A|C: d|--in-place|a|b
words: field|-j|j|-A|C: d|--from|a|b
words: field|-j|j|-A|C: d|--from|a|--from|b
begins: error: -j goes with one file: a journal is that of one message
";

/// Makes a folder with nothing in it.
fn prepare<R: Files + AllocGlobal>(rt: &R, folder: &str) -> Result<(), Fail> {
    let _ = fs::remove_dir_all(rt, folder);
    fs::create_dir_all(rt, folder)?;
    Ok(())
}

/// Runs the words of a row with a new journal; takes the step back, and makes it again.
fn check_step<R: Files<File = File> + Clock + AllocGlobal + Abort>(
    rt: &R,
    journal: &str,
    row: &Row,
) -> Result<(), Fail> {
    let alloc = rt.alloc();
    let (message, output) = (row.bytes("message"), row.bytes("output"));
    prints(rt, &words_in(alloc, row.text("words"))?, message, output)?;
    let words = field_words(alloc, "-j", journal, row)?;
    prints(rt, &words, message, output)?;
    let listing = obeyed(rt, &["journal", "-j", journal], b"")?;
    let lines = line_count(listing.output.bytes());
    let lines = format!(in alloc; "{lines}")?;
    assert_eq!(rt; lines.as_str(), row.text("lines"), "{}", row.shows);
    prints(rt, &["undo", "-j", journal], output, message)?;
    prints(rt, &["redo", "-j", journal], message, output)?;
    fs::remove_file(rt, journal)?;
    Ok(())
}

#[test]
fn the_fields_of_a_run_are_one_step(rt: HostRuntime) -> Result<(), Fail> {
    let folder = "mimetool_field_steps_test";
    let journal = "mimetool_field_steps_test/journal";
    prepare(&rt, folder)?;
    for row in &rows(rt.alloc(), STEPS)? {
        check_step(&rt, journal, row)?;
    }
    check_entries(&rt, folder, 0)?;
    fs::remove_dir_all(&rt, folder)?;
    Ok(())
}

#[test]
fn a_journal_of_fields_is_that_of_edits(rt: HostRuntime) -> Result<(), Fail> {
    let folder = "mimetool_field_journal_test";
    let journal = "mimetool_field_journal_test/journal";
    prepare(&rt, folder)?;
    prints(&rt, &["field", "-j", journal, "-A", "C: d"], MESSAGE, ADDED)?;
    holds(&rt, journal, DONE)?;
    prints(&rt, &["undo", "-j", journal], ADDED, MESSAGE)?;
    holds(&rt, journal, UNDONE)?;
    let field = ["field", "-j", journal, "-A", "C: d"];
    prints(&rt, &field, MESSAGE, ADDED)?;
    holds(&rt, journal, DONE)?;
    let line = ["edit", "-j", journal, "-e", "del 1 A 1"];
    prints(&rt, &line, ADDED, b"C: d\n\nx\n")?;
    prints(
        &rt,
        &["undo", "--all", "-j", journal],
        b"C: d\n\nx\n",
        MESSAGE,
    )?;
    gives(
        &rt,
        &field,
        ADDED,
        b"",
        b"journal: JournalOther\n",
        Status::Refused,
    )?;
    check_entries(&rt, folder, 1)?;
    fs::remove_dir_all(&rt, folder)?;
    Ok(())
}

/// Runs the words of a row, whose edits are refused, with a new journal.
fn check_refusal<R: Files<File = File> + Clock + AllocGlobal + Abort>(
    rt: &R,
    journal: &str,
    row: &Row,
) -> Result<(), Fail> {
    let alloc = rt.alloc();
    let message = row.bytes("message");
    let words = field_words(alloc, "-j", journal, row)?;
    let found = obeyed(rt, &words, message)?;
    let status = found.status;
    let status = format!(in alloc; "{status:?}")?;
    assert_eq!(rt; status.as_str(), row.text("status"), "{}", row.shows);
    assert_eq!(rt; found.output.bytes(), message, "{}", row.shows);
    assert_eq!(rt; found.errors.bytes(), row.bytes("errors"), "{}", row.shows);
    prints(rt, &["journal", "-j", journal], b"", b"")?;
    fs::remove_file(rt, journal)?;
    Ok(())
}

#[test]
fn refused_fields_make_no_step(rt: HostRuntime) -> Result<(), Fail> {
    let folder = "mimetool_refused_fields_test";
    let journal = "mimetool_refused_fields_test/journal";
    prepare(&rt, folder)?;
    for row in &rows(rt.alloc(), REFUSALS)? {
        check_refusal(&rt, journal, row)?;
    }
    fs::remove_dir_all(&rt, folder)?;
    Ok(())
}

#[test]
fn fields_of_a_file_are_edited_in_place_with_a_journal(rt: HostRuntime) -> Result<(), Fail> {
    let folder = "mimetool_field_in_place_test";
    let (file, journal) = (
        "mimetool_field_in_place_test/message",
        "mimetool_field_in_place_test/journal",
    );
    prepare(&rt, folder)?;
    fs::write(&rt, file, MESSAGE)?;
    let field = [
        "field",
        "-j",
        journal,
        "--wait",
        "--in-place",
        file,
        "-A",
        "C: d",
    ];
    prints(&rt, &field, b"", b"")?;
    holds(&rt, file, "A: b\nC: d\n\nx\n")?;
    holds(&rt, journal, DONE)?;
    prints(&rt, &["undo", "-j", journal, "--in-place", file], b"", b"")?;
    holds(&rt, file, "A: b\n\nx\n")?;
    let own = ["field", "-j", file, "--in-place", file, "-A", "C: d"];
    gives(
        &rt,
        &own,
        b"",
        b"",
        b"mimetool: mimetool_field_in_place_test/message: the file of --in-place can't also be its journal\nmimetool: read fault\n",
        Status::Fault,
    )?;
    check_entries(&rt, folder, 2)?;
    fs::remove_dir_all(&rt, folder)?;
    Ok(())
}

#[test]
fn invalid_words_on_field_steps_are_refused(rt: HostRuntime) -> Result<(), Fail> {
    check_refused(&rt, INVALID)
}
