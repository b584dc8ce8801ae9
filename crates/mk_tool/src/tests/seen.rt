//! Messages that come again: `messages --unique`, `field -D`. Expected values are from docs/FORMATS.md.

use super::{check_entries, check_refused, check_rows, field_words, gives, holds, obeyed, prints};
use mk_mail::FromLines;
use mk_messages::{Buffer, InMemory, PlainLine, try_each};
use mk_rows::{Row, rows};
use mk_run::Status;
use mk_seen::{FirstLines, ListedSoFar};
use std::fs;
use std::fs::File;
use std::process::Abort;
use std::rt::{Clock, Files};
use std::test::Fail;

/// Listings of mailboxes in which messages come again.
const LISTED: &str = r#"
== the first of each identifier, by its number in the mailbox
words: messages|--unique
message: From a\nMessage-ID: <1@b>\nA: 1\n\nx\n\nFrom b\nMessage-ID: <2@b>\n\n\nFrom c\nMessage-ID: <1@b>\nA: 3\n\ny\n\nFrom d\nA: 4\n\n\nFrom e\nmessage-id:\t<2@b> \n\nz\n\nFrom f\nMessage-ID:\n <3@b>\n\n\n
output: 1 0 34 1\n2 34 61 1\n4 95 109 1\n6 139 167 1\n
status: Well

== messages without an identifier, or with one that says nothing, don't come again
words: messages|--unique
message: From a\n\n\nFrom a\n\n\nFrom b\nMessage-ID:\n\n\nFrom b\nMessage-ID: \n\n\n
output: 1 0 9 1\n2 9 18 1\n3 18 39 1\n4 39 61 1\n
status: Well

== identifiers in another case, or with another byte within, are others
words: messages|--unique
message: From a\nMessage-ID: <a@b>\n\n\nFrom a\nMessage-ID: <A@b>\n\n\nFrom a\nMessage-ID: <a@b>x\n\n\n
output: 1 0 27 1\n2 27 54 1\n3 54 82 1\n
status: Well

== an identifier in folds is that of its line
words: messages|--unique
message: From a\r\nMessage-ID: <a@\r\n b>\r\n\r\n\r\nFrom a\nMessage-ID: <a@   b>\n\n\n
output: 1 0 34 1\n
status: Well

== the first Message-ID counts
words: messages|--unique
message: From a\nMessage-ID: <1>\nMessage-ID: <2>\n\n\nFrom a\nMessage-ID: <2>\n\n\nFrom a\nMessage-ID: <1>\n\n\n
output: 1 0 41 1\n2 41 66 1\n
status: Well

== objects
words: messages|--unique|--json
message: From a\nMessage-ID: <1>\n\n\nFrom a\nMessage-ID: <1>\n\n\nFrom a\nMessage-ID: <2>\n\n\n
output: {"number":1,"start":0,"end":25,"sections":1,"message_id":"<1>"}\n{"number":3,"start":50,"end":75,"sections":1,"message_id":"<2>"}\n
status: Well

== a mailbox that is cut at dates
words: messages|--unique|--mbox=date
message: From a\nMessage-ID: <1>\n\nFrom a\nMessage-ID: <1>\n\n
output: 1 0 48 1\n
status: Well

== no message
words: messages|--unique
message:
output:
status: Well
"#;

/// Runs with a file of identifiers, and what it holds then.
const FILTERED: &str = r"
== messages that come again are left out
words: field|-s
message: From a\nMessage-ID: <1>\n\nx\n\nFrom b\nMessage-ID: <2>\n\n\nFrom c\nMessage-ID: <1>\n\ny\n\n
output: From a\nMessage-ID: <1>\n\nx\n\nFrom b\nMessage-ID: <2>\n\n\n
ids: <1>\n<2>\n
status: Well

== those that an earlier run saw, too
words: field|--each|-I|A: 1
file: <2>\n<9>\n
message: From a\nMessage-ID: <1>\n\nx\n\nFrom b\nMessage-ID: <2>\n\n\nFrom c\nMessage-ID: <3>\n\ny\n\n
output: From a\nMessage-ID: <1>\nA: 1\n\nx\n\nFrom c\nMessage-ID: <3>\nA: 1\n\ny\n\n
ids: <2>\n<9>\n<1>\n<3>\n
status: Well

== values of those that are new
words: field|-s|-x|A:
file: <1>
message: From a\nMessage-ID: <1>\nA: 1\n\n\nFrom b\nA: 2\n\n\nFrom c\nMessage-ID: <3>\nA: 3\n\n\n
output: \x202\n 3\n
ids: <1>\n<3>\n
status: Well

== a message that is refused is seen, and has the number that it has in the mailbox
words: field|-s|-p|1.1|-A|A: 1
message: From a\nMessage-ID: <1>\n\n\nFrom a\nMessage-ID: <1>\n\n\nFrom b\nMessage-ID: <2>\n\n\n
output: From a\nMessage-ID: <1>\n\n\nFrom b\nMessage-ID: <2>\n\n\n
errors: message 1: NoSuchSection\nmessage 3: NoSuchSection\n
ids: <1>\n<2>\n
status: Refused

== one message
words: field|-I|A: 1
message: Message-ID: <1>\n\nx\n
output: Message-ID: <1>\nA: 1\n\nx\n
ids: <1>\n
status: Well

== one that comes again
words: field|-I|A: 1
file: <1>\n
message: Message-ID: <1>\n\nx\n
errors: message 1: Seen\n
ids: <1>\n
status: Refused

== the same in words
words: field|--explain
file: <1>\n
message: Message-ID: <1>\n\nx\n
errors: message 1: a message with this Message-ID was seen before, so nothing is printed\nmessage 1: Seen\n
ids: <1>\n
status: Refused

== the same where that is well
words: field|--refused-ok
file: <1>\r\n
message: Message-ID: <1>\n\nx\n
errors: message 1: Seen\n
ids: <1>\r\n
status: Well

== a message without an identifier changes no file
words: field
file: <1>
message: A: 1\n\nx\n
output: A: 1\n\nx\n
ids: <1>
status: Well

== a mailbox taken for one message
words: field
message: From a\nMessage-ID: <1>\n\nx\n\nFrom b\nMessage-ID: <2>\n\n\n
output: From a\nMessage-ID: <1>\n\nx\n\nFrom b\nMessage-ID: <2>\n\n\n
ids: <1>\n
status: Well
";

/// Invalid words.
const INVALID: &str = r"
== a journal
words: field|-D|f|-j|j
begins: error: the argument '-D <FILE>' cannot be used with '-j <JOURNAL>'

== a message in place
words: field|-D|f|--in-place|m
begins: error: -D goes with --in-place only where -s is there: a repeated message would leave an empty file

== a length, as formail has it
words: field|-D|8192|cache
begins: error: unexpected argument 'cache' found

== fields of a listing
words: messages|-D|f
begins: error: unexpected argument '-D' found
";

#[test]
fn messages_that_come_again_are_not_listed(rt: HostRuntime) -> Result<(), Fail> {
    check_rows(&rt, LISTED)
}

/// Runs the words of a row with a file of identifiers, which is there where the row has one.
fn check_ids<R: Files<File = File> + Clock + AllocGlobal + Abort>(
    rt: &R,
    file: &str,
    row: &Row,
) -> Result<(), Fail> {
    let alloc = rt.alloc();
    if row.get("file").is_some() {
        fs::write(rt, file, row.bytes("file"))?;
    }
    let words = field_words(alloc, "-D", file, row)?;
    let found = obeyed(rt, &words, row.bytes("message"))?;
    let status = found.status;
    let status = format!(in alloc; "{status:?}")?;
    assert_eq!(rt; status.as_str(), row.text("status"), "{}", row.shows);
    assert_eq!(rt; found.output.bytes(), row.bytes("output"), "{}", row.shows);
    assert_eq!(rt; found.errors.bytes(), row.bytes("errors"), "{}", row.shows);
    assert_eq!(rt;
        fs::read(rt, file)?.as_slice(),
        row.bytes("ids"),
        "{}",
        row.shows
    );
    fs::remove_file(rt, file)?;
    Ok(())
}

#[test]
fn messages_that_were_seen_are_left_out(rt: HostRuntime) -> Result<(), Fail> {
    let folder = "mimetool_seen_test";
    let file = "mimetool_seen_test/ids";
    let _ = fs::remove_dir_all(&rt, folder);
    fs::create_dir_all(&rt, folder)?;
    for row in &rows(rt.alloc(), FILTERED)? {
        check_ids(&rt, file, row)?;
    }
    check_entries(&rt, folder, 0)?;
    fs::remove_dir_all(&rt, folder)?;
    Ok(())
}

#[test]
fn a_mailbox_loses_its_repeats_in_place(rt: HostRuntime) -> Result<(), Fail> {
    let folder = "mimetool_seen_in_place_test";
    let (file, mailbox) = (
        "mimetool_seen_in_place_test/ids",
        "mimetool_seen_in_place_test/box",
    );
    let _ = fs::remove_dir_all(&rt, folder);
    fs::create_dir_all(&rt, folder)?;
    fs::write(
        &rt,
        mailbox,
        "From a\nMessage-ID: <1>\n\n\nFrom a\nMessage-ID: <1>\n\n\n",
    )?;
    let words = ["field", "-s", "-D", file, "--wait", "--in-place", mailbox];
    prints(&rt, &words, b"", b"")?;
    holds(&rt, mailbox, "From a\nMessage-ID: <1>\n\n\n")?;
    holds(&rt, file, "<1>\n")?;
    let own = ["field", "-s", "-D", mailbox, "--in-place", mailbox];
    gives(
        &rt,
        &own,
        b"",
        b"",
        b"mimetool: mimetool_seen_in_place_test/box: the file of --in-place can't also be that of -D\nmimetool: read fault\n",
        Status::Fault,
    )?;
    check_entries(&rt, folder, 2)?;
    fs::remove_dir_all(&rt, folder)?;
    Ok(())
}

#[test]
fn a_file_of_identifiers_that_cannot_be_written_is_a_fault(rt: HostRuntime) -> Result<(), Fail> {
    let message = b"Message-ID: <1>\n\nx\n";
    gives(
        &rt,
        &["field", "-D", "mimetool_no_such_folder/ids"],
        message,
        message,
        b"mimetool: mimetool_no_such_folder/ids: No such file or directory (os error 2)\nmimetool: write fault\n",
        Status::Fault,
    )
}

#[test]
fn invalid_words_on_repeats_are_refused(rt: HostRuntime) -> Result<(), Fail> {
    check_refused(&rt, INVALID)
}

#[test]
fn repeated_messages_are_left_out(rt: HostRuntime) -> Result<(), Fail> {
    let alloc = rt.alloc();
    let mailbox = b"From a\nMessage-ID: <1@b>\n\n\nFrom b\nMessage-ID: <1@b>\n\n\n";
    let mut input = InMemory::new(mailbox);
    let (mut out, mut err) = (Buffer::new(alloc), Buffer::new(alloc));
    let mut seen = ListedSoFar::new(alloc);
    let work = FirstLines { lines: PlainLine };
    let way = FromLines::Any;
    let status = try_each(alloc, &mut input, &mut out, &mut err, &mut seen, way, &work)?;
    assert_eq!(rt; status, Status::Well);
    assert_eq!(rt; out.text.as_slice(), b"1 0 27 1\n".as_slice());
    Ok(())
}
