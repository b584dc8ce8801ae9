//! Mailboxes that are cut only at From-lines with a date (RFC 4155, appendix A).

use super::mailboxes::Bytes;
use mk_mail::{FromLines, Mailbox};
use mk_rows::{Row, rows};
use std::alloc::Global;
use std::process::Abort;
use std::test::Fail;

/// Lines, and whether each begins a message after an empty line.
const LINES: &str = r#"
== a day of a blank and a digit
line: From MAILER-DAEMON Fri Jul  8 12:08:34 2011
begins: yes

== a day of two digits, and no address
line: From Sun Oct 31 23:59:59 1999
begins: yes

== a leap second, after a tab
line: From a\tSat Dec 31 23:59:60 2016
begins: yes

== a zone of letters before the year
line: From a@b Mon Jan 02 15:04:05 MST 2006
begins: yes

== a zone of letters after it
line: From a@b Mon Jan 02 15:04:05 2006 GMT
begins: yes

== a sign and four digits before it
line: From a@b Mon Jan 02 15:04:05 -0700 2006
begins: yes

== and after it
line: From a@b Mon Jan 02 15:04:05 2006 +0000
begins: yes

== a sentence
line: From here on all is body
begins: no

== a date in another form
line: From a Mon, 2 Jan 2006 15:04:05 +0000
begins: no

== a day of one digit alone
line: From a Fri Jul 8 12:08:34 2011
begins: no

== no weekday
line: From a Jul 08 12:08:34 2011
begins: no

== a weekday of another language
line: From a Son Jul 08 12:08:34 2011
begins: no

== a month in capitals
line: From a Fri JUL 08 12:08:34 2011
begins: no

== hour 24
line: From a Fri Jul 08 24:00:00 2011
begins: no

== minute 60
line: From a Fri Jul 08 12:60:00 2011
begins: no

== second 61
line: From a Fri Jul 08 12:00:61 2011
begins: no

== no seconds
line: From a Fri Jul 08 12:00 2011
begins: no

== a year of five digits
line: From a Fri Jul 08 12:00:00 20111
begins: no

== an offset of three digits
line: From a Fri Jul 08 12:00:00 2011 +000
begins: no

== two zones
line: From a Fri Jul 08 12:00:00 GMT 2011 GMT
begins: no

== a blank after it
line: From a Fri Jul 08 12:00:00 2011\x20
begins: no

== more words after it
line: From a Fri Jul 08 12:00:00 2011 remote from b
begins: no

== no blank before it
line: From aFri Jul 08 12:00:00 2011
begins: no

== a date, and no From-line
line: X Fri Jul 08 12:00:00 2011
begins: no

== a field
line: From : a Fri Jul 08 12:00:00 2011
begins: no
"#;

/// The messages of a mailbox.
const MAILBOXES: &str = r#"
== a sentence of a body, and an open line
mailbox: From a Fri Jul  8 12:08:34 2011\n\nx\n\nFrom here on\n\nFrom b Fri Jul  8 12:08:35 2011
message: From a Fri Jul  8 12:08:34 2011\n\nx\n\nFrom here on\n\n
message: From b Fri Jul  8 12:08:35 2011

== empty lines before the first From-line
mailbox: \n\r\nFrom a Fri Jul  8 12:08:34 2011\r\nA: 1\r\n
message: \n\r\n
message: From a Fri Jul  8 12:08:34 2011\r\nA: 1\r\n

== the first message needs no date
mailbox: From here\n\nFrom a Fri Jul  8 12:08:34 2011\n
message: From here\n\n
message: From a Fri Jul  8 12:08:34 2011\n
"#;

/// Messages, and whether filters leave them alone.
const ALONE: &str = r#"
== empty lines
message: \n\r\n\n
alone: yes

== a line of a blank
message: \n \n
alone: no

== an open line
message: \nx
alone: no

== a message
message: From a Fri Jul  8 12:08:34 2011\n\n
alone: no
"#;

fn says(answer: bool) -> &'static str {
    if answer { "yes" } else { "no" }
}

// How many messages a mailbox gives.
fn count(alloc: Global, from_lines: FromLines, text: &[u8]) -> usize {
    let mut source = Bytes::new(text, 7);
    let mut mailbox = Mailbox::cut_at(alloc, from_lines);
    let mut count = 0usize;
    for _turn in 0..100 {
        match mailbox.next(&mut source) {
            Ok(Some(_)) => count = count.saturating_add(1),
            _ => return count,
        }
    }
    count
}

#[test]
fn from_lines_end_with_a_date(rt: HostRuntime) -> Result<(), Fail> {
    let alloc = rt.alloc();
    for row in &rows(alloc, LINES)? {
        let mut text = Vec::from_slice(alloc, b"x\n\n")?;
        text.extend_from_slice(row.bytes("line"))?;
        for end in [b"".as_slice(), b"\n".as_slice(), b"\r\n".as_slice()] {
            let mut mailbox = Vec::from_slice(alloc, &text)?;
            mailbox.extend_from_slice(end)?;
            let begins = count(alloc, FromLines::Dated, &mailbox) == 2;
            assert_eq!(rt; says(begins), row.text("begins"), "{}", row.shows);
        }
    }
    Ok(())
}

fn check_messages(rt: &impl Abort, alloc: Global, row: &Row, size: usize) {
    let mut source = Bytes::new(row.bytes("mailbox"), size);
    let mut mailbox = Mailbox::cut_at(alloc, FromLines::Dated);
    check_each(rt, &mut mailbox, &mut source, row);
    assert!(rt;
        matches!(mailbox.next(&mut source), Ok(None)),
        "{}",
        row.shows
    );
}

fn check_each(rt: &impl Abort, mailbox: &mut Mailbox, source: &mut Bytes<'_>, row: &Row) {
    for cell in &row.cells {
        if cell.key == "message" {
            match mailbox.next(source) {
                Ok(Some(piece)) => {
                    assert_eq!(rt; piece.as_slice(), cell.bytes.as_slice(), "{}", row.shows);
                }
                _ => assert!(rt; false, "{}", row.shows),
            }
        }
    }
}

#[test]
fn a_mailbox_is_cut_at_dates(rt: HostRuntime) -> Result<(), Fail> {
    for row in &rows(rt.alloc(), MAILBOXES)? {
        for size in [1, 7, 1_000] {
            check_messages(&rt, rt.alloc(), row, size);
        }
    }
    Ok(())
}

#[test]
fn empty_lines_are_left_alone(rt: HostRuntime) -> Result<(), Fail> {
    for row in &rows(rt.alloc(), ALONE)? {
        let message = row.bytes("message");
        let alone = FromLines::Dated.leaves_alone(message);
        assert_eq!(rt; says(alone), row.text("alone"), "{}", row.shows);
        assert!(rt; !FromLines::Any.leaves_alone(message), "{}", row.shows);
    }
    Ok(())
}
