//! Mailboxes that are cut only at From-lines that a field follows.

use super::mailboxes::Bytes;
use mk_mail::{FromLines, Mailbox, Source};
use mk_rows::{Row, rows};
use std::alloc::Global;
use std::process::Abort;
use std::test::Fail;

/// The messages of a mailbox.
const MAILBOXES: &str = r#"
== a sentence of a body
mailbox: From a\nA: 1\n\nx\n\nFrom here on\nall is body\n\nFrom b\nB: 2\n\ny\n
message: From a\nA: 1\n\nx\n\nFrom here on\nall is body\n\n
message: From b\nB: 2\n\ny\n

== an empty line after it, and at once another one
mailbox: From a\nA: 1\n\nFrom here on\n\nFrom b\nB: 2\n
message: From a\nA: 1\n\nFrom here on\n\n
message: From b\nB: 2\n

== a From-line after it
mailbox: From a\nA: 1\n\nFrom here\nFrom b\nB: 2\n
message: From a\nA: 1\n\nFrom here\nFrom b\nB: 2\n

== blanks before the colon
mailbox: A: 1\n\nFrom b\nB \t:\n
message: A: 1\n\n
message: From b\nB \t:\n

== lines that end in CR LF
mailbox: A: 1\r\n\r\nFrom b\r\nB: 2\r\n\r\n
message: A: 1\r\n\r\n
message: From b\r\nB: 2\r\n\r\n

== an open line is a field start
mailbox: A: 1\n\nFrom b\nB:
message: A: 1\n\n
message: From b\nB:

== and one that isn't
mailbox: A: 1\n\nFrom b\nB
message: A: 1\n\nFrom b\nB

== an open From-line
mailbox: A: 1\n\nFrom b
message: A: 1\n\nFrom b

== nothing after a From-line
mailbox: A: 1\n\nFrom b\n
message: A: 1\n\nFrom b\n

== a blank line after it
mailbox: A: 1\n\nFrom b\n B: 2\n
message: A: 1\n\nFrom b\n B: 2\n

== no name before the colon
mailbox: A: 1\n\nFrom b\n: 2\n
message: A: 1\n\nFrom b\n: 2\n

== the first message needs no From-line, and no field after it
mailbox: From here\non\n\nFrom b\nB: 2\n
message: From here\non\n\n
message: From b\nB: 2\n

== two empty lines between messages
mailbox: From a\nA: 1\n\n\nFrom b\nB: 2\n\nFrom c\nC: 3\n
message: From a\nA: 1\n\n\n
message: From b\nB: 2\n\n
message: From c\nC: 3\n

== empty lines before the first From-line
mailbox: \n\nFrom a\nA: 1\n
message: \n\n
message: From a\nA: 1\n

== a date, and no field
mailbox: A: 1\n\nFrom a Fri Jul  8 12:08:34 2011\n\nx\n
message: A: 1\n\nFrom a Fri Jul  8 12:08:34 2011\n\nx\n

== nothing
mailbox:
"#;

fn check_messages(rt: &impl Abort, alloc: Global, row: &Row, size: usize) {
    let mut source = Bytes::new(row.bytes("mailbox"), size);
    let mut mailbox = Mailbox::cut_at(alloc, FromLines::Fielded);
    for cell in &row.cells {
        if cell.key == "message" {
            match mailbox.next(&mut source) {
                Ok(Some(piece)) => {
                    assert_eq!(rt; piece.as_slice(), cell.bytes.as_slice(), "{}", row.shows);
                }
                _ => assert!(rt; false, "{}", row.shows),
            }
        }
    }
    assert!(rt;
        matches!(mailbox.next(&mut source), Ok(None)),
        "{}",
        row.shows
    );
}

#[test]
fn a_mailbox_is_cut_before_fields(rt: HostRuntime) -> Result<(), Fail> {
    for row in &rows(rt.alloc(), MAILBOXES)? {
        for size in [1, 2, 3, 5, 7, 11, 1_000] {
            check_messages(&rt, rt.alloc(), row, size);
        }
    }
    Ok(())
}

// A message is given once the field after the next From-line is whole, and no byte more is read.
#[test]
fn a_message_is_given_at_the_next_field(rt: HostRuntime) -> Result<(), Fail> {
    let first = b"From a\nA: 1\n\n";
    let text = b"From a\nA: 1\n\nFrom b\nB: 2\nC: 3\n";
    let mut source = Bytes::new(text, 1);
    let mut mailbox = Mailbox::cut_at(rt.alloc(), FromLines::Fielded);
    match mailbox.next(&mut source) {
        Ok(Some(piece)) => assert_eq!(rt; piece.as_slice(), first.as_slice()),
        _ => assert!(rt; false),
    }
    assert_eq!(rt; source.reads(), 25);
    Ok(())
}

#[test]
fn empty_lines_are_left_alone(rt: HostRuntime) -> Result<(), Fail> {
    assert!(rt; FromLines::Fielded.leaves_alone(b"\n\r\n\n"));
    assert!(rt; !FromLines::Fielded.leaves_alone(b"\n \n"));
    assert!(rt; !FromLines::Fielded.leaves_alone(b"From a\nA: 1\n\n"));
    Ok(())
}
