//! Fields filtered and given, over devices in memory. The expected bytes are worked out by hand.

use super::check_left;
use super::devices::{Page, Text};
use super::letters::{letters_in, only};
use mk_mail::{FromLines, Letters, Sink, Source};
use mk_rows::{Row, rows};
use mk_run::{FieldFilter, Round, Status, give_up, run_field, try_field};
use std::alloc::Global;
use std::process::Abort;
use std::test::Fail;

pub const MAILBOX: &[u8] = b"From a\nA: 1\n\nx\n\nFrom b\nA: 2\n\ny\nFrom z\n\nFrom c\nA: 3\n\n";

pub const FILTERED: &[u8] = b"From a\nA: 9\n\nx\n\nFrom b\nA: 9\n\ny\nFrom z\n\nFrom c\nA: 9\n\n";

/// Letters, a message, and what comes of them.
const ROWS: &str = r#"
== no letters
message: A: 1\nB: 2\nA: 3\n\n
output: A: 1\nB: 2\nA: 3\n\n
status: Well

== no letters and no message
message:
status: Well

== the first of a name stays
first: A
message: A: 1\nB: 2\nA: 3\n\n
output: A: 1\nB: 2\n\n
status: Well

== the last of a name stays
last: A
message: A: 1\nB: 2\nA: 3\n\n
output: B: 2\nA: 3\n\n
status: Well

== a field of the name is there
add if: A: 9
message: A: 1\nB: 2\nA: 3\n\n
output: A: 1\nB: 2\nA: 3\n\n
status: Well

== no field of the name is there
add if: C: 9
message: A: 1\nB: 2\nA: 3\n\n
output: A: 1\nB: 2\nA: 3\nC: 9\n\n
status: Well

== one field takes the place of all of its name
only: A: 9
message: A: 1\nB: 2\nA: 3\n\n
output: B: 2\nA: 9\n\n
status: Well

== what follows the header stays as it is, in lines that end in CR LF
only: A: 9
message: From x\r\nA: 1\r\nB: 2\r\n\r\n--x\nA: 3\r\n\r\nA: 4\r\nWhat follows a header is no part of it, whatever it looks like and however long it is.
output: From x\r\nB: 2\r\nA: 9\r\n\r\n--x\nA: 3\r\n\r\nA: 4\r\nWhat follows a header is no part of it, whatever it looks like and however long it is.
status: Well

== the same in lines that end in LF
last: A
message: A: 1\nB: 2\nA: 3\n\nA: 4\n\nWhat follows a header is no part of it, whatever it looks like and however long it is.
output: B: 2\nA: 3\n\nA: 4\n\nWhat follows a header is no part of it, whatever it looks like and however long it is.
status: Well

== a body that no empty line separates from the fields
only: A: 9
message: A: 1\nbody\n\nA: 2\n\nWhat follows a header is no part of it, whatever it looks like and however long it is.
output: A: 9\nbody\n\nA: 2\n\nWhat follows a header is no part of it, whatever it looks like and however long it is.
status: Well

== the type of a long body can't be taken out
only: Content-Type:
message: A: 1\nContent-Type: multipart/mixed; boundary=b\n\n--b\n\nWhat follows a header is no part of it, whatever it looks like and however long it is.\nWhat follows a header is no part of it, whatever it looks like and however long it is.\n--b--\n
output: A: 1\nContent-Type: multipart/mixed; boundary=b\n\n--b\n\nWhat follows a header is no part of it, whatever it looks like and however long it is.\nWhat follows a header is no part of it, whatever it looks like and however long it is.\n--b--\n
errors: message 1: Recut\n
status: Refused

== all fields of a name get a prefix
prefixed: A:
message: A: 1\nB: 2\nA: 3\n\n
output: Old-A: 1\nB: 2\nOld-A: 3\n\n
status: Well

== all fields of a name get another
rename: A
to: C
message: A: 1\nB: 2\nA: 3\n\n
output: C: 1\nB: 2\nC: 3\n\n
status: Well

== all fields of a name, whole
whole: A
message: A: 1\nB: 2\nA: 3\n\n
output: A: 1\nA: 3\n
status: Well

== the values of all fields of a name
take: A
message: A: 1\nB: 2\nA: 3\n\n
output: \x201\n 3\n
status: Well

== a name in other letters
take: a
message: A: 1\nB: 2\nA: 3\n\n
output: \x201\n 3\n
status: Well

== there is no field of the name
whole: C
message: A: 1\nB: 2\nA: 3\n\n
status: Well

== all lines of a value
take: Subject
message: Subject: a\n b\n\n
output: \x20a\n b\n
status: Well

== all that follows the colon, in lines that end in CR LF
take: a
message: From x\r\nA :b:c\r\n\td\r\nB: 1\r\nA:
output: b:c\r\n\td\r\n
status: Well

== all lines of a field
whole: a
message: A : b\r\n\td\r\nB: 1\r\nA:
output: A : b\r\n\td\r\nA:
status: Well

== a field of the root, and none of its parts
whole: Content-Type
message: Subject: t\nContent-Type: multipart/mixed; boundary="b"\n\npre\n--b\n\none\n--b \t\nContent-Type: text/html\n\ntwo\n--b--\nepi\n
output: Content-Type: multipart/mixed; boundary="b"\n
status: Well

== an edit is refused
only: Content-Type:
message: Subject: t\nContent-Type: multipart/mixed; boundary="b"\n\npre\n--b\n\none\n--b \t\nContent-Type: text/html\n\ntwo\n--b--\nepi\n
output: Subject: t\nContent-Type: multipart/mixed; boundary="b"\n\npre\n--b\n\none\n--b \t\nContent-Type: text/html\n\ntwo\n--b--\nepi\n
errors: message 1: Recut\n
status: Refused

== an edit is refused, so the one before it is dropped
add: X: y
only: Content-Type:
message: Subject: t\nContent-Type: multipart/mixed; boundary="b"\n\npre\n--b\n\none\n--b \t\nContent-Type: text/html\n\ntwo\n--b--\nepi\n
output: Subject: t\nContent-Type: multipart/mixed; boundary="b"\n\npre\n--b\n\none\n--b \t\nContent-Type: text/html\n\ntwo\n--b--\nepi\n
errors: message 1: Recut\n
status: Refused

== fields that have a prefix, and the field that gets their name
prefixed: Subject: x
message: Subject: a\nSubject: b\n\n
output: Old-Subject: a\nOld-Subject: b\nSubject: x\n\n
status: Well

== a field is added, so another one may go
add: B: 2
only: A:
message: A: 1\nFrom x\n
output: B: 2\nFrom x\n
status: Well

== a lone field before an envelope can't go
only: A:
message: A: 1\nFrom x\n
output: A: 1\nFrom x\n
errors: message 1: Recut\n
status: Refused

== the ending is that of the message as it came
only: A: 9
message: A: 1\r\nB: 2\n\n
output: B: 2\nA: 9\r\n\n
status: Well

== a field in an empty message
add: X: y
message:
output: X: y\n
status: Well

== no field goes after an open line
add: X: y
message: A: 1
output: A: 1
errors: message 1: OpenLine\n
status: Refused

== a mailbox as one message
only: A:
message: From a\nA: 1\n\nFrom b\nA: 2\n
output: From a\n\nFrom b\nA: 2\n
status: Well

== the only field goes
only: A:
message: A: 1\n
status: Well
"#;

/// The same for each message of a mailbox.
const MAILBOXES: &str = r#"
== one field takes the place of all of its name
only: A: 9
message: From a\nA: 1\n\nx\n\nFrom b\nA: 2\n\ny\nFrom z\n\nFrom c\nA: 3\n\n
output: From a\nA: 9\n\nx\n\nFrom b\nA: 9\n\ny\nFrom z\n\nFrom c\nA: 9\n\n
status: Well

== no letters
message: From a\nA: 1\n\nx\n\nFrom b\nA: 2\n\ny\nFrom z\n\nFrom c\nA: 3\n\n
output: From a\nA: 1\n\nx\n\nFrom b\nA: 2\n\ny\nFrom z\n\nFrom c\nA: 3\n\n
status: Well

== an empty mailbox has no message
add: X: y
message:
status: Well

== the values of all fields of a name
take: A
message: From a\nA: 1\n\nx\n\nFrom b\nA: 2\n\ny\nFrom z\n\nFrom c\nA: 3\n\n
output: \x201\n 2\n 3\n
status: Well

== all fields of a name, whole
whole: a
message: From a\nA: 1\n\nx\n\nFrom b\nA: 2\n\ny\nFrom z\n\nFrom c\nA: 3\n\n
output: A: 1\nA: 2\nA: 3\n
status: Well

== there is no field of the name
first: B
message: From a\nA: 1\n\nx\n\nFrom b\nA: 2\n\ny\nFrom z\n\nFrom c\nA: 3\n\n
output: From a\nA: 1\n\nx\n\nFrom b\nA: 2\n\ny\nFrom z\n\nFrom c\nA: 3\n\n
status: Well

== a message of which no byte is left
only: A:
message: A: 1\n
status: Well

== the first message has no envelope, and its field goes
only: A:
message: A: 1\n\nFrom b\nA: 2\n
output: \nFrom b\n
status: Well

== a body that begins with a space: the second message is refused, and those around it aren't
add: X: y
message: From a\n\nFrom b\n y\n\nFrom c\n
output: From a\nX: y\n\nFrom b\n y\n\nFrom c\nX: y\n
errors: message 2: Recut\n
status: Refused

== an open line: the last message is refused, and those before it aren't
add: X: y
message: From a\nA: 1\n\nFrom b\nA: 2\n x\n\nFrom c\nA: 3
output: From a\nA: 1\nX: y\n\nFrom b\nA: 2\n x\nX: y\n\nFrom c\nA: 3
errors: message 3: OpenLine\n
status: Refused

== an open line goes, and the field in its place is ended
only: A: 9
message: From c\nA: 3
output: From c\nA: 9\n
status: Well

== fields of more than one line
only: A:
message: From a\nA: 1\n x\n\nFrom b\nA: 2\nFrom x\n\nFrom c\nA: 3\n b\n
output: From a\n\nFrom b\nFrom x\n\nFrom c\n
status: Well

== the first message is refused, and those after it aren't
only: A:
message: A: 1\nFrom x\n\nFrom b\nA: 2\n\nFrom c\nA: 3\n y\n\n
output: A: 1\nFrom x\n\nFrom b\n\nFrom c\n\n
errors: message 1: Recut\n
status: Refused
"#;

/// The same for each message of a mailbox that is cut only at From-lines with a date.
const DATED: &str = r#"
== a sentence of a body stays in it
only: A: 9
message: From a Fri Jul  8 12:08:34 2011\nA: 1\n\nFrom here on\nA: 2\n\nFrom b Fri Jul  8 12:08:35 2011\nA: 3\n
output: From a Fri Jul  8 12:08:34 2011\nA: 9\n\nFrom here on\nA: 2\n\nFrom b Fri Jul  8 12:08:35 2011\nA: 9\n
status: Well

== empty lines before the first From-line are left as they are
add: X: y
message: \n\r\nFrom a Fri Jul  8 12:08:34 2011\nA: 1\n
output: \n\r\nFrom a Fri Jul  8 12:08:34 2011\nA: 1\nX: y\n
status: Well

== nothing of them is given
take: A
message: \nFrom a Fri Jul  8 12:08:34 2011\nA: 1\n
output: \x201\n
status: Well

== nor as fields
whole: A
message: \nFrom a Fri Jul  8 12:08:34 2011\nA: 1\n
output: A: 1\n
status: Well

== they are the first message
add: X: y
message: \nFrom b Fri Jul  8 12:08:34 2011\n y\n
output: \nFrom b Fri Jul  8 12:08:34 2011\n y\n
errors: message 2: Recut\n
status: Refused
"#;

// What a run left.
#[derive(Drop)]
struct Left {
    status: Status,
    out: Page,
    err: Page,
}

fn run<S: Source>(
    alloc: Global,
    letters: &Letters,
    input: &mut S,
    mut out: Page,
    size: usize,
    each: bool,
) -> Result<Left, Fail> {
    let mut err = Page::new(alloc, size)?;
    let status = if letters.ok() {
        run_field(alloc, input, &mut out, &mut err, letters, each)
    } else {
        Status::Usage
    };
    Ok(Left { status, out, err })
}

fn check_row(
    rt: &impl Abort,
    alloc: Global,
    row: &Row,
    size: usize,
    each: bool,
) -> Result<(), Fail> {
    let letters = letters_in(alloc, row)?;
    let left = run_row(alloc, &letters, row, size, each)?;
    check_left(rt, alloc, row, left.status, &left.out, &left.err)
}

// What letters leave of a row's message.
fn run_row(
    alloc: Global,
    letters: &Letters,
    row: &Row,
    size: usize,
    each: bool,
) -> Result<Left, Fail> {
    let mut input = Text::new(row.bytes("message"), size);
    let page = Page::new(alloc, size)?;
    run(alloc, letters, &mut input, page, size, each)
}

#[test]
fn letters_filter_a_message(rt: HostRuntime) -> Result<(), Fail> {
    for row in &rows(rt.alloc(), ROWS)? {
        for size in [1, 7, 1_000] {
            check_row(&rt, rt.alloc(), row, size, false)?;
        }
    }
    Ok(())
}

#[test]
fn letters_filter_a_mailbox(rt: HostRuntime) -> Result<(), Fail> {
    for row in &rows(rt.alloc(), MAILBOXES)? {
        for size in 1..60usize {
            check_row(&rt, rt.alloc(), row, size, true)?;
        }
    }
    Ok(())
}

fn check_dated(rt: &impl Abort, alloc: Global, row: &Row, size: usize) -> Result<(), Fail> {
    let letters = letters_in(alloc, row)?;
    let rounds = [Round::new(&letters)];
    let filter = FieldFilter {
        from_lines: FromLines::Dated,
        ..FieldFilter::new(&rounds)
    };
    check_filter(rt, alloc, row, size, &filter)
}

// A filter leaves of a mailbox what its row says.
fn check_filter(
    rt: &impl Abort,
    alloc: Global,
    row: &Row,
    size: usize,
    filter: &FieldFilter<'_>,
) -> Result<(), Fail> {
    if !filter.ok() {
        assert!(rt; false, "{}", row.shows);
        return Ok(());
    }
    let mut input = Text::new(row.bytes("message"), size);
    let mut out = Page::new(alloc, size)?;
    let mut err = Page::new(alloc, size)?;
    let status = match try_field(alloc, &mut input, &mut out, &mut err, filter, true) {
        Ok(status) => status,
        Err(cause) => give_up(&mut err, cause),
    };
    check_left(rt, alloc, row, status, &out, &err)
}

#[test]
fn letters_filter_a_mailbox_with_dates(rt: HostRuntime) -> Result<(), Fail> {
    for row in &rows(rt.alloc(), DATED)? {
        for size in [1, 7, 1_000] {
            check_dated(&rt, rt.alloc(), row, size)?;
        }
    }
    Ok(())
}

const READ_FAULT: &[u8] = b"mimetool: read fault\n";

/// Where the second and the third From-line end in the mailbox.
const KNOWN: [usize; 2] = [23, 46];

/// How many bytes of the output have gone out once the line before is known.
const GONE: [usize; 2] = [16, 39];

// A message goes out as soon as the From-line after it is read, and a source that fails later doesn't take it back.
#[test]
fn messages_go_out_one_by_one(rt: HostRuntime) -> Result<(), Fail> {
    let alloc = rt.alloc();
    let letters = only(alloc, b"A: 9")?;
    for good in 0..MAILBOX.len() + 1 {
        let gone = if good < KNOWN[0] {
            0
        } else if good < KNOWN[1] {
            GONE[0]
        } else {
            GONE[1]
        };
        check_failing(&rt, alloc, &letters, good, true, &FILTERED[..gone])?;
    }
    Ok(())
}

// Where reading fails after so many bytes, this has gone out, and the line of the fault.
fn check_failing(
    rt: &impl Abort,
    alloc: Global,
    letters: &Letters,
    good: usize,
    each: bool,
    output: &[u8],
) -> Result<(), Fail> {
    let mut input = Text::failing(MAILBOX, 1, good as u64);
    let left = run(alloc, letters, &mut input, Page::new(alloc, 7)?, 7, each)?;
    assert_eq!(rt; left.out.bytes(), output, "after {good} bytes");
    assert_eq!(rt; left.err.bytes(), READ_FAULT);
    assert_eq!(rt; left.status, Status::Fault);
    assert_eq!(rt; input.faults(), 1);
    Ok(())
}

// A message that isn't one of a mailbox is read whole before any of it is written.
#[test]
fn a_read_fault_prints_nothing(rt: HostRuntime) -> Result<(), Fail> {
    let alloc = rt.alloc();
    let letters = only(alloc, b"A: 9")?;
    for good in 0..MAILBOX.len() + 1 {
        check_failing(&rt, alloc, &letters, good, false, b"")?;
    }
    Ok(())
}
