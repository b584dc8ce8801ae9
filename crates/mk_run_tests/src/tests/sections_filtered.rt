//! Fields of a section that are filtered and given, in a message and in a mailbox. The expected bytes are worked out by hand.

use super::check_left;
use super::devices::{Page, Text};
use super::letters::letters_in;
use mk_mail::FromLines;
use mk_rows::{Row, rows};
use mk_run::{FieldFilter, Round, give_up, try_field};
use std::alloc::Global;
use std::process::Abort;
use std::test::Fail;

/// Letters at a path of a message, and what comes of them.
const MESSAGES: &str = r#"
== one field of a part takes the place of all of its name
at: 1.1
only: A: 9
message: A: 0\nContent-Type: multipart/mixed; boundary=b\n\n--b\nA: 1\nB: 2\nA: 3\n\none\n--b\nA: 4\n\ntwo\n--b--\n
output: A: 0\nContent-Type: multipart/mixed; boundary=b\n\n--b\nB: 2\nA: 9\n\none\n--b\nA: 4\n\ntwo\n--b--\n
status: Well

== the path of the message itself
at: 1
only: A: 9
message: A: 0\nContent-Type: multipart/mixed; boundary=b\n\n--b\nA: 1\n\none\n--b--\n
output: Content-Type: multipart/mixed; boundary=b\nA: 9\n\n--b\nA: 1\n\none\n--b--\n
status: Well

== all letters that edit, in a message within a part
at: 1.1.1
rename: B
to: C
add if: D: 1
prefixed: A: 9
first: Old-A
message: Content-Type: multipart/digest; boundary=b\r\n\r\n--b\r\n\r\nA: 1\r\nB: 2\r\nA: 3\r\n\r\none\r\n--b--\r\n
output: Content-Type: multipart/digest; boundary=b\r\n\r\n--b\r\n\r\nOld-A: 1\r\nC: 2\r\nD: 1\r\nA: 9\r\n\r\none\r\n--b--\r\n
status: Well

== a part without fields gets one
at: 1.1
add: A: 9
message: Content-Type: multipart/mixed; boundary=b\n\n--b\n\none\n--b--\n
output: Content-Type: multipart/mixed; boundary=b\n\n--b\nA: 9\n\none\n--b--\n
status: Well

== the values of a name in a part
at: 1.1
take: A
message: A: 0\nContent-Type: multipart/mixed; boundary=b\n\n--b\nA: 1\nB: 2\nA: 3\n\none\n--b\nA: 4\n\ntwo\n--b--\n
output: \x201\n 3\n
status: Well

== its fields, whole
at: 1.2
whole: a
message: A: 0\nContent-Type: multipart/mixed; boundary=b\n\n--b\nA: 1\n\none\n--b\nA: 4\n 5\n\ntwo\n--b--\n
output: A: 4\n 5\n
status: Well

== a name that only the message has
at: 1.1
take: B
message: B: 0\nContent-Type: multipart/mixed; boundary=b\n\n--b\nA: 1\n\none\n--b--\n
output:
status: Well

== no such section
at: 1.3
only: A: 9
message: Content-Type: multipart/mixed; boundary=b\n\n--b\nA: 1\n\none\n--b--\n
output: Content-Type: multipart/mixed; boundary=b\n\n--b\nA: 1\n\none\n--b--\n
errors: message 1: NoSuchSection\n
status: Refused

== no such section, and letters that would find no field
at: 1.1
first: A
message: A: 1\nA: 2\n\none\n
output: A: 1\nA: 2\n\none\n
errors: message 1: NoSuchSection\n
status: Refused

== no such section, and no letters
at: 2
message: A: 1\n\none\n
output: A: 1\n\none\n
errors: message 1: NoSuchSection\n
status: Refused

== nothing is given where there is no such section
at: 1.1
take: A
message: A: 1\n\none\n
output:
errors: message 1: NoSuchSection\n
status: Refused

== nor as fields
at: 1.1
whole: A
message: A: 1\n\none\n
output:
errors: message 1: NoSuchSection\n
status: Refused

== a part that would be read in another way
at: 1.1
only: Content-Type:
message: Content-Type: multipart/mixed; boundary=b\n\n--b\nContent-Type: message/rfc822\n\nA: 1\n--b--\n
output: Content-Type: multipart/mixed; boundary=b\n\n--b\nContent-Type: message/rfc822\n\nA: 1\n--b--\n
errors: message 1: Recut\n
status: Refused

== a field that would be a delimiter of the multipart at 1.1
at: 1.1.1
add: --b: x
message: Content-Type: multipart/mixed; boundary=a\n\n--a\nContent-Type: multipart/mixed; boundary="b: x"\n\n--b: x\nA: 1\n\none\n--b: x--\n--a--\n
output: Content-Type: multipart/mixed; boundary=a\n\n--a\nContent-Type: multipart/mixed; boundary="b: x"\n\n--b: x\nA: 1\n\none\n--b: x--\n--a--\n
errors: message 1: HoldsBoundary 1.1\n
status: Refused
"#;

/// The same for the messages of a mailbox.
const MAILBOXES: &str = r#"
== a message without the section stays, and the run goes on
at: 1.1
add: A: 9
message: From a\nContent-Type: message/rfc822\n\nA: 1\n\none\n\nFrom b\nA: 2\n\nFrom c\nContent-Type: message/rfc822\n\nA: 3\n\n
output: From a\nContent-Type: message/rfc822\n\nA: 1\nA: 9\n\none\n\nFrom b\nA: 2\n\nFrom c\nContent-Type: message/rfc822\n\nA: 3\nA: 9\n\n
errors: message 2: NoSuchSection\n
status: Refused

== the values in those that have the section
at: 1.1
take: A
message: From a\nContent-Type: message/rfc822\n\nA: 1\n\none\n\nFrom b\nA: 2\n\nFrom c\nContent-Type: message/rfc822\n\nA: 3\n\n
output: \x201\n 3\n
errors: message 2: NoSuchSection\n
status: Refused

== a From-line that the last field kept apart from an empty line
at: 1.1
only: A:
message: From a\nContent-Type: message/rfc822\n\nA: 1\nFrom x\n\nFrom b\nContent-Type: message/rfc822\n\nA: 2\n\n
output: From a\nContent-Type: message/rfc822\n\nA: 1\nFrom x\n\nFrom b\nContent-Type: message/rfc822\n\n\n
errors: message 1: Recut\n
status: Refused

== a field that another letter puts before the From-line
at: 1.1
only: A: 9
message: From a\nContent-Type: message/rfc822\n\nA: 1\nFrom x\n\nFrom b\nContent-Type: message/rfc822\n\nA: 2\n\n
output: From a\nContent-Type: message/rfc822\n\nA: 9\nFrom x\n\nFrom b\nContent-Type: message/rfc822\n\nA: 9\n\n
status: Well

== a field in the place of the empty line before the next message
at: 1.1
add: A: 9
message: From a\nContent-Type: message/rfc822\n\nFrom b\nContent-Type: message/rfc822\n\n
output: From a\nContent-Type: message/rfc822\n\nFrom b\nContent-Type: message/rfc822\n\n
errors: message 1: Recut\nmessage 2: Recut\n
status: Refused
"#;

/// The same where a mailbox is cut only at From-lines with a date.
const DATED: &str = r#"
== a From-line without a date begins no message
at: 1.1
only: A:
message: From a Fri Jul  8 12:08:34 2011\nContent-Type: message/rfc822\n\nA: 1\nFrom x\n\n
output: From a Fri Jul  8 12:08:34 2011\nContent-Type: message/rfc822\n\nFrom x\n\n
status: Well

== one with a date does
at: 1.1
only: A:
message: From a Fri Jul  8 12:08:34 2011\nContent-Type: message/rfc822\n\nA: 1\nFrom x Fri Jul  8 12:08:35 2011\n\n
output: From a Fri Jul  8 12:08:34 2011\nContent-Type: message/rfc822\n\nA: 1\nFrom x Fri Jul  8 12:08:35 2011\n\n
errors: message 1: Recut\n
status: Refused

== empty lines before the first From-line are left as they are
at: 1.1
add: A: 9
message: \nFrom a Fri Jul  8 12:08:34 2011\nContent-Type: message/rfc822\n\nA: 1\n\n
output: \nFrom a Fri Jul  8 12:08:34 2011\nContent-Type: message/rfc822\n\nA: 1\nA: 9\n\n
status: Well
"#;

/// The same where a mailbox is cut only at From-lines that a field follows.
const FIELDED: &str = r#"
== a sentence of a body is no From-line
at: 1
add: X: y
message: From a\nA: 1\n\nx\n\nFrom here on\nall is body\n\nFrom b\nB: 2\n
output: From a\nA: 1\nX: y\n\nx\n\nFrom here on\nall is body\n\nFrom b\nB: 2\nX: y\n
status: Well

== a From-line keeps a field after it
at: 1
only: A:
message: From a\nA: 1\n\nx\n\nFrom b\nA: 2\nB: 2\n\nFrom c\nA: 3\n
output: From a\nA: 1\n\nx\n\nFrom b\nB: 2\n\nFrom c\nA: 3\n
errors: message 1: Recut\nmessage 3: Recut\n
status: Refused

== a message that begins with no From-line needs none
at: 1
only: A:
message: A: 1\n\nx\n\nFrom b\nB: 2\n
output: \nx\n\nFrom b\nB: 2\n
status: Well

== a From-line after an empty line, and no field after it
at: 1.1
only: A:
message: From a\nContent-Type: message/rfc822\n\nA: 1\nFrom x\n\n
output: From a\nContent-Type: message/rfc822\n\nFrom x\n\n
status: Well

== one that a field follows
at: 1.1
only: A:
message: From a\nContent-Type: message/rfc822\n\nA: 1\nFrom x\nB: 2\n\n
output: From a\nContent-Type: message/rfc822\n\nA: 1\nFrom x\nB: 2\n\n
errors: message 1: Recut\n
status: Refused

== empty lines before the first From-line are left as they are
at: 1
add: A: 9
message: \nFrom a\nA: 1\n\n
output: \nFrom a\nA: 1\nA: 9\n\n
status: Well
"#;

/// What the input is.
#[derive(Clone, Copy)]
struct Input {
    each: bool,
    from_lines: FromLines,
}

fn check_row(
    rt: &impl Abort,
    alloc: Global,
    row: &Row,
    size: usize,
    given: Input,
) -> Result<(), Fail> {
    let letters = letters_in(alloc, row)?;
    let rounds = [Round::new(&letters)];
    let path = row.path(alloc, "at")?;
    let filter = FieldFilter {
        from_lines: given.from_lines,
        path: &path,
        ..FieldFilter::new(&rounds)
    };
    let mut input = Text::new(row.bytes("message"), size);
    let mut out = Page::new(alloc, size)?;
    let mut err = Page::new(alloc, size)?;
    if !filter.ok() {
        assert!(rt; false, "{}", row.shows);
        return Ok(());
    }
    let status = match try_field(alloc, &mut input, &mut out, &mut err, &filter, given.each) {
        Ok(status) => status,
        Err(cause) => give_up(&mut err, cause),
    };
    check_left(rt, alloc, row, status, &out, &err)
}

fn check_table(
    rt: &impl Abort,
    alloc: Global,
    table: &'static str,
    given: Input,
) -> Result<(), Fail> {
    for row in &rows(alloc, table)? {
        for size in [1, 7, 1_000] {
            check_row(rt, alloc, row, size, given)?;
        }
    }
    Ok(())
}

#[test]
fn letters_filter_a_section(rt: HostRuntime) -> Result<(), Fail> {
    let given = Input {
        each: false,
        from_lines: FromLines::Any,
    };
    check_table(&rt, rt.alloc(), MESSAGES, given)
}

#[test]
fn letters_filter_a_section_of_each_message(rt: HostRuntime) -> Result<(), Fail> {
    let given = Input {
        each: true,
        from_lines: FromLines::Any,
    };
    check_table(&rt, rt.alloc(), MAILBOXES, given)
}

#[test]
fn letters_filter_a_section_of_each_dated_message(rt: HostRuntime) -> Result<(), Fail> {
    let given = Input {
        each: true,
        from_lines: FromLines::Dated,
    };
    check_table(&rt, rt.alloc(), DATED, given)
}

#[test]
fn letters_filter_each_message_before_a_field(rt: HostRuntime) -> Result<(), Fail> {
    let given = Input {
        each: true,
        from_lines: FromLines::Fielded,
    };
    check_table(&rt, rt.alloc(), FIELDED, given)
}
