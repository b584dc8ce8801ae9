//! Groups of many edits of the root's fields in a row. What comes of them is worked out by hand.

use super::checks::{State, check_round, check_state};
use super::groups::{answer_in, check_group};
use super::named::{edit_named, edits_in, named_edits};
use super::{TableError, bytes_in, check_keys, session_over};
use mk_edit::{Edit, Session};
use mk_line::Meter;
use mk_rows::{Row, rows};
use std::alloc::{AllocError, Global};
use std::process::Abort;
use std::test::Fail;

/// How often lines stand in a message, and how often they are edited.
const TIMES: usize = 20;

/// A message of lines that stand TIMES times, and the rest of it; an edit that is made TIMES times, and those after it; and what
/// must come of them all, in the same form, or the number of the refused edit and the reason.
const ROWS: &str = r"
== fields among others are taken out
lines: X: a\n b\nY: c\n
rest: \nbody\n
often: remove X
gives: Y: c\n
gives-rest: \nbody\n

== fields of a multipart get other names
lines: X : a\n\tb\n
rest: Content-Type: multipart/mixed; boundary=b\n\n--b\n\none\n--b--\n
often: rename X to Old-X
gives: Old-X : a\n\tb\n
gives-rest: Content-Type: multipart/mixed; boundary=b\n\n--b\n\none\n--b--\n

== one field too few
lines: X: a\n
rest: Y: b\n\nbody
often: remove X
then: add Z at the top
then: remove X
index: 21
refused: NoSuchField

== another name after the first
lines: X: a\n
rest: Y: b\n\nbody
often: remove X
then: remove Y
then: remove X
index: 21
refused: NoSuchField

== another name, and a lower number
lines: X: a\nX: b\nY: c\n
rest: \n
often: remove the second x
then: remove Y
then: remove X
gives:
gives-rest: Y: c\nY: c\nY: c\nY: c\nY: c\nY: c\nY: c\nY: c\nY: c\nX: b\nY: c\nX: a\nX: b\nY: c\nX: a\nX: b\nY: c\nX: a\nX: b\nY: c\nX: a\nX: b\nY: c\nX: a\nX: b\nY: c\nX: a\nX: b\nY: c\nX: a\nX: b\nY: c\nX: a\nX: b\nY: c\nX: a\nX: b\nY: c\n\n

== a bad name at last
lines: X: a\n
rest: \n
often: rename X to Old-X
then: rename Old-X to X Y
index: 20
refused: BadName

== the type of a multipart may not go
lines: X: a\n
rest: Content-Type: multipart/mixed; boundary=b\n\n--b\n\none\n--b--\n
often: remove X
then: remove the type
index: 20
refused: Recut

== a field may not become the type of a message
lines: X: message/rfc822\n
rest: \nSubject: s\n\nbody\n
often: rename X to Content-Type
index: 0
refused: Recut

== other edits between
lines: X: a\nX: b\n
rest: \nbody\n
often: remove X
then: add Z at the top
then: rename X to Old-X
then: add Z at the top
gives:
gives-rest: Z: z\nZ: z\nOld-X: a\nX: b\nX: a\nX: b\nX: a\nX: b\nX: a\nX: b\nX: a\nX: b\nX: a\nX: b\nX: a\nX: b\nX: a\nX: b\nX: a\nX: b\nX: a\nX: b\n\nbody\n

== all fields, and no empty line after them
lines: X: a\n
rest:
often: remove X
gives:
gives-rest:

== no line of a body becomes an envelope
lines: X: a\n
rest: From x\n
often: remove X
index: 19
refused: Recut
";

// Lines TIMES times, and the rest.
fn long_text(alloc: Global, lines: &[u8], rest: &[u8]) -> Result<Vec<u8>, AllocError> {
    let mut text = Vec::new(alloc);
    for _ in 0..TIMES {
        text.extend_from_slice(lines)?;
    }
    text.extend_from_slice(rest)?;
    Ok(text)
}

// An edit TIMES times, and those after it.
fn long_group(alloc: Global, edits: &[Row], row: &Row) -> Result<Vec<Edit>, TableError> {
    check_keys(row, "lines rest often then gives gives-rest index refused")?;
    let mut all = Vec::new(alloc);
    for _ in 0..TIMES {
        all.push(edit_named(alloc, edits, row.text("often"))?)?;
    }
    for edit in edits_in(alloc, edits, row, "then")? {
        all.push(edit)?;
    }
    Ok(all)
}

// The group of a row was made over a text, or refused.
fn check_left(
    rt: &impl Abort,
    alloc: Global,
    session: &mut Session,
    text: &[u8],
    row: &Row,
) -> Result<(), Fail> {
    match row.get("gives") {
        Some(lines) => {
            let after = long_text(alloc, &lines.bytes, bytes_in(row, "gives-rest")?)?;
            let (before, after) = (State::new(text, 0, 1), State::new(&after, 1, 0));
            check_round(rt, alloc, session, before, after, row.shows)
        }
        None => check_state(rt, alloc, session, State::new(text, 0, 0), row.shows),
    }
}

// The text before the group of a row.
fn text_in(alloc: Global, row: &Row) -> Result<Vec<u8>, TableError> {
    let (lines, rest) = (bytes_in(row, "lines")?, bytes_in(row, "rest")?);
    Ok(long_text(alloc, lines, rest)?)
}

fn check_row(rt: &impl Abort, alloc: Global, edits: &[Row], row: &Row) -> Result<(), Fail> {
    let wanted = answer_in(row)?;
    let group = long_group(alloc, edits, row)?;
    let text = text_in(alloc, row)?;
    let mut session = session_over(alloc, &text)?;
    let answer = session.group(&group, &mut Meter::new());
    check_group(rt, answer, wanted, row.shows);
    check_left(rt, alloc, &mut session, &text, row)
}

#[test]
fn many_edits_in_a_row_are_one_step_or_none(rt: HostRuntime) -> Result<(), Fail> {
    let alloc = rt.alloc();
    let edits = named_edits(alloc)?;
    let all = rows(alloc, ROWS)?;
    assert_eq!(rt; all.len(), 11);
    for row in &all {
        check_row(&rt, alloc, &edits, row)?;
    }
    Ok(())
}
