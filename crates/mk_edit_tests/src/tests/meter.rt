//! How many lines are looked at: no more than the edit and its section ask for, however many parts a message has.

use super::checks::{check_answer, same};
use super::{Asked, asked_in, bytes_in, edit_at, edit_in, number_in, only_row, session_over};
use mk_edit::Session;
use mk_line::Meter;
use mk_rows::{Row, rows};
use std::alloc::{AllocError, Global};
use std::process::Abort;
use std::test::Fail;

const PARTS: u32 = 1_000;

const FRONT: &[u8] = b"Content-Type: multipart/mixed; boundary=\"b\"\n\n";

/// The part that a multipart has PARTS times, an edit, and how often it may look at most.
const LIMITS: &str = r"
== a field of a part
part: \nx\n
at: 1.500
edit: add
with: X: y\n
most: 4

== a field of the multipart
part: \nx\n
at: 1
edit: add
with: X: y\n
most: 6

== a part between others
part: \nx\n
at: 1
edit: insert
place: 500
with: Content-Transfer-Encoding: base64\n\naGk=\n
most: 12

== a part that is wrapped
part: \nx\n
at: 1.500
edit: wrap
subtype: mixed
boundary: c
most: 14

== a part less
part: \nx\n
at: 1.500
edit: remove part
most: 2

== a field of the multipart, where the parts have fields
part: A: b\n\nx\n
at: 1
edit: add
with: X: y\n
most: 6
";

// A multipart with many parts, each of the same bytes.
fn many(alloc: Global, part: &[u8]) -> Result<Vec<u8>, AllocError> {
    let mut text = Vec::from_slice(alloc, FRONT)?;
    for _ in 0..PARTS {
        text.extend_from_slice(b"--b\n")?;
        text.extend_from_slice(part)?;
    }
    text.extend_from_slice(b"--b--\n")?;
    Ok(text)
}

fn check_most(rt: &impl Abort, meter: &Meter, most: u32, shows: &str) {
    assert!(rt; meter.count() <= u64::from(most), "{shows}");
}

fn check_limit(rt: &impl Abort, alloc: Global, row: &Row) -> Result<(), Fail> {
    let edit = edit_in(alloc, row)?;
    let most = number_in(row, "most")?;
    let mut session = session_over(alloc, &many(alloc, bytes_in(row, "part")?)?)?;
    let mut meter = Meter::new();
    check_answer(rt, session.check(&edit, &mut meter), Ok(()), row.shows);
    check_most(rt, &meter, most, row.shows);
    let mut meter = Meter::new();
    check_answer(rt, session.edit(&edit, &mut meter), Ok(()), row.shows);
    check_most(rt, &meter, most, row.shows);
    Ok(())
}

#[test]
fn few_lines_are_looked_at(rt: HostRuntime) -> Result<(), Fail> {
    let alloc = rt.alloc();
    let all = rows(alloc, LIMITS)?;
    assert_eq!(rt; all.len(), 6);
    for row in &all {
        check_limit(&rt, alloc, row)?;
    }
    Ok(())
}

/// An edit of each part.
const EACH: &str = r"
== a field in each part
part: \nx\n
edit: add
with: X: y\n
gives: X: y\n\nx\n
";

fn edit_each(
    rt: &impl Abort,
    alloc: Global,
    session: &mut Session,
    asked: Asked<'_>,
) -> Result<(), Fail> {
    for number in 1..=PARTS {
        let edit = edit_at(alloc, &[1, number], asked)?;
        let answer = session.edit(&edit, &mut Meter::new());
        check_answer(rt, answer, Ok(()), "a part");
    }
    Ok(())
}

fn undo_each(rt: &impl Abort, session: &mut Session) {
    for _ in 0..PARTS {
        check_answer(rt, session.undo(), Ok(()), "a part");
    }
}

#[test]
fn many_edits_of_a_long_message(rt: HostRuntime) -> Result<(), Fail> {
    let alloc = rt.alloc();
    let row = only_row(alloc, EACH)?;
    let text = many(alloc, bytes_in(&row, "part")?)?;
    let after = many(alloc, bytes_in(&row, "gives")?)?;
    let mut session = session_over(alloc, &text)?;
    edit_each(&rt, alloc, &mut session, asked_in(&row)?)?;
    same(&rt, session.text(), &after, row.shows);
    undo_each(&rt, &mut session);
    same(&rt, session.text(), &text, row.shows);
    Ok(())
}
