//! Growths of memory that are counted: a call has few, however many parts a message has. `checks/refuse` counts those of
//! each test here whose name holds `counted_`, beyond those of `counted_start`.

use super::checks::check_answer;
use super::{TableError, bytes_in, edit_in, number_in, session_over};
use mk_edit::{Edit, Session};
use mk_line::Meter;
use mk_rows::{Row, rows};
use std::alloc::{AllocError, Global};
use std::process::Abort;
use std::test::Fail;

const PARTS: u32 = 1_000;

const HEAD: &[u8] = b"Content-Type: multipart/mixed; boundary=\"b\"\n\n";

const PART: &[u8] = b"--b\nContent-Type: text/plain\n\nx\n";

const CLOSE: &[u8] = b"--b--\n";

/// Edits of a head and a thousand such parts, and what they give: a head, how many parts there are before some bytes, these
/// bytes, and how many parts there are after them.
const EDITS: &str = r#"
== a field of a part
at: 1.500
edit: add
with: X: y\n
head: Content-Type: multipart/mixed; boundary="b"\n\n
before: 499
between: --b\nContent-Type: text/plain\nX: y\n\nx\n
after: 500

== a field of the multipart
at: 1
edit: add
with: X: y\n
head: Content-Type: multipart/mixed; boundary="b"\nX: y\n\n
before: 1000
between:
after: 0

== a part between others
at: 1
edit: insert
place: 500
with: Content-Transfer-Encoding: base64\n\naGk=\n
head: Content-Type: multipart/mixed; boundary="b"\n\n
before: 500
between: --b\nContent-Transfer-Encoding: base64\n\naGk=\n
after: 500

== a part less
at: 1.500
edit: remove part
head: Content-Type: multipart/mixed; boundary="b"\n\n
before: 499
between:
after: 500
"#;

const FIELD_OF_A_PART: usize = 0;

const FIELD_OF_THE_MULTIPART: usize = 1;

const PART_MORE: usize = 2;

const PART_LESS: usize = 3;

// What a call is made with: all edits, so that each call has the same before it.
#[derive(Drop)]
struct Scene {
    rows: Vec<Row>,
    edits: Vec<Edit>,
    session: Session,
}

fn read_scene(alloc: Global) -> Result<Scene, TableError> {
    let rows = rows(alloc, EDITS)?;
    let mut edits = Vec::new(alloc);
    for row in &rows {
        edits.push(edit_in(alloc, row)?)?;
    }
    let session = session_over(alloc, &message(alloc)?)?;
    Ok(Scene {
        rows,
        edits,
        session,
    })
}

fn message(alloc: Global) -> Result<Vec<u8>, AllocError> {
    let mut text = Vec::from_slice(alloc, HEAD)?;
    for _ in 0..PARTS {
        text.extend_from_slice(PART)?;
    }
    text.extend_from_slice(CLOSE)?;
    Ok(text)
}

// What follows a text that stands this many times.
fn following<'a>(text: &'a [u8], front: &[u8], times: u32) -> Option<&'a [u8]> {
    let mut rest = text;
    for _ in 0..times {
        rest = rest.strip_prefix(front)?;
    }
    Some(rest)
}

// What follows texts that stand one after another, each this many times.
fn after_all<'a>(text: &'a [u8], fronts: [(&[u8], u32); 4]) -> Option<&'a [u8]> {
    let mut rest = text;
    for (front, times) in fronts {
        rest = following(rest, front, times)?;
    }
    Some(rest)
}

// A text is the one that a row says. This takes no memory.
fn check_text(rt: &impl Abort, text: &[u8], row: &Row) -> Result<(), Fail> {
    let fronts = [
        (bytes_in(row, "head")?, 1),
        (PART, number_in(row, "before")?),
        (bytes_in(row, "between")?, 1),
        (PART, number_in(row, "after")?),
    ];
    assert_eq!(rt; after_all(text, fronts), Some(CLOSE), "{}", row.shows);
    Ok(())
}

fn check_checked(rt: &impl Abort, alloc: Global, number: usize) -> Result<(), Fail> {
    let Scene {
        rows,
        edits,
        session,
    } = read_scene(alloc)?;
    match (rows.get(number), edits.get(number)) {
        (Some(row), Some(edit)) => {
            let answer = session.check(edit, &mut Meter::new());
            check_answer(rt, answer, Ok(()), row.shows);
            Ok(())
        }
        _ => Err(Fail::new("no such row")),
    }
}

fn check_edited(rt: &impl Abort, alloc: Global, number: usize) -> Result<(), Fail> {
    let Scene {
        rows,
        edits,
        mut session,
    } = read_scene(alloc)?;
    match (rows.get(number), edits.get(number)) {
        (Some(row), Some(edit)) => {
            let answer = session.edit(edit, &mut Meter::new());
            check_answer(rt, answer, Ok(()), row.shows);
            check_text(rt, session.text(), row)
        }
        _ => Err(Fail::new("no such row")),
    }
}

#[test]
fn counted_start(rt: HostRuntime) -> Result<(), Fail> {
    let scene = read_scene(rt.alloc())?;
    assert_eq!(rt; scene.edits.len(), 4);
    Ok(())
}

#[test]
fn counted_check_field_of_a_part(rt: HostRuntime) -> Result<(), Fail> {
    check_checked(&rt, rt.alloc(), FIELD_OF_A_PART)
}

#[test]
fn counted_check_field_of_the_multipart(rt: HostRuntime) -> Result<(), Fail> {
    check_checked(&rt, rt.alloc(), FIELD_OF_THE_MULTIPART)
}

#[test]
fn counted_check_part_more(rt: HostRuntime) -> Result<(), Fail> {
    check_checked(&rt, rt.alloc(), PART_MORE)
}

#[test]
fn counted_check_part_less(rt: HostRuntime) -> Result<(), Fail> {
    check_checked(&rt, rt.alloc(), PART_LESS)
}

#[test]
fn counted_edit_field_of_a_part(rt: HostRuntime) -> Result<(), Fail> {
    check_edited(&rt, rt.alloc(), FIELD_OF_A_PART)
}

#[test]
fn counted_edit_field_of_the_multipart(rt: HostRuntime) -> Result<(), Fail> {
    check_edited(&rt, rt.alloc(), FIELD_OF_THE_MULTIPART)
}

#[test]
fn counted_edit_part_more(rt: HostRuntime) -> Result<(), Fail> {
    check_edited(&rt, rt.alloc(), PART_MORE)
}

#[test]
fn counted_edit_part_less(rt: HostRuntime) -> Result<(), Fail> {
    check_edited(&rt, rt.alloc(), PART_LESS)
}
