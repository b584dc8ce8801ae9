//! Edits where no more levels may stand below.

use super::checks::{check_answer, same};
use super::{
    TableError, asked_in, bytes_in, edit_at, number_in, only_row, reason_of, session_over,
};
use mk_edit::{Edit, Session};
use mk_line::Meter;
use mk_rows::{Row, rows};
use std::alloc::{AllocError, Global};
use std::process::Abort;
use std::test::Fail;

/// How many multiparts stand around a section, an edit of this, and what stands in its place after the edit, and of which
/// kind. A section with 100 multiparts around it is at the last level.
const ROWS: &str = r"
== above the last level a leaf becomes a multipart
around: 99
edit: section
with: Content-Type: multipart/mixed; boundary=c\n\n--c\n\nx\n
gives: Content-Type: multipart/mixed; boundary=c\n\n--c\n\nx\n
kind: Multi

== at the last level it doesn't
around: 100
edit: section
with: Content-Type: multipart/mixed; boundary=c\n\n--c\n\nx\n
gives: Content-Type: multipart/mixed; boundary=c\n\n--c\n\nx\n
kind: Leaf

== nor does it become a message
around: 100
edit: add at the top
with: Content-Type: message/rfc822\n
gives: Content-Type: message/rfc822\n\nx\n
kind: Leaf
";

// This many multiparts, each the only part of the one before, and then a text.
fn nested(alloc: Global, count: u32, inside: &[u8]) -> Result<Vec<u8>, AllocError> {
    let mut text = Vec::new(alloc);
    for level in 1..=count {
        let lines = format!(in alloc;
            "Content-Type: multipart/mixed; boundary=b{level}\n\n--b{level}\n"
        )?;
        text.extend_from_slice(lines.as_bytes())?;
    }
    text.extend_from_slice(inside)?;
    Ok(text)
}

// The path of the section in this many multiparts.
fn path_below(alloc: Global, around: u32) -> Result<Vec<u32>, AllocError> {
    let mut path = Vec::from_slice(alloc, &[1])?;
    for _ in 0..around {
        path.push(1)?;
    }
    Ok(path)
}

// A section in multiparts, its path, and an edit of it.
#[derive(Drop)]
struct Inner {
    session: Session,
    path: Vec<u32>,
    edit: Edit,
}

fn read_inner(alloc: Global, row: &Row) -> Result<Inner, TableError> {
    let around = number_in(row, "around")?;
    let path = path_below(alloc, around)?;
    let edit = edit_at(alloc, &path, asked_in(row)?)?;
    let session = session_over(alloc, &nested(alloc, around, b"\nx\n")?)?;
    Ok(Inner {
        session,
        path,
        edit,
    })
}

// The text after the edit of a row.
fn text_in(alloc: Global, row: &Row) -> Result<Vec<u8>, TableError> {
    let inside = bytes_in(row, "gives")?;
    Ok(nested(alloc, number_in(row, "around")?, inside)?)
}

fn check_kind(rt: &impl Abort, alloc: Global, inner: &Inner, row: &Row) -> Result<(), Fail> {
    match inner.session.doc().section(&inner.path) {
        Some(section) => {
            let kind = format!(in alloc; "{:?}", section.kind())?;
            same(rt, kind.as_bytes(), bytes_in(row, "kind")?, row.shows);
            Ok(())
        }
        None => Err(Fail::new(row.shows)),
    }
}

fn check_row(rt: &impl Abort, alloc: Global, row: &Row) -> Result<(), Fail> {
    let mut inner = read_inner(alloc, row)?;
    let answer = inner.session.edit(&inner.edit, &mut Meter::new());
    check_answer(rt, answer, Ok(()), row.shows);
    same(rt, inner.session.text(), &text_in(alloc, row)?, row.shows);
    check_kind(rt, alloc, &inner, row)
}

#[test]
fn the_section_at_level_101_stays_a_leaf(rt: HostRuntime) -> Result<(), Fail> {
    let alloc = rt.alloc();
    let all = rows(alloc, ROWS)?;
    assert_eq!(rt; all.len(), 3);
    for row in &all {
        check_row(&rt, alloc, row)?;
    }
    Ok(())
}

const REFUSED: &str = r"
== a leaf would become a message
around: 99
edit: add at the top
with: Content-Type: message/rfc822\n
refused: Recut
";

#[test]
fn the_section_at_level_100_would_become_a_message(rt: HostRuntime) -> Result<(), Fail> {
    let alloc = rt.alloc();
    let row = only_row(alloc, REFUSED)?;
    let inner = read_inner(alloc, &row)?;
    let answer = inner.session.check(&inner.edit, &mut Meter::new());
    let refused = reason_of(row.text("refused"))?;
    check_answer(&rt, answer, Err(refused), row.shows);
    Ok(())
}
