//! Portions of several sections, one after another. The expected bytes are worked out by hand.

use super::check_left;
use super::devices::{Page, Text};
use super::portions::wanted;
use mk_rows::{Row, rows};
use mk_run::{Cause, Portion, Status, try_extract_all};
use mk_script::numbers;
use std::alloc::{AllocError, Global};
use std::process::Abort;
use std::test::Fail;

const ROWS: &str = r#"
== two contents, in the order of the paths
message: Content-Type: multipart/mixed; boundary=b\n\n--b\n\none\n--b\nContent-Transfer-Encoding: base64\n\ndHdv\n--b--\n
path: 1.2
path: 1.1
output: twoone
status: Well

== one again
message: A: b\n\nx\n
path: 1
path: 1
output: x\nx\n
status: Well

== the others are given where one can't be
message: Content-Type: multipart/mixed; boundary=b\n\n--b\n\none\n--b\nContent-Transfer-Encoding: base64\n\ndHd=\n--b--\n
path: 1.3
path: 1.2
path: 1.1
output: one
errors: 1.3: NoSuchSection\n1.2: BadBase64\n
status: Refused

== the fields of a message and of its part
message: A: b\nContent-Type: multipart/mixed; boundary=b\n\n--b\nC: d\n\none\n--b--\n
portion: head
path: 1
path: 1.1
output: A: b\nContent-Type: multipart/mixed; boundary=b\nC: d\n
status: Well

== no path
message: A: b\n\nx\n
status: Well
"#;

const SIZES: [usize; 2] = [1, 1_000];

fn check_row(rt: &impl Abort, alloc: Global, row: &Row) -> Result<(), Fail> {
    let mut paths = Vec::new(alloc);
    for cell in &row.cells {
        if cell.key == "path" {
            paths.push(numbers(alloc, &cell.bytes)?.expect(rt, "a path"))?;
        }
    }
    for size in SIZES {
        let mut input = Text::new(row.bytes("message"), size);
        let mut out = Page::new(alloc, size)?;
        let mut err = Page::new(alloc, size)?;
        let done = try_extract_all(alloc, &mut input, &mut out, &mut err, &paths, wanted(row));
        let status = done.ok().unwrap_or(Status::Fault);
        check_left(rt, alloc, row, status, &out, &err)?;
    }
    Ok(())
}

#[test]
fn several_portions_are_given(rt: HostRuntime) -> Result<(), Fail> {
    for row in &rows(rt.alloc(), ROWS)? {
        check_row(&rt, rt.alloc(), row)?;
    }
    Ok(())
}

fn page(rt: &impl Abort, alloc: Global) -> Page {
    Page::new(alloc, 100).expect(rt, "a page")
}

// The path of the message, twice.
fn two_paths(alloc: Global) -> Result<Vec<Vec<u32>>, AllocError> {
    let mut paths = Vec::new(alloc);
    for _ in 0..2u32 {
        paths.push(Vec::from_slice(alloc, &[1u32])?)?;
    }
    Ok(paths)
}

// Whether two contents went out, rather than that memory ran out before anything did.
fn are_given(
    rt: &impl Abort,
    alloc: Global,
    mut out: Page,
    mut err: Page,
    paths: &[Vec<u32>],
) -> bool {
    let mut input = Text::new(b"\nx\n", 100);
    let wanted = Portion::Content;
    let done = try_extract_all(alloc, &mut input, &mut out, &mut err, paths, wanted);
    if done == Err(Cause::Memory) {
        assert_eq!(rt; out.bytes(), b"".as_slice());
        assert_eq!(rt; err.bytes(), b"".as_slice());
        return false;
    }
    assert!(rt; done == Ok(Status::Well));
    assert_eq!(rt; out.bytes(), b"x\nx\n".as_slice());
    true
}

#[test]
fn memory_for_several_portions(rt: HostRuntime) {
    let alloc = rt.alloc();
    let Ok(paths) = two_paths(alloc) else {
        return;
    };
    let (Ok(out), Ok(err)) = (Page::new(alloc, 100), Page::new(alloc, 100)) else {
        return;
    };
    if !are_given(&rt, alloc, out, err, &paths) {
        let (out, err) = (page(&rt, alloc), page(&rt, alloc));
        assert!(rt; are_given(&rt, alloc, out, err, &paths));
    }
}
